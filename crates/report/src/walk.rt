ghost use Rattle.std.specs.Prelude.{◌≡◌, [], IfOk, OnOk};
ghost use Rattle.receiver.specs.Reading.{new_reader};
ghost use Rattle.receiver.specs.Readings.{said};
ghost use Rattle.reel.specs.Playing.{reel_slots};
ghost use Rattle.reel.specs.Reel.{reading as onReel};
ghost use Rattle.report.specs.Complete.{ComesTo};
ghost use Rattle.report.specs.Tallies.{nothing_yet};
ghost use Rattle.report.specs.Walking.{counting_open, tallied_all, owed_by, owed_to, in_all, with_answer, Passed, is_the_last};
ghost use Rattle.report.specs.declared.walk.Until.TheVariants.{End};

use crate::entry::{Entry, front, shown_by};
use crate::settings::Settings;
use crate::totals::Totals;
use crate::visit::{Outcome, Progress, Visitor};
use framing::judging::PACKET_MAX;
use receiver::answer::Reading;
use receiver::reader::Reader;
use reel::blocks::Blocks;
use reel::counting::survey;
use reel::playing::ReelChannel;
use std::fmt;

/// How far a walk reads on. The words are those in which it is promised what is still owed; a closure would need a promise of its own.
#[derive(Clone, Copy, PartialEq, Eq)]
enum Until {
    /// Through the next mark, or to the end where there is none.
    Mark,
    /// To the end.
    End,
}

/// Is this reading the last of a walk that goes so far?
fn is_last(reading: Reading, until: Until) -> bool
    ensures { result ≡ is_the_last until reading }
{
    matches!(
        (reading, until),
        (Reading::Nothing, _) | (Reading::Mark { .. }, Until::Mark)
    )
}

/// The bytes of an entry that is a packet.
fn packet_of(entry: Entry, buffer: &[u8]) -> &[u8] {
    match entry {
        Entry::Packet(packet) => front(buffer, packet.len),
        _ => &[],
    }
}

/// A walk over a reel: how it reads, how far it is, and what that came to.
#[derive(Drop)]
struct ReelWalk<'a> {
    settings: Settings,
    reader: Reader,
    channel: ReelChannel<'a>,
    totals: Totals,
}

impl<'a> ReelWalk<'a> {
    /// A walk that has read nothing yet of this reel.
    fn over(reel: &'a [u8], settings: Settings) -> ReelWalk<'a>
        ensures { in_all result ≡ tallied_all settings.service nothing_yet (owed_by settings new_reader (reel_slots (onReel reel.now).superframes)) }
    {
        ReelWalk {
            settings,
            reader: Reader::new(),
            channel: ReelChannel::over(reel),
            totals: Totals::default(),
        }
    }

    /// Adds what a reading shows to the totals, and shows it.
    fn show<V: Visitor>(&mut self, reading: Reading, buffer: &[u8], visitor: &mut V) -> fmt::Result
        ensures { self.new ≡ with_answer self.old (said reading buffer.now) }
    {
        if let Some(entry) = shown_by(reading, buffer, self.settings.service) {
            self.totals = self.totals.with(entry);
            visitor.entry(entry, packet_of(entry, buffer))?;
        }
        Ok(())
    }

    /// One reading, which is shown and added to the totals.
    fn read_one<V: Visitor>(&mut self, visitor: &mut V) -> Result<Reading, fmt::Error>
        ensures { IfOk result (λ a. Passed a self.old self.new) }
    {
        let mut buffer = [0; PACKET_MAX];
        let Ok(reading) = self
            .settings
            .read(&mut self.reader, &mut self.channel, &mut buffer)
        else {
            unreachable!("the buffer has room for the longest packet")
        };
        self.show(reading, &buffer, visitor)?;
        Ok(reading)
    }

    /// Reads on so far, and shows all that it reads and adds it to the totals.
    fn read_on<V: Visitor>(&mut self, until: Until, visitor: &mut V) -> fmt::Result
        ensures counted { OnOk result (in_all self.new ≡ in_all self.old) }
        ensures out { OnOk result ((until ≡ End → owed_to self.new ≡ [])) }
    {
        loop {
            let reading = self.read_one(visitor)?;
            if is_last(reading, until) {
                return Ok(());
            }
        }
    }

    /// Reads a superframe that has begun, through its mark.
    fn read_superframe<V: Visitor>(&mut self, visitor: &mut V) -> fmt::Result
        ensures { OnOk result (in_all self.new ≡ in_all self.old) }
    {
        self.read_on(Until::Mark, visitor)?;
        visitor.superframe_end()
    }

    /// Reads all superframes of the reel, up to its end or its first fault, and shows each with all that it holds. Where the last is
    /// read, what the reader might still find is read too, so that nothing is passed over.
    fn read_all<V: Visitor, P: Progress>(
        &mut self,
        reel: &[u8],
        visitor: &mut V,
        progress: &mut P,
    ) -> fmt::Result
        ensures { OnOk result (self.new.totals ≡ in_all self.old) }
    {
        for (number, found) in (1..).zip(Blocks::of(reel)) {
            // `map_while(Result::ok)` is not covered in a function that takes its visitor's type. Behind a fault there is no block more.
            if let Ok(block) = found {
                progress.passed(block.at);
                visitor.superframe(number, block)?;
                self.read_superframe(visitor)?;
            }
        }
        self.read_on(Until::End, visitor)?;
        Ok(())
    }

    /// How many bytes the reader still has of a packet whose end never came: a lost frame behind the reel's end would drop them.
    fn open_bytes(&mut self) -> u16 {
        let mut buffer = [0; PACKET_MAX];
        let mut one_gap = ReelChannel::over(&[1, 0]);
        match self
            .settings
            .read(&mut self.reader, &mut one_gap, &mut buffer)
        {
            Ok(Reading::Lost { dropped, .. }) => dropped,
            _ => 0,
        }
    }
}

/// With the packet inside which the reel ended, of which so many bytes were there, if there were any.
fn with_open(totals: Totals, open_at_end: u16) -> Totals
    ensures { result ≡ counting_open totals open_at_end }
{
    if open_at_end > 0 {
        totals.with(Entry::Unfinished {
            dropped: open_at_end,
        })
    } else {
        totals
    }
}

/// Reads a whole reel, up to its end or its first fault, and shows each superframe with all that it holds. The totals are those of all
/// answers that the rules give to the slots of the reel, and of the packet inside which it ended: nothing is left out.
pub fn walk<V: Visitor, P: Progress>(
    reel: &[u8],
    settings: Settings,
    visitor: &mut V,
    progress: &mut P,
) -> Result<Outcome, fmt::Error>
    ensures { IfOk result (ComesTo settings reel.now) }
{
    let mut under_way = ReelWalk::over(reel, settings);
    under_way.read_all(reel, visitor, progress)?;
    let totals = under_way.totals;
    let open_at_end = under_way.open_bytes();
    Ok(Outcome {
        surveyed: survey(reel),
        totals: with_open(totals, open_at_end),
        open_at_end,
    })
}
