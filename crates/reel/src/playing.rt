ghost use Rattle.std.specs.Prelude.{◌≡◌, []};
ghost use Rattle.std.specs.Option.{option_map};
ghost use Rattle.channel.specs.Answers.{TakeAnswer};
ghost use Rattle.channel.specs.Asking.{waiting};
ghost use Rattle.reel.specs.Parts.{told_as};
ghost use Rattle.reel.specs.Playing.{recorded_as, part_of, part_slots, reel_slots, waiting_slots, stops_at, stops_here, no_space, NothingMade, Always, Opened};
ghost use Rattle.reel.specs.Reel.{reading};
ghost use Rattle.reel.specs.Walking.{to_read};

use crate::blocks::Blocks;
use crate::fault::ReelFault;
use crate::slots::{Recorded, Slots};
use channel::channel::{Channel, Full};
use channel::sending::Outgoing;
use framing::frame::Frame;
use framing::slot::Slot;

/// A reel as a channel, from which its slots are taken and on which nothing can be put. The reel's bytes are read where they lie.
#[derive(Drop)]
pub struct ReelChannel<'a> {
    /// The blocks behind the one in hand.
    blocks: Blocks<'a>,
    /// What is still to come of the block in hand, its mark aside, which comes behind it.
    slots: Option<Slots<'a>>,
}

impl<'a> ReelChannel<'a> {
    /// The channel of this reel: a frame or a gap for each bit of its lawful blocks up to the first that is not, and a mark after each block.
    pub fn over(reel: &'a [u8]) -> ReelChannel<'a>
        ensures waits { waiting_slots result ≡ reel_slots (reading reel.now).superframes }
        ensures stops { stops_at result ≡ (reading reel.now).stop }
        ensures free { no_space result ≡ 0 }
        ensures ties { Always result }
    {
        ReelChannel {
            blocks: Blocks::of(reel),
            slots: None,
        }
    }

    /// What is to come of the block in hand. If none is in hand, the next lawful block is taken in hand first.
    fn open_block(&mut self) -> Option<Slots<'a>>
        ensures { Opened result self.old self.new }
    {
        if self.slots.is_none() {
            let mut blocks = self.blocks;
            if let Some(Ok(block)) = blocks.next() {
                self.blocks = blocks;
                self.slots = Some(block.slots());
            }
        }
        self.slots
    }

    /// Does a lawful block follow the one in hand?
    fn block_follows(&self) -> bool
        ensures { result ≡ waiting (part_slots (to_read self.now.blocks).superframes) }
    {
        let mut blocks = self.blocks;
        blocks.next().is_some_and(|found| found.is_ok())
    }

    /// Where nothing waits: why nothing more comes of the reel, or nothing at its end. While a block is in hand, the same of the block that
    /// follows, or nothing where that is lawful.
    pub fn stop(&self) -> Option<ReelFault>
        ensures here { option_map told_as result ≡ stops_here self.now }
        ensures all { waiting_slots self.now ≡ [] → option_map told_as result ≡ stops_at self.now }
    {
        let mut blocks = self.blocks;
        blocks.next().and_then(Result::err)
    }
}

impl Channel for ReelChannel<'_> {
    ghost slots = { waiting_slots };

    ghost space = { no_space };

    ghost made = { NothingMade };

    ghost tied = { Always };

    fn room(&self) -> usize {
        0
    }

    fn waits(&self) -> bool {
        self.slots.is_some() || self.block_follows()
    }

    /// Nothing can be put on a reel.
    fn put(&mut self, _item: &Outgoing) -> Result<(), Full> {
        Err(Full)
    }

    fn take(&mut self) -> Option<Slot>
        ensures answers { TakeAnswer waiting_slots no_space Always result self.old self.new }
        ensures steady { stops_at self.new ≡ stops_at self.old }
    {
        let mut slots = self.open_block()?;
        match slots.next() {
            Some(recorded) => {
                self.slots = Some(slots);
                Some(Slot::from(recorded))
            }
            None => {
                self.slots = None;
                Some(Slot::Mark)
            }
        }
    }
}

impl From<Recorded<'_>> for Slot {
    ghost from_gives = { λ recorded slot. slot ≡ part_of (recorded_as recorded) };

    /// What a block has for one frame, as a slot. What is no whole frame is a gap.
    fn from(recorded: Recorded<'_>) -> Slot {
        match recorded {
            Recorded::Frame(bytes) => Frame::try_from(bytes).map_or(Slot::Gap, Slot::Frame),
            Recorded::Gap => Slot::Gap,
        }
    }
}
