//! The catalogue as text.
ghost use Rattle.std.specs.Prelude.{◌≡◌};

use crate::catalogue::Catalogue;
use crate::entry::{Entry, Packet, Verdict};
use crate::source::{Heading, Source};
use crate::summary::Summary;
use crate::totals::{Kinds, Totals};
use crate::visit::{Outcome, Visitor};
use crate::words::{Facts, SuperframeWords, on_off};
use reel::block::Block;
use service::choice::ServiceChoice;
use service::header::HeaderFault;
use std::fmt;
use std::fmt::Write;

/// The first lines of the catalogue.
#[derive(Clone, Copy, PartialEq, Eq, Debug)]
pub struct TextHead<'a>(pub Heading<'a>);

impl fmt::Display for TextHead<'_> {
    fn fmt<W: fmt::Write>(&self, f: &mut fmt::Formatter<W>) -> fmt::Result {
        let Heading {
            name,
            size,
            settings,
        } = self.0;
        let checksum = settings.checksum.word();
        let service = settings.service.word();
        let fasb = on_off(settings.fasb);
        writeln!(f, "{name}: {size} bytes")?;
        writeln!(
            f,
            "read with checksum {checksum}, service {service}, fasb {fasb}"
        )
    }
}

/// One line on an entry.
#[derive(Clone, Copy, PartialEq, Eq, Debug)]
pub struct EntryText(pub Entry);

/// Writes the line of a packet.
fn write_packet<W: fmt::Write>(f: &mut fmt::Formatter<W>, packet: Packet) -> fmt::Result {
    let verdict = packet.verdict.word();
    let len = packet.len;
    write!(f, "  {verdict:<10}{len:>5} bytes")?;
    if let Verdict::Foreign { number } = packet.verdict {
        let why = ForeignReason(number);
        write!(f, "   question {number}: {why}")?;
    }
    if let Some(header) = packet.header {
        let facts = Facts(header);
        write!(f, "   {facts}")?;
    }
    f.write_str("\n")
}

impl fmt::Display for EntryText {
    fn fmt<W: fmt::Write>(&self, f: &mut fmt::Formatter<W>) -> fmt::Result {
        match self.0 {
            Entry::Packet(packet) => write_packet(f, packet),
            Entry::Short => writeln!(f, "  short                 no more bytes than a checksum"),
            Entry::Lost { frame, dropped } => {
                writeln!(f, "  lost      frame {frame:>5}   {dropped} bytes dropped")
            }
            Entry::Torn {
                frame,
                dropped,
                torn,
            } => {
                writeln!(
                    f,
                    "  torn      frame {frame:>5}   {dropped} bytes dropped; {torn}"
                )
            }
            Entry::Unfinished { dropped } => {
                writeln!(
                    f,
                    "  unfinished{dropped:>5} bytes   of a packet whose end did not come"
                )
            }
        }
    }
}

/// Why the sync service refuses a packet under this number.
#[derive(Clone, Copy, PartialEq, Eq, Debug)]
pub struct ForeignReason(pub u8);

impl fmt::Display for ForeignReason {
    fn fmt<W: fmt::Write>(&self, f: &mut fmt::Formatter<W>) -> fmt::Result {
        match HeaderFault::try_from(self.0) {
            // The fault of writing refuses no packet.
            Ok(HeaderFault::BufferLength) | Err(_) => f.write_str("the service does not admit it"),
            Ok(fault) => f.write(fault),
        }
    }
}

/// The catalogue of a reel, superframe by superframe.
#[derive(Drop)]
pub struct TextCatalogue<'a, O> {
    pub out: &'a mut O,
}

impl<'a, O> TextCatalogue<'a, O> {
    /// One that is written here.
    pub fn to(out: &'a mut O) -> TextCatalogue<'a, O>
        ensures { result.out ≡ out.entry }
    {
        TextCatalogue { out }
    }
}

impl<O: fmt::Write> Visitor for TextCatalogue<'_, O> {
    fn superframe(&mut self, number: u64, block: Block<'_>) -> fmt::Result {
        let words = SuperframeWords { number, block };
        writeln!(self.out, "\n{words}")
    }

    fn entry(&mut self, entry: Entry, _packet: &[u8]) -> fmt::Result {
        self.out.write(EntryText(entry))
    }

    fn superframe_end(&mut self) -> fmt::Result {
        Ok(())
    }
}

impl<O: fmt::Write> Catalogue for TextCatalogue<'_, O> {
    fn head(&mut self, source: Source<'_>) -> fmt::Result {
        self.out.write(TextHead(Heading::from(source)))
    }

    fn end(&mut self, source: Source<'_>, outcome: Outcome) -> fmt::Result {
        let service = source.settings.service;
        self.out.write(TextEnd { outcome, service })
    }
}

/// The last lines of the catalogue: the totals, and what is missing.
#[derive(Clone, Copy, PartialEq, Eq, Debug)]
pub struct TextEnd {
    pub outcome: Outcome,
    pub service: ServiceChoice,
}

/// Writes the lines for packets by kind.
fn write_kinds<W: fmt::Write>(f: &mut fmt::Formatter<W>, kinds: Kinds) -> fmt::Result {
    let Kinds {
        video,
        audio,
        captions,
        adaptation,
    } = kinds;
    writeln!(f, "      video        {video:>12}")?;
    writeln!(f, "      audio        {audio:>12}")?;
    writeln!(f, "      captions     {captions:>12}   (timed data)")?;
    writeln!(f, "      adaptation   {adaptation:>12}")
}

/// Writes the lines for frames.
fn write_frames<W: fmt::Write>(f: &mut fmt::Formatter<W>, outcome: Outcome) -> fmt::Result {
    let superframes = outcome.surveyed.contents.superframes;
    let frames = outcome.frames();
    let lost = outcome.surveyed.contents.gaps;
    let torn = outcome.totals.torn;
    let whole = outcome.whole();
    writeln!(f, "  superframes      {superframes:>12}")?;
    writeln!(f, "  frames           {frames:>12}")?;
    writeln!(f, "    whole          {whole:>12}")?;
    writeln!(f, "    lost           {lost:>12}")?;
    writeln!(f, "    torn           {torn:>12}")
}

/// Writes the lines for packets.
fn write_packets<W: fmt::Write>(
    f: &mut fmt::Formatter<W>,
    totals: Totals,
    service: ServiceChoice,
) -> fmt::Result {
    let packets = totals.packets();
    let sound = totals.sound;
    let damaged = totals.damaged;
    let foreign = totals.foreign;
    let short = totals.short;
    let unfinished = totals.unfinished;
    let dropped = totals.dropped;
    writeln!(f, "  packets          {packets:>12}")?;
    writeln!(f, "    sound          {sound:>12}")?;
    if service == ServiceChoice::Sync {
        write_kinds(f, totals.kinds)?;
    }
    writeln!(f, "    damaged        {damaged:>12}")?;
    if service == ServiceChoice::Sync {
        let captions = totals.damaged_kinds.captions;
        writeln!(f, "      captions     {captions:>12}   (timed data)")?;
    }
    writeln!(f, "    foreign        {foreign:>12}")?;
    writeln!(f, "    short          {short:>12}")?;
    writeln!(f, "  unfinished       {unfinished:>12}")?;
    writeln!(f, "  bytes dropped    {dropped:>12}")
}

/// What to try where the settings are probably not those of the reel.
fn advice(totals: Totals) -> &'static str {
    match (totals.sound, totals.damaged, totals.foreign) {
        (0, 1.., 0) => {
            "Every packet is damaged: if the reel has no checksums, read it with --checksum none.\n"
        }
        (0, 0, 1..) => {
            "Every packet is foreign: if the reel has no sync packets, read it with --service plain.\n"
        }
        _ => "",
    }
}

impl fmt::Display for TextEnd {
    fn fmt<W: fmt::Write>(&self, f: &mut fmt::Formatter<W>) -> fmt::Result {
        let open = self.outcome.open_at_end;
        if open > 0 {
            writeln!(f, "\nthe reel's end")?;
            f.write(EntryText(Entry::Unfinished { dropped: open }))?;
        }
        if let Some(fault) = self.outcome.surveyed.fault {
            let at = fault.at;
            let number = fault.fault.number();
            let asked = fault.fault;
            writeln!(
                f,
                "\nthe block at byte {at} is not lawful: question {number}, {asked}"
            )?;
        }
        writeln!(f, "\ntotals")?;
        write_frames(f, self.outcome)?;
        write_packets(f, self.outcome.totals, self.service)?;
        let summary = Summary(self.outcome);
        writeln!(f, "\n{summary}")?;
        f.write_str(advice(self.outcome.totals))
    }
}
