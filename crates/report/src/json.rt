//! The catalogue as JSON: one object, an entry a line. It is written by hand and as the reel is read: a JSON library would hold the
//! whole object before it writes, and would lay it out and escape its strings otherwise.
ghost use Rattle.std.specs.Prelude.{◌≡◌, false};

use crate::catalogue::Catalogue;
use crate::entry::{Entry, Packet, Verdict};
use crate::source::{Heading, Source};
use crate::summary::Summary;
use crate::text::ForeignReason;
use crate::totals::Kinds;
use crate::visit::{Outcome, Visitor};
use crate::words::or_word;
use reel::block::Block;
use service::header::SyncHeader;
use std::fmt;
use std::fmt::Write;

/// Text as a JSON string, quotes included.
#[derive(Clone, Copy, PartialEq, Eq, Debug)]
pub struct JsonText<'a>(pub &'a str);

/// One character inside a JSON string.
#[derive(Clone, Copy, PartialEq, Eq, Debug)]
pub struct JsonChar(pub char);

impl fmt::Display for JsonChar {
    fn fmt<W: fmt::Write>(&self, f: &mut fmt::Formatter<W>) -> fmt::Result {
        match self.0 {
            '"' => f.write_str("\\\""),
            '\\' => f.write_str("\\\\"),
            control if u32::from(control) < 32 => {
                let code = u32::from(control);
                write!(f, "\\u{code:04x}")
            }
            other => f.write_char(other),
        }
    }
}

impl fmt::Display for JsonText<'_> {
    fn fmt<W: fmt::Write>(&self, f: &mut fmt::Formatter<W>) -> fmt::Result {
        f.write_str("\"")?;
        for c in self.0.chars() {
            f.write(JsonChar(c))?;
        }
        f.write_str("\"")
    }
}

/// The beginning of the object.
#[derive(Clone, Copy, PartialEq, Eq, Debug)]
pub struct JsonHead<'a>(pub Heading<'a>);

impl fmt::Display for JsonHead<'_> {
    fn fmt<W: fmt::Write>(&self, f: &mut fmt::Formatter<W>) -> fmt::Result {
        let Heading {
            name,
            size,
            settings,
        } = self.0;
        let name = JsonText(name);
        let checksum = settings.checksum.word();
        let service = settings.service.word();
        let fasb = settings.fasb;
        writeln!(f, "{{\"reel\": {name}, \"bytes\": {size},")?;
        writeln!(
            f,
            " \"settings\": {{\"fasb\": {fasb}, \"checksum\": \"{checksum}\", \"service\": \"{service}\"}},"
        )?;
        f.write_str(" \"superframes\": [")
    }
}

/// One entry as an object.
#[derive(Clone, Copy, PartialEq, Eq, Debug)]
pub struct EntryJson(pub Entry);

fn write_header<W: fmt::Write>(f: &mut fmt::Formatter<W>, header: SyncHeader) -> fmt::Result {
    let kind = header.kind.word();
    let frame = or_word(header.frame_id, "null");
    let time = or_word(header.timestamp, "null");
    let access = header.access_point;
    let unreferenced = header.unreferenced;
    write!(
        f,
        ", \"kind\": \"{kind}\", \"frame_id\": {frame}, \"timestamp\": {time}"
    )?;
    write!(
        f,
        ", \"access_point\": {access}, \"unreferenced\": {unreferenced}"
    )
}

fn write_packet<W: fmt::Write>(f: &mut fmt::Formatter<W>, packet: Packet) -> fmt::Result {
    let word = packet.verdict.word();
    let len = packet.len;
    write!(f, "{{\"entry\": \"{word}\", \"length\": {len}")?;
    if let Verdict::Foreign { number } = packet.verdict {
        let why = ForeignReason(number);
        write!(f, ", \"question\": {number}, \"why\": \"{why}\"")?;
    }
    if let Some(header) = packet.header {
        write_header(f, header)?;
    }
    f.write_str("}")
}

impl fmt::Display for EntryJson {
    fn fmt<W: fmt::Write>(&self, f: &mut fmt::Formatter<W>) -> fmt::Result {
        match self.0 {
            Entry::Packet(packet) => write_packet(f, packet),
            Entry::Short => f.write_str("{\"entry\": \"short\"}"),
            Entry::Lost { frame, dropped } => {
                write!(
                    f,
                    "{{\"entry\": \"lost\", \"frame\": {frame}, \"dropped\": {dropped}}}"
                )
            }
            Entry::Torn {
                frame,
                dropped,
                torn,
            } => {
                let question = torn.fault.number();
                let at = torn.at;
                let why = torn.fault;
                write!(
                    f,
                    "{{\"entry\": \"torn\", \"frame\": {frame}, \"dropped\": {dropped}"
                )?;
                write!(
                    f,
                    ", \"question\": {question}, \"at\": {at}, \"why\": \"{why}\"}}"
                )
            }
            Entry::Unfinished { dropped } => {
                write!(f, "{{\"entry\": \"unfinished\", \"dropped\": {dropped}}}")
            }
        }
    }
}

/// The superframes as a list, each with the list of its entries. Each list has a flag: a comma stands before all but its first.
#[derive(Drop)]
pub struct JsonCatalogue<'a, O> {
    pub out: &'a mut O,
    /// Whether a superframe stands before.
    pub superframe_before: bool,
    /// Whether an entry stands before, in the same superframe.
    pub entry_before: bool,
}

impl<'a, O> JsonCatalogue<'a, O> {
    /// One that is written here.
    pub fn to(out: &'a mut O) -> JsonCatalogue<'a, O>
        ensures { result ≡ record { out = out.entry; superframe_before = false; entry_before = false } }
    {
        JsonCatalogue {
            out,
            superframe_before: false,
            entry_before: false,
        }
    }
}

impl<O: fmt::Write> Visitor for JsonCatalogue<'_, O> {
    fn superframe(&mut self, number: u64, block: Block<'_>) -> fmt::Result {
        let at = block.at;
        let frames = block.frame_count();
        let gaps = block.gap_count();
        let comma = if self.superframe_before { "," } else { "" };
        self.superframe_before = true;
        self.entry_before = false;
        write!(
            self.out,
            "{comma}\n  {{\"superframe\": {number}, \"at\": {at}, \"frames\": {frames}"
        )?;
        write!(self.out, ", \"gaps\": {gaps}, \"entries\": [")
    }

    fn entry(&mut self, entry: Entry, _packet: &[u8]) -> fmt::Result {
        let comma = if self.entry_before { "," } else { "" };
        self.entry_before = true;
        let object = EntryJson(entry);
        write!(self.out, "{comma}\n    {object}")
    }

    fn superframe_end(&mut self) -> fmt::Result {
        self.out.write_str("]}")
    }
}

impl<O: fmt::Write> Catalogue for JsonCatalogue<'_, O> {
    fn head(&mut self, source: Source<'_>) -> fmt::Result {
        self.out.write(JsonHead(Heading::from(source)))
    }

    fn end(&mut self, _source: Source<'_>, outcome: Outcome) -> fmt::Result {
        self.out.write(JsonEnd(outcome))
    }
}

/// The end of the object: the totals, and what is missing.
#[derive(Clone, Copy, PartialEq, Eq, Debug)]
pub struct JsonEnd(pub Outcome);

fn write_kinds<W: fmt::Write>(f: &mut fmt::Formatter<W>, kinds: Kinds) -> fmt::Result {
    let Kinds {
        video,
        audio,
        captions,
        adaptation,
    } = kinds;
    write!(f, "{{\"video\": {video}, \"audio\": {audio}")?;
    write!(
        f,
        ", \"captions\": {captions}, \"adaptation\": {adaptation}}}"
    )
}

fn write_totals<W: fmt::Write>(f: &mut fmt::Formatter<W>, outcome: Outcome) -> fmt::Result {
    let totals = outcome.totals;
    let superframes = outcome.surveyed.contents.superframes;
    let frames = outcome.frames();
    let whole = outcome.whole();
    let lost = outcome.surveyed.contents.gaps;
    let torn = totals.torn;
    let packets = totals.packets();
    let sound = totals.sound;
    let damaged = totals.damaged;
    let foreign = totals.foreign;
    let short = totals.short;
    write!(f, "{{\"superframes\": {superframes}, \"frames\": {frames}")?;
    write!(
        f,
        ", \"whole\": {whole}, \"lost\": {lost}, \"torn\": {torn},\n  "
    )?;
    write!(
        f,
        "\"packets\": {packets}, \"sound\": {sound}, \"damaged\": {damaged}"
    )?;
    writeln!(f, ", \"foreign\": {foreign}, \"short\": {short},")
}

impl fmt::Display for JsonEnd {
    fn fmt<W: fmt::Write>(&self, f: &mut fmt::Formatter<W>) -> fmt::Result {
        let totals = self.0.totals;
        let open = self.0.open_at_end;
        let unfinished = totals.unfinished;
        let dropped = totals.dropped;
        write!(f, "],\n \"open_at_end\": {open},\n \"fault\": ")?;
        match self.0.surveyed.fault {
            Some(fault) => {
                let question = fault.fault.number();
                let asked = fault.fault;
                let at = fault.at;
                write!(
                    f,
                    "{{\"question\": {question}, \"at\": {at}, \"asked\": \"{asked}\"}}"
                )?;
            }
            None => f.write_str("null")?,
        }
        f.write_str(",\n \"totals\": ")?;
        write_totals(f, self.0)?;
        write!(
            f,
            "  \"unfinished\": {unfinished}, \"bytes_dropped\": {dropped},\n  \"sound_kinds\": "
        )?;
        write_kinds(f, totals.kinds)?;
        f.write_str(", \"damaged_kinds\": ")?;
        write_kinds(f, totals.damaged_kinds)?;
        let summary = Summary(self.0);
        writeln!(f, "}},\n \"summary\": \"{summary}\"}}")
    }
}
