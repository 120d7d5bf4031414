//! The names of extracted files, and the lines of their manifest.
ghost use Rattle.std.specs.Prelude.{Some};
ghost use Rattle.report.specs.Names.{order_name, mark_name, file_name};

use crate::entry::{Entry, Packet, Verdict};
use crate::visit::Outcome;
use crate::words::or_word;
use checksum::checksum::Checksum;
use checksum::crc16::Crc16;
use service::header::SyncHeader;
use spelling::answer::yes_no;
use spelling::optional::Optional;
use std::fmt;

/// The order of a packet, in six digits or more, so that names sort as the packets came.
#[derive(Clone, Copy, PartialEq, Eq, Debug)]
pub struct Order(pub u64);

impl fmt::Display for Order {
    ghost output = { λ o. Some (order_name o.0) };

    fn fmt<W: fmt::Write>(&self, f: &mut fmt::Formatter<W>) -> fmt::Result {
        let number = self.0;
        write!(f, "{number:06}")
    }
}

/// What the name of a packet's file says behind the verdict: the kind, or the number of the question that refuses it.
#[derive(Clone, Copy)]
struct Mark(Packet);

impl fmt::Display for Mark {
    ghost output = { λ m. Some (mark_name m.0) };

    fn fmt<W: fmt::Write>(&self, f: &mut fmt::Formatter<W>) -> fmt::Result {
        let packet = self.0;
        match packet.verdict {
            Verdict::Foreign { number } => write!(f, "-{number}"),
            _ => {
                let kind = Optional {
                    before: "-",
                    value: packet.header.map(|header| header.kind.word()),
                    absent: "",
                };
                write!(f, "{kind}")
            }
        }
    }
}

/// The name of a packet's file: its order, its verdict, and its kind or the number of the question that refuses it.
#[derive(Clone, Copy, PartialEq, Eq, Debug)]
pub struct FileName {
    pub order: u64,
    pub packet: Packet,
}

impl fmt::Display for FileName {
    ghost output = { λ n. Some (file_name n.order n.packet) };

    fn fmt<W: fmt::Write>(&self, f: &mut fmt::Formatter<W>) -> fmt::Result {
        let order = Order(self.order);
        let verdict = self.packet.verdict.word();
        let mark = Mark(self.packet);
        write!(f, "{order}-{verdict}{mark}.bin")
    }
}

/// The first line of a manifest.
pub const MANIFEST_HEAD: &str =
    "order\tsuperframe\tentry\tlength\tcrc16\tkind\tframe_id\ttimestamp\taccess_point\tunreferenced\tframe\tdropped\tquestion\tat\tfile\n";

/// One line of a manifest, its parts parted by tabs; what an entry does not have is `-`.
#[derive(Clone, Copy, PartialEq, Eq, Debug)]
pub struct ManifestLine<'a> {
    /// The packet's order. It stands beside the entry, which is shown before it has one; lines on other entries leave it out.
    pub order: u64,
    pub superframe: u64,
    pub entry: Entry,
    /// The bytes of a packet.
    pub bytes: &'a [u8],
}

/// Writes the five facts of a sync header.
fn write_facts<W: fmt::Write>(
    f: &mut fmt::Formatter<W>,
    header: Option<SyncHeader>,
) -> fmt::Result {
    let Some(header) = header else {
        return f.write_str("-\t-\t-\t-\t-");
    };
    let kind = header.kind.word();
    let frame = or_word(header.frame_id, "-");
    let time = or_word(header.timestamp, "-");
    let access = yes_no(header.access_point);
    let unreferenced = yes_no(header.unreferenced);
    write!(f, "{kind}\t{frame}\t{time}\t{access}\t{unreferenced}")
}

/// Writes the line of a packet, from its verdict on.
fn write_packet<W: fmt::Write>(
    f: &mut fmt::Formatter<W>,
    order: u64,
    packet: Packet,
    bytes: &[u8],
) -> fmt::Result {
    let verdict = packet.verdict.word();
    let len = packet.len;
    // A value has room for the widest checksum; that of CRC-16 is its first two bytes.
    let [high, low, _, _] = Crc16.value_of(bytes);
    write!(f, "{verdict}\t{len}\t{high:02x}{low:02x}\t")?;
    write_facts(f, packet.header)?;
    let question = match packet.verdict {
        Verdict::Foreign { number } => Some(number),
        Verdict::Sound | Verdict::Damaged => None,
    };
    let question = or_word(question, "-");
    let name = FileName { order, packet };
    writeln!(f, "\t-\t-\t{question}\t-\t{name}")
}

impl fmt::Display for ManifestLine<'_> {
    fn fmt<W: fmt::Write>(&self, f: &mut fmt::Formatter<W>) -> fmt::Result {
        let superframe = self.superframe;
        if let Entry::Packet(_) = self.entry {
            let order = self.order;
            write!(f, "{order}\t{superframe}\t")?;
        } else {
            write!(f, "-\t{superframe}\t")?;
        }
        match self.entry {
            Entry::Packet(packet) => write_packet(f, self.order, packet, self.bytes),
            Entry::Short => writeln!(f, "short\t-\t-\t-\t-\t-\t-\t-\t-\t-\t-\t-\t-"),
            Entry::Lost { frame, dropped } => {
                writeln!(f, "lost\t-\t-\t-\t-\t-\t-\t-\t{frame}\t{dropped}\t-\t-\t-")
            }
            Entry::Torn {
                frame,
                dropped,
                torn,
            } => {
                let question = torn.fault.number();
                let at = torn.at;
                writeln!(
                    f,
                    "torn\t-\t-\t-\t-\t-\t-\t-\t{frame}\t{dropped}\t{question}\t{at}\t-"
                )
            }
            Entry::Unfinished { dropped } => {
                writeln!(f, "unfinished\t-\t-\t-\t-\t-\t-\t-\t-\t{dropped}\t-\t-\t-")
            }
        }
    }
}

/// The last lines of a manifest: a packet inside which the reel ended, and why the reel could be read no further.
#[derive(Clone, Copy, PartialEq, Eq, Debug)]
pub struct ManifestEnd(pub Outcome);

impl fmt::Display for ManifestEnd {
    fn fmt<W: fmt::Write>(&self, f: &mut fmt::Formatter<W>) -> fmt::Result {
        let open = self.0.open_at_end;
        if open > 0 {
            writeln!(
                f,
                "-\t-\tunfinished\t-\t-\t-\t-\t-\t-\t-\t-\t{open}\t-\t-\t-"
            )?;
        }
        if let Some(fault) = self.0.surveyed.fault {
            let question = fault.fault.number();
            let at = fault.at;
            writeln!(
                f,
                "-\t-\tfault\t-\t-\t-\t-\t-\t-\t-\t-\t-\t{question}\t{at}\t-"
            )?;
        }
        Ok(())
    }
}
