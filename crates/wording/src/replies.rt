//! The lines that answer the steps of a flow.
ghost use Rattle.std.specs.Prelude.{◌≡◌, IfOk, Some, string_bytes};
ghost use Rattle.std.specs.List.{flat_map};
ghost use Rattle.wording.specs.Replies.{answered_line, line_of, offer_fault_line, waits_line, reply_lines};

use crate::answering::refused_text;
use flow::faults::OfferFault;
use receiver::answer::{BufferTooShort, Reading};
use script::reply::{Answered, Reply};
use spelling::answer::yes_no;
use spelling::hex::Hex;
use std::alloc::{AllocError, Global};
use std::fmt;
use std::fmt::Write;

/// One answer of a reading, and the packet that was handed out.
#[derive(Clone, Copy, PartialEq, Eq, Debug)]
pub struct ReadingLine<'a> {
    pub answer: Result<Reading, BufferTooShort>,
    pub packet: &'a [u8],
}

impl<'a> ReadingLine<'a> {
    /// The line of what one reading answered.
    fn of(answered: &'a Answered) -> ReadingLine<'a>
        ensures answer { result.answer ≡ answered.now.answer }
        ensures packet { result.packet.now ≡ answered.now.packet.items }
    {
        ReadingLine {
            answer: answered.answer,
            packet: answered.packet.as_slice(),
        }
    }
}

impl fmt::Display for ReadingLine<'_> {
    ghost output = { λ x. Some (answered_line x.answer x.packet.now) };

    fn fmt<W: fmt::Write>(&self, f: &mut fmt::Formatter<W>) -> fmt::Result {
        let packet = Hex(self.packet);
        match self.answer {
            Ok(Reading::Sound { len }) => writeln!(f, "sound {len} {packet}"),
            Ok(Reading::Damaged { len }) => writeln!(f, "damaged {len} {packet}"),
            Ok(Reading::Foreign { number, len }) => writeln!(f, "foreign {number} {len} {packet}"),
            Ok(Reading::Short) => writeln!(f, "short"),
            Ok(Reading::Lost { frame, dropped }) => writeln!(f, "lost {frame} {dropped}"),
            Ok(
                Reading::Torn {
                    frame,
                    dropped,
                    torn,
                },
            ) => {
                let number = torn.fault.number();
                let at = torn.at;
                writeln!(f, "torn {frame} {dropped} {number} {at}")
            }
            Ok(Reading::Mark { dropped }) => writeln!(f, "mark {dropped}"),
            Ok(Reading::Nothing) => writeln!(f, "nothing"),
            Err(fault) => {
                let number = fault.number();
                writeln!(f, "refused {number}")
            }
        }
    }
}

/// Why an offer was refused: the number, and the service's own behind it where the service refused.
#[derive(Clone, Copy)]
struct OfferFaultLine(OfferFault);

impl fmt::Display for OfferFaultLine {
    ghost output = { λ x. Some (offer_fault_line x.0) };

    fn fmt<W: fmt::Write>(&self, f: &mut fmt::Formatter<W>) -> fmt::Result {
        let number = self.0.number();
        match self.0 {
            OfferFault::NotServed(inner) => {
                let inside = inner.number;
                writeln!(f, "refused {number} {inside}")
            }
            _ => writeln!(f, "refused {number}"),
        }
    }
}

/// What a step prints: the lines of its answer. (That a token is wanting is told elsewhere, with the number of the line.)
pub fn reply_text(heap: Global, reply: &Reply) -> Result<String, AllocError>
    ensures { IfOk result (λ t. string_bytes t ≡ reply_lines reply.now) }
{
    match reply {
        Reply::Opening(Ok(())) => "opened\n".to_string(heap),
        Reply::Opening(Err(fault)) => refused_text(heap, fault.number()),
        Reply::Offer(Ok(())) => "accepted\n".to_string(heap),
        Reply::Offer(Err(fault)) => OfferFaultLine(*fault).to_string(heap),
        Reply::Closed => "closed\n".to_string(heap),
        Reply::NoToken => Ok(String::new(heap)),
        Reply::Read(answered) => answered_text(heap, answered),
        Reply::Drained(all) => drained_text(heap, all.as_slice()),
        Reply::Room(room) => format!(in heap; "room {room}\n"),
        Reply::Waits(waits) => waits_text(heap, *waits),
    }
}

/// Whether a slot waits.
fn waits_text(heap: Global, waits: bool) -> Result<String, AllocError>
    ensures { IfOk result (λ t. string_bytes t ≡ waits_line waits) }
{
    let word = yes_no(waits);
    format!(in heap; "waits {word}\n")
}

/// What one reading prints.
pub fn answered_text(heap: Global, answered: &Answered) -> Result<String, AllocError>
    ensures { IfOk result (λ t. string_bytes t ≡ answered_line answered.now.answer answered.now.packet.items) }
{
    ReadingLine::of(answered).to_string(heap)
}

/// What readings print, one after another.
fn drained_text(heap: Global, all: &[Answered]) -> Result<String, AllocError>
    ensures { IfOk result (λ t. string_bytes t ≡ flat_map line_of all.now) }
{
    let mut text = String::new(heap);
    for answered in all {
        let line = ReadingLine::of(answered);
        write!(text, "{line}")?;
    }
    Ok(text)
}
