//! What the commands that need no flow print, as text.
ghost use Rattle.std.specs.Prelude.{◌≡◌, ◌++◌, length, IfOk, codes, string_bytes};
ghost use Rattle.std.specs.List.{flat_map};
ghost use Rattle.checksum.specs.Choosing.{value_by};
ghost use Rattle.framing.specs.Giving.{coming};
ghost use Rattle.reel.specs.Reel.{reading as reelReading};
ghost use Rattle.service.specs.Encoding.{encoding};
ghost use Rattle.service.specs.Reading.{reading as headerReading};
ghost use Rattle.service.specs.Writing.{writing};
ghost use Rattle.wording.specs.Answers.{checksum_line, fade_line, fragment_line, fragments_lines, Prepared, header_line, reel_line, refused_line, written_line};

use crate::answers::{ChecksumLine, FragmentLine, HeaderLine, ReelLine, WroteLine};
use channel::pattern::FadePattern;
use checksum::checksum::Checksum;
use checksum::choice::ChecksumChoice;
use checksum::crc16::Crc16;
use checksum::none::NoChecksum;
use framing::fragments::{Fragments, FragmentsFault};
use framing::frame::NotAFrame;
use reel::checking::check;
use service::header::SyncHeader;
use service::reading::read_header;
use service::writing::write_header;
use std::alloc::{AllocError, Global};
use std::fmt::Write;

/// `checksum`: the value of these bytes. (How many bytes a value has belongs to a checksum's type, which is chosen here.)
pub fn checksum_text(
    heap: Global,
    checksum: ChecksumChoice,
    message: &[u8],
) -> Result<String, AllocError>
    ensures { IfOk result (λ t. string_bytes t ≡ checksum_line (value_by checksum message.now)) }
{
    match checksum {
        ChecksumChoice::Without => value_text(heap, &NoChecksum, message),
        ChecksumChoice::Crc16 => value_text(heap, &Crc16, message),
    }
}

/// The value that a checksum gives these bytes.
fn value_text<K: Checksum>(heap: Global, checksum: &K, message: &[u8]) -> Result<String, AllocError>
    ensures { IfOk result (λ t. string_bytes t ≡ checksum_line (K.value message.now)) }
{
    let value = checksum.value_of(message);
    ChecksumLine(&value[0..checksum.value_len()]).to_string(heap)
}

/// `header`: what the sync header of a packet tells.
pub fn header_text(heap: Global, packet: &[u8]) -> Result<String, AllocError>
    ensures { IfOk result (λ t. string_bytes t ≡ header_line (headerReading packet.now)) }
{
    HeaderLine(read_header(packet)).to_string(heap)
}

/// `write-header`: a sync header and a payload, written into a buffer of so many bytes. No more of a longer buffer is made
/// than header and payload can fill.
pub fn write_header_text(
    heap: Global,
    header: &SyncHeader,
    payload: &[u8],
    buffer_len: usize,
) -> Result<String, AllocError>
    ensures { IfOk result (λ t. string_bytes t ≡ written_line (writing header.now payload.now buffer_len) (encoding header.now payload.now)) }
{
    let len = buffer_len.min(payload.len() + 6);
    let mut buffer = vec![in heap; 0u8; len]?;
    match write_header(header, payload, buffer.as_mut_slice()) {
        Ok(end) => {
            buffer.truncate(end);
            WroteLine(buffer.as_slice()).to_string(heap)
        }
        Err(fault) => refused_text(heap, fault.number()),
    }
}

/// A refusal, by its number.
pub(crate) fn refused_text(heap: Global, number: u8) -> Result<String, AllocError>
    ensures { IfOk result (λ t. string_bytes t ≡ refused_line number) }
{
    format!(in heap; "refused {number}\n")
}

/// `reel`: is it lawful?
pub fn reel_text(heap: Global, reel: &[u8]) -> Result<String, AllocError>
    ensures { IfOk result (λ t. string_bytes t ≡ reel_line (reelReading reel.now).stop) }
{
    ReelLine(check(reel)).to_string(heap)
}

/// `fragments`: every fragment of a frame, and then nothing.
pub fn fragments_text(heap: Global, frame: &[u8]) -> Result<String, AllocError>
    ensures { IfOk result (λ t. string_bytes t ≡ fragments_lines frame.now) }
{
    match Fragments::of(frame) {
        Ok(fragments) => all_fragments_text(heap, fragments),
        Err(FragmentsFault::NotAFrame) => refused_text(heap, NotAFrame.number()),
        Err(FragmentsFault::Torn(torn)) => {
            let number = torn.fault.number();
            let at = torn.at;
            format!(in heap; "torn {number} {at}\n")
        }
    }
}

/// A line for each fragment, and then nothing.
fn all_fragments_text(heap: Global, fragments: Fragments) -> Result<String, AllocError>
    ensures { IfOk result (λ t. string_bytes t ≡ flat_map fragment_line (coming fragments.entry) ++ codes "nothing\n") }
{
    let mut text = String::new(heap);
    for fragment in fragments {
        let line = FragmentLine(fragment);
        write!(text, "{line}")?;
    }
    text.push_str("nothing\n")?;
    Ok(text)
}

/// `fade`: the pattern for the flows that follow.
pub fn fade_text(heap: Global, fade: &mut FadePattern, pattern: &[u8]) -> Result<String, AllocError>
    ensures text { IfOk result (λ t. string_bytes t ≡ fade_line (length pattern.now)) }
    ensures holder { Prepared pattern.now fade.old fade.new }
{
    let len = pattern.len();
    match fade.prepare(pattern) {
        Ok(()) => format!(in heap; "fade {len}\n"),
        Err(fault) => refused_text(heap, fault.number()),
    }
}
