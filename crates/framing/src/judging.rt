ghost use Rattle.std.specs.Prelude.{◌≡◌, ◌≤◌};
ghost use Rattle.framing.specs.Header.{count_of, last_of};
ghost use Rattle.framing.specs.Judging.{all_zero, first_no, questions, padding_questions, notional_questions, body_questions, fault_numbers, judgment, verdict_of};
ghost use Rattle.framing.specs.Placing.{placed};

use crate::fault::{FrameFault, Torn};
use crate::frame::Frame;
use crate::header::{FragmentHeader, PADDING};

/// The longest service packet.
pub const PACKET_MAX: usize = 2044;

/// Whether every byte is 0. All are joined before the one test, which a machine does many at a time.
fn is_zero(bytes: &[u8]) -> bool
    ensures { result ≡ all_zero bytes.now }
{
    bytes.iter().fold(0, |any, b| any | *b) == 0
}

/// A header where it stands.
#[derive(Clone, Copy)]
struct Placed<'a> {
    /// Its place in the frame, counted from 1.
    // What follows tells it too, but then each question would ask that this be part of a frame.
    place: usize,
    byte: u8,
    /// All bytes of the frame behind it.
    following: &'a [u8],
}

impl Placed<'_> {
    /// The byte taken apart.
    fn header(&self) -> FragmentHeader
        ensures { (result.count ≡ count_of self.now.byte) × (result.last ≡ last_of self.now.byte) }
    {
        FragmentHeader::from_byte(self.byte)
    }

    /// The first question about this header that is answered no.
    // The two that a reader knows are handed in one by one: of the three kinds of header one asks about both, one about neither.
    fn fault(&self, gathered: Option<u16>, width: u8) -> Option<FrameFault>
        requires { self.now.place ≤ 122 }
        ensures { fault_numbers result ≡ first_no (questions width gathered (placed self.now)) }
    {
        match self.header().count {
            PADDING => self.padding_fault(gathered),
            0 => self.notional_fault(),
            122..=126 => Some(FrameFault::CountOutOfRange),
            _ => self.body_fault(gathered, width),
        }
    }

    /// The first question about a padding header that is answered no.
    fn padding_fault(&self, gathered: Option<u16>) -> Option<FrameFault>
        ensures { fault_numbers result ≡ first_no (padding_questions gathered (placed self.now)) }
    {
        if self.header().last {
            return Some(FrameFault::PaddingMarkedLast);
        }
        if self.place >= 122 {
            return Some(FrameFault::PaddingInLastByte);
        }
        if !is_zero(self.following) {
            return Some(FrameFault::PaddingNotZero);
        }
        match gathered {
            Some(_) if self.place == 1 => Some(FrameFault::PaddingInsidePacket),
            _ => None,
        }
    }

    /// The first question about an empty body that is answered no.
    fn notional_fault(&self) -> Option<FrameFault>
        ensures { fault_numbers result ≡ first_no (notional_questions (placed self.now)) }
    {
        if self.header().last && self.place == 122 {
            None
        } else {
            Some(FrameFault::MisplacedNotional)
        }
    }

    /// The first question about the header of a body that is answered no.
    fn body_fault(&self, gathered: Option<u16>, width: u8) -> Option<FrameFault>
        requires { self.now.place ≤ 122 }
        ensures { fault_numbers result ≡ first_no (body_questions width gathered (placed self.now)) }
    {
        let header = self.header();
        let at = self.place;
        let count = usize::from(header.count);
        if at + count > 122 {
            return Some(FrameFault::BodyPastEnd);
        }
        if !header.last && at + count != 122 {
            return Some(FrameFault::BodyEndsEarly);
        }
        match gathered {
            Some(n) if at == 1 && usize::from(n) + count > PACKET_MAX + usize::from(width) => {
                Some(FrameFault::PacketTooLong)
            }
            _ => None,
        }
    }
}

/// Judges a frame for a reader that has `gathered` so many bytes of a packet whose end it has not seen, or has none open,
/// under a checksum of this width.
pub fn judge(frame: &Frame, gathered: Option<u16>, width: u8) -> Result<(), Torn>
    ensures { verdict_of result ≡ (judgment width gathered frame.now.bytes).verdict }
{
    let mut rest = &frame.bytes[..];
    while let Some((byte, following)) = rest.split_first() {
        let place = 123 - rest.len();
        let header = Placed {
            place,
            byte: *byte,
            following,
        };
        if let Some(fault) = header.fault(gathered, width) {
            return Err(Torn { fault, at: place });
        }
        let FragmentHeader { count, .. } = header.header();
        // Padding is the rest of the frame.
        if count == PADDING {
            return Ok(());
        }
        rest = &following[usize::from(count)..];
    }
    Ok(())
}
