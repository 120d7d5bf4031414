ghost use Rattle.std.specs.Prelude.{◌≡◌, [], ◌∷◌};
ghost use Rattle.checksum.specs.Crc16.{crc16};

use crate::numbers::low_byte;
use checksum::checksum::Checksum;
use checksum::crc16::Crc16;
use framing::frame::Frame;
use framing::judging::judge;

/// The value of CRC-16.
#[derive(Clone, Copy, PartialEq, Eq, Debug)]
#[repr(C)]
pub struct Value {
    pub high: u8,
    pub low: u8,
}

/// CRC-16 of these bytes.
#[unsafe(no_mangle)]
pub extern "C" fn rothveam_crc16(bytes: &[u8]) -> Value
    ensures { result.high ∷ result.low ∷ [] ≡ crc16 bytes.now }
{
    let [high, low, _, _] = Crc16.value_of(bytes);
    Value { high, low }
}

/// What is said of a frame: question 0 where it is lawful, else the question's number and the header's place.
#[derive(Clone, Copy, PartialEq, Eq, Debug)]
#[repr(C)]
pub struct Judged {
    pub question: u8,
    pub at: u8,
}

/// Judges a frame for a reader that has `gathered` bytes of an open packet, or has none open where that is 0.
#[unsafe(no_mangle)]
pub extern "C" fn rothveam_judge(bytes: &[u8], gathered: u16, width: u8) -> Judged {
    let frame = match Frame::try_from(bytes) {
        Ok(frame) => frame,
        Err(refusal) => {
            return Judged {
                question: refusal.number(),
                at: 0,
            };
        }
    };
    let open = (gathered != 0).then_some(gathered);
    match judge(&frame, open, width) {
        Ok(()) => Judged { question: 0, at: 0 },
        Err(torn) => Judged {
            question: torn.fault.number(),
            at: low_byte(torn.at),
        },
    }
}
