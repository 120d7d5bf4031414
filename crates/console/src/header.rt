use arrayvec::ArrayVec;
use framing::judging::PACKET_MAX;
use service::reading::read_header;
use spelling::hex::byte_of_digits;
use std::fmt;

/// A sync header in words, from the hex digits of a packet, two a byte.
#[derive(Clone, Copy, PartialEq, Eq, Debug)]
pub struct HeaderReport<'a> {
    pub digits: &'a str,
}

/// Why digits are no packet.
#[derive(Clone, Copy)]
enum DigitFault {
    /// Not a hex digit, or an odd number of them.
    NotHex,
    /// More bytes than a packet has.
    TooLong,
}

/// The bytes of a packet that hex digits spell. (spelling's `decode` takes memory for them, and a report that is printed has none.)
fn decode(digits: &[u8]) -> Result<ArrayVec<u8, PACKET_MAX>, DigitFault> {
    let mut packet = ArrayVec::new();
    let (pairs, odd) = digits.as_chunks::<2>();
    if !odd.is_empty() {
        return Err(DigitFault::NotHex);
    }
    if pairs.len() > packet.capacity() {
        return Err(DigitFault::TooLong);
    }
    for [high, low] in pairs {
        let byte = byte_of_digits(*high, *low).ok_or(DigitFault::NotHex)?;
        packet.try_push(byte).map_err(|_| DigitFault::TooLong)?;
    }
    Ok(packet)
}

impl fmt::Display for HeaderReport<'_> {
    fn fmt<W: fmt::Write>(&self, f: &mut fmt::Formatter<W>) -> fmt::Result {
        let packet = match decode(self.digits.as_bytes()) {
            Ok(packet) => packet,
            Err(DigitFault::NotHex) => return writeln!(f, "these are not hex digits, two a byte"),
            Err(DigitFault::TooLong) => return writeln!(f, "a packet has no more than 2,044 bytes"),
        };
        match read_header(packet.as_slice()) {
            Ok(read) => {
                let header = read.header;
                let payload = read.payload.len();
                writeln!(f, "{header}")?;
                writeln!(f, "payload of {payload} bytes")
            }
            Err(fault) => {
                let number = fault.number();
                writeln!(f, "refused by question {number}: {fault}")
            }
        }
    }
}
