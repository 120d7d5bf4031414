ghost use Rattle.std.specs.Prelude.{◌≡◌, ◌+◌, ◌%◌, ◌<◌};
ghost use Rattle.framing.specs.Header.{count_of, last_of, byte_of};

/// The count that says that the rest of the frame is padding.
pub const PADDING: u8 = 127;

/// The header of a fragment, taken apart: the number of body bytes, and the last mark, which is set on the final fragment
/// of a packet.
// Calls by name and no `From`: the two directions are told apart where they are called, and a count above 127 loses a bit in a byte.
#[derive(Clone, Copy, PartialEq, Eq, Debug)]
pub struct FragmentHeader {
    pub count: u8,
    pub last: bool,
}

impl FragmentHeader {
    /// Takes a header byte apart: bits 1 to 7 are the count, bit 8 is the last mark.
    pub fn from_byte(byte: u8) -> FragmentHeader
        ensures { (result.count ≡ count_of byte) × (result.last ≡ last_of byte) }
    {
        FragmentHeader {
            count: low_bits(byte),
            last: byte >> 7 == 1,
        }
    }

    /// Makes the header byte; of a count only bits 1 to 7 find a place in it.
    pub fn to_byte(self) -> u8
        ensures { result ≡ byte_of (self.count % 128) self.last }
    {
        let count = low_bits(self.count);
        if self.last { with_mark(count) } else { count }
    }
}

/// Bits 1 to 7 of a byte.
fn low_bits(byte: u8) -> u8
    ensures { result ≡ byte % 128 }
{
    byte & 0x7f
}

/// A count with the last mark set above it.
fn with_mark(count: u8) -> u8
    requires { count < 128 }
    ensures { result ≡ 128 + count }
{
    1 << 7 | count
}
