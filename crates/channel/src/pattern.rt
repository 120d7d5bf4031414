ghost use Rattle.std.specs.Prelude.{◌≡◌, ◌*◌, ◌<◌, ◌≤◌, [], ◌∷◌, length, OnErr, OnOk};
ghost use Rattle.channel.specs.Patterns.{shown, pattern_number, pattern_refusal, length_question, is_set, passes};

/// Why a pattern was refused, by the number of its question.
#[derive(Clone, Copy, PartialEq, Eq, Debug)]
pub enum PatternFault {
    /// It has no byte, or more than 64.
    Length = 20,
}

impl PatternFault {
    /// The number of the question that was answered no.
    pub fn number(self) -> u8
        ensures { result ≡ pattern_number self }
    {
        self as u8
    }
}

/// Which frames a fade loses, as 1 to 64 bytes whose bits are taken in turn: a clear bit loses one.
// An array and not a vector of a fixed capacity, since a pattern is copied. Its length is no invariant, since there is no proof of
// a fade over a fade over a ring where the pattern has one; so each place in it has a meaning. What stands behind it has none, so
// two patterns are not compared by their fields.
#[derive(Clone, Copy, Debug)]
pub struct FadePattern {
    bytes: [u8; 64],
    /// The place of the last byte; one past the array counts as its last.
    last: usize,
}

impl FadePattern {
    /// The pattern that loses nothing: the one byte 0xFF.
    pub fn new() -> FadePattern
        ensures { shown result ≡ 255 ∷ [] }
    {
        FadePattern {
            bytes: [0xFF; 64],
            last: 0,
        }
    }

    /// Takes these bytes for the pattern.
    // A step of its own after `new`, since a refusal leaves the pattern that was there.
    pub fn prepare(&mut self, bytes: &[u8]) -> Result<(), PatternFault>
        ensures asked { pattern_refusal result ≡ length_question (length bytes.now) }
        ensures same { OnErr result (self.new ≡ self.old) }
        ensures holds { OnOk result (shown self.new ≡ bytes.now) }
    {
        let size = bytes.len();
        if size == 0 || size > 64 {
            return Err(PatternFault::Length);
        }
        self.bytes[0..size].copy_from_slice(bytes);
        self.last = size - 1;
        Ok(())
    }

    /// How many bits there are before the first comes again.
    pub fn bits(&self) -> usize
        ensures count { result ≡ 8 * length (shown self.now) }
        ensures some { (0 < result) × (result ≤ 512) }
    {
        8 * (self.last.min(63) + 1)
    }

    /// Whether the frame or gap of this number passes.
    pub fn passes(&self, number: usize) -> bool
        ensures { result ≡ passes (shown self.now) number }
    {
        let bit = number % self.bits();
        bit_is_set(self.bytes[bit / 8], bit % 8)
    }
}

/// Whether a bit of a byte is set, counted from 0 for the lowest.
// The service asks this by numbers from 1 and a reel of a row of bytes: one function for all would be this line and a way round it.
fn bit_is_set(byte: u8, bit: usize) -> bool
    requires { bit < 8 }
    ensures { result ≡ is_set byte bit }
{
    (byte >> bit) & 1 == 1
}
