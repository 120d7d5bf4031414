ghost use Rattle.std.specs.Prelude.{◌≡◌, ℕ, ◌-◌, ◌≤◌, false, List, ◌++◌, length, take, drop, replicate, Decides};
ghost use Rattle.checksum.specs.Detection.{Detects};
ghost use Rattle.checksum.specs.Stretch.{Bytes, ChangedInOneStretch, bits};

/// A checksum: for every byte string a value of up to four bytes, which depends on the string alone.
///
/// The law `detects`: change a string and its value together in at least one bit, all inside one stretch of at most
/// `REACH` bits, and the new value no longer fits the new string. The bits run from bit 8, the highest, to bit 1 of each
/// byte, through the string and then through the value.
pub trait Checksum {
    /// How many bytes a value has: 0 to 4.
    const WIDTH: usize;

    /// How many bits a stretch may have within which every change is detected.
    const REACH: usize;

    // The two constants, as contracts name them.
    ghost WIDTH: { ℕ };

    ghost REACH: { ℕ };

    // The meaning: the width and the reach, and the value of every string. It takes no `Self`: a value depends on the string alone.
    ghost width: { ℕ };

    ghost reach: { ℕ };

    ghost value: { List ℕ → List ℕ };

    /// `WIDTH`, for code that is to know that it is the width of the values.
    fn value_len(&self) -> usize
        ensures { result ≡ width }
    {
        Self::WIDTH
    }

    /// `REACH`, for code that is to know that it is the reach of the law.
    fn burst_len(&self) -> usize
        ensures { result ≡ reach }
    {
        Self::REACH
    }

    /// The value of a message, in the first `WIDTH` bytes; the others are 0.
    // An array and not a vector of a fixed capacity, since who knows the checksum takes the bytes out by a pattern, as in
    // `let [high, low, _, _] = Crc16.value_of(message)`. An associated constant can be no length of an array.
    fn value_of(&self, message: &[u8]) -> [u8; 4]
        ensures front { take width result ≡ value message.now }
        ensures rest { drop width result ≡ replicate (4 - width) 0 };

    /// Whether what was received is the value of a message. One of another length than `WIDTH` is not.
    fn fits(&self, message: &[u8], received: &[u8]) -> bool
        ensures exactly { Decides result (value message.now ≡ received.now) }
        ensures detects { (s : List ℕ) → ChangedInOneStretch reach (bits (s ++ value s)) (bits (message.now ++ received.now)) → result ≡ false }
    {
        let width = self.value_len();
        if received.len() != width {
            return false;
        }
        &self.value_of(message)[..width] == received
    }

    // What every checksum owes, and code over any checksum may use.
    ghost width_told: { WIDTH ≡ width };

    ghost reach_told: { REACH ≡ reach };

    ghost narrow: { width ≤ 4 };

    ghost sized: { (s : List ℕ) → length (value s) ≡ width };

    ghost bytes: { (s : List ℕ) → Bytes (value s) };

    ghost detects: { Detects reach value };
}
