ghost use Rattle.std.specs.Prelude.{◌≡◌, [], ◌∷◌, ◌++◌, codes};
ghost use Rattle.checksum.specs.Crc16.{crc16, feed, register};
ghost use Rattle.checksum.specs.Detection.{Detects};
ghost use Rattle.checksum.specs.Stretch.{ChangedInOneStretch, bits, byte_bits};
ghost use Rattle.checksum.specs.Detect.{crc16_bytes, crc16_detects};
ghost use Rattle.std.proofs.Common.{refl, rules};

use crate::checksum::Checksum;
use crate::table;

/// CRC-16 with the generator x^16 + x^12 + x^5 + 1. The register starts at 0xFFFF, each byte enters highest bit first,
/// nothing is inverted, and the value is the register's high byte and then its low one.
#[derive(Clone, Copy, PartialEq, Eq, Debug)]
pub struct Crc16;

impl Checksum for Crc16 {
    const WIDTH: usize = 2;

    const REACH: usize = 16;

    ghost WIDTH = { 2 };

    ghost REACH = { 16 };

    ghost width = { 2 };

    ghost reach = { 16 };

    ghost value = { crc16 };

    ghost width_told = { refl };

    ghost reach_told = { refl };

    ghost narrow = { Prim.search rules };

    ghost sized = { Prim.search rules };

    ghost bytes = { crc16_bytes };

    ghost detects = { crc16_detects };

    fn value_of(&self, message: &[u8]) -> [u8; 4] {
        let [high, low] = register_of(message).to_be_bytes();
        [high, low, 0, 0]
    }
}

impl Crc16 {
    /// The value of the ASCII digits 1 to 9, by which catalogues of such checksums tell this one from its kin.
    pub fn check_value() -> [u8; 2]
        ensures digits { result ≡ crc16 (codes "123456789") }
        ensures value { result ≡ 0x29 ∷ 0xB1 ∷ [] }
    {
        register_of(&digits()).to_be_bytes()
    }

    /// Two messages with one value, which differ only within a stretch of 17 bits: the reach is 16 and no more.
    pub fn undetected_pair() -> ([u8; 3], [u8; 3])
        ensures pair { result ≡ (0 ∷ 0 ∷ 0 ∷ [], 0x01 ∷ 0x10 ∷ 0x21 ∷ []) }
        ensures one_value { crc16 result.1 ≡ crc16 result.0 }
        ensures stretch { ChangedInOneStretch 17 (bits (result.0 ++ crc16 result.0)) (bits (result.1 ++ crc16 result.0)) }
        ensures sharp { Detects 17 crc16 → ⊥ }
    {
        ([0; 3], generator_bits())
    }
}

/// The message whose value catalogues print.
// This and the next are functions and no constants, since a function's contract says what the value is.
fn digits() -> [u8; 9]
    ensures { result ≡ codes "123456789" }
{
    *b"123456789"
}

/// The 17 bits of the generator, at the end of three bytes.
fn generator_bits() -> [u8; 3]
    ensures { result ≡ 0x01 ∷ 0x10 ∷ 0x21 ∷ [] }
{
    [0x01, 0x10, 0x21]
}

/// The register after a whole message: eight bytes at a time, and then the rest one by one.
fn register_of(message: &[u8]) -> u16
    ensures { result ≡ register message.now }
{
    let mut state = 0xffff;
    let mut rest = message;
    while let Some((block, later)) = rest.split_first_chunk() {
        state = after_block(state, block);
        rest = later;
    }
    for byte in rest {
        state = after_byte(state, *byte);
    }
    state
}

/// The register after eight more bytes. What each of them adds is looked up for as many zero bytes as follow it, and the
/// register's own two bytes are added to the first two, since that is where they fall out.
// Written out and no loop: two of the eight terms differ, and none waits for another.
fn after_block(state: u16, block: &[u8; 8]) -> u16
    ensures { result ≡ feed state (bits block.now) }
{
    let [high, low] = state.to_be_bytes();
    table::entry(0, block[7])
        ^ table::entry(1, block[6])
        ^ table::entry(2, block[5])
        ^ table::entry(3, block[4])
        ^ table::entry(4, block[3])
        ^ table::entry(5, block[2])
        ^ table::entry(6, low ^ block[1])
        ^ table::entry(7, high ^ block[0])
}

/// The register after one more byte.
fn after_byte(state: u16, byte: u8) -> u16
    ensures { result ≡ feed state (byte_bits byte) }
{
    let [high, _] = state.to_be_bytes();
    (state << 8) ^ table::entry(0, high ^ byte)
}
