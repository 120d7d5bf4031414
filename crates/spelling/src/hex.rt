ghost use Rattle.std.specs.Prelude.{◌≡◌, ◌<◌, [], ◌∷◌, IfSome, IfOk, IfErr, Some};
ghost use Rattle.spelling.specs.Hex.{byte_of, digit_of, value_of_digit, in_word, is_a_dash, spelt, unhexed, Misspelt};

use crate::fault::LineFault;
use std::alloc::Global;
use std::fmt;

/// The bytes that a word spells: hex digits of either case, two a byte, or `-` for none.
pub fn decode(heap: Global, word: &[u8]) -> Result<Vec<u8>, LineFault>
    ensures bytes { IfOk result (λ v. spelt word.now ≡ Some v.items) }
    ensures fault { IfErr result (λ e. Misspelt (spelt word.now) e) }
{
    if is_dash(word) {
        return Ok(Vec::new(heap));
    }
    decode_digits(heap, word)
}

/// Is this the word that stands for no bytes?
pub fn is_dash(word: &[u8]) -> bool
    ensures { result ≡ is_a_dash word.now }
{
    matches!(word, [b'-'])
}

/// The bytes that hex digits spell, two a byte.
// The library's crate `hex` decodes alike. But a crate that uses it may have no module of its name, by which callers know this
// one, and the digits would have to be read here all the same, for callers that ask for one byte.
fn decode_digits(heap: Global, digits: &[u8]) -> Result<Vec<u8>, LineFault>
    ensures bytes { IfOk result (λ v. unhexed digits.now ≡ Some v.items) }
    ensures fault { IfErr result (λ e. Misspelt (unhexed digits.now) e) }
{
    let (pairs, odd) = digits.as_chunks::<2>();
    if !odd.is_empty() {
        return Err(LineFault::NotBytes);
    }
    let mut bytes = Vec::new(heap);
    for [high, low] in pairs {
        let byte = byte_of_digits(*high, *low).ok_or(LineFault::NotBytes)?;
        bytes.push(byte)?;
    }
    Ok(bytes)
}

/// The byte that two hex digits of either case spell.
pub fn byte_of_digits(high: u8, low: u8) -> Option<u8>
    ensures { result ≡ byte_of (value_of_digit high) (value_of_digit low) }
{
    Some(16 * digit_value(high)? + digit_value(low)?)
}

/// The value of a hex digit, of either case.
fn digit_value(digit: u8) -> Option<u8>
    ensures value { result ≡ value_of_digit digit }
    ensures small { IfSome result (λ v. v < 16) }
{
    char::from(digit).to_digit(16).map(|value| value as u8)
}

/// Bytes in hex digits of lower case, or `-` where there are none.
#[derive(Clone, Copy, PartialEq, Eq, Debug)]
pub struct Hex<'a>(pub &'a [u8]);

impl fmt::Display for Hex<'_> {
    ghost output = { λ x. Some (in_word x.0.now) };

    fn fmt<W: fmt::Write>(&self, f: &mut fmt::Formatter<W>) -> fmt::Result {
        let bytes = self.0;
        if bytes.is_empty() {
            return f.write_str("-");
        }
        for &byte in bytes {
            f.write_str(digit(byte / 16))?;
            f.write_str(digit(byte))?;
        }
        Ok(())
    }
}

/// The hex digit of a number, of which what is left after division by 16 counts.
// `{byte:02x}` writes the same, and lays each number out anew: bytes below 16 took it twice as long and more.
fn digit(number: u8) -> &'static str
    ensures { result.now ≡ digit_of number ∷ [] }
{
    match number % 16 {
        0 => "0",
        1 => "1",
        2 => "2",
        3 => "3",
        4 => "4",
        5 => "5",
        6 => "6",
        7 => "7",
        8 => "8",
        9 => "9",
        10 => "a",
        11 => "b",
        12 => "c",
        13 => "d",
        14 => "e",
        _ => "f",
    }
}
