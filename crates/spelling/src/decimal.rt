ghost use Rattle.std.specs.Prelude.{◌≡◌, Some};
ghost use Rattle.spelling.specs.Decimal.{capped, decimal, count_of_digits, spell_on};

/// The number that decimal digits spell. One too large for the machine counts as the largest that is not.
pub fn number(word: &[u8]) -> Option<usize>
    ensures { result ≡ capped (decimal word.now) }
{
    if word.is_empty() { None } else { spelt(word) }
}

/// The number that these digits spell, 0 where there are none.
fn spelt(digits: &[u8]) -> Option<usize>
    ensures { result ≡ capped (spell_on (Some 0) digits.now) }
{
    let mut total = 0usize;
    for digit in digits {
        let count = digit_count(*digit)?;
        total = total.saturating_mul(10).saturating_add(count);
    }
    Some(total)
}

/// What a decimal digit counts.
fn digit_count(digit: u8) -> Option<usize>
    ensures { result ≡ count_of_digits digit }
{
    char::from(digit).to_digit(10).map(|count| count as usize)
}
