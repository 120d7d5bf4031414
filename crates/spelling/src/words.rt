ghost use Rattle.std.specs.Prelude.{◌≡◌, ◌≤◌, ◌==◌, length};
ghost use Rattle.std.specs.Iterator.{YieldsFirstRef, item_count};
ghost use Rattle.std.specs.List.{position_or_len, prefix_len};
ghost use Rattle.spelling.specs.Words.{words};

/// How many bytes stand before the first that is `stop`; all, where none is.
pub fn len_up_to(bytes: &[u8], stop: u8) -> usize
    ensures value { result ≡ position_or_len (λ b. b == stop) bytes.now }
    ensures within { result ≤ length bytes.now }
{
    bytes.iter().take_while(|byte| **byte != stop).count()
}

/// How many spaces stand in front.
// The test is the other way round than above: one function of the test would be longer than these two.
fn spaces_in_front(bytes: &[u8]) -> usize
    ensures value { result ≡ prefix_len (λ b. b == 32) bytes.now }
    ensures within { result ≤ length bytes.now }
{
    bytes.iter().take_while(|byte| **byte == b' ').count()
}

/// The words of a line, parted by spaces, given one at a time.
// `split` would give an empty word between two spaces, and a chain with a closure has no type that callers can name.
#[derive(Clone, Copy, PartialEq, Eq, Debug)]
pub struct Words<'a> {
    rest: &'a [u8],
}

impl<'a> Words<'a> {
    /// The words of this line, from the first on.
    pub fn of(line: &'a [u8]) -> Words<'a>
        ensures { result.rest.now ≡ line.now }
    {
        Words { rest: line }
    }
}

/// The next word, or nothing after the last.
impl<'a> Iterator for Words<'a> {
    type Item = &'a [u8];

    ghost next_gives = { YieldsFirstRef (λ s. words s.rest.now) };

    ghost remaining = { item_count (λ s. words s.rest.now) };

    fn next(&mut self) -> Option<&'a [u8]> {
        let line = self.rest;
        let rest = &line[spaces_in_front(line)..];
        let (word, rest) = rest.split_at(len_up_to(rest, b' '));
        self.rest = rest;
        if word.is_empty() { None } else { Some(word) }
    }
}
