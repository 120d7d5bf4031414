ghost use Rattle.std.specs.Prelude.{◌≡◌, length};
ghost use Rattle.std.specs.Iterator.{at_most};
ghost use Rattle.spelling.specs.Lines.{chopped, LineTaken};

use crate::words::len_up_to;

/// The lines of a script, given one at a time.
// `split` would give an empty line behind the last line feed, and a chain with a closure has no type that callers can name.
#[derive(Clone, Copy, PartialEq, Eq, Debug)]
pub struct Lines<'a> {
    rest: &'a [u8],
}

impl<'a> Lines<'a> {
    /// The lines of this script, from the first on.
    pub fn of(script: &'a [u8]) -> Lines<'a>
        ensures { result.rest.now ≡ script.now }
    {
        Lines { rest: script }
    }
}

/// The next line, up to the next line feed or the end, or nothing after the last. What is left begins behind that.
impl<'a> Iterator for Lines<'a> {
    type Item = &'a [u8];

    ghost next_gives = { λ s line t. LineTaken s.rest.now line t.rest.now };

    ghost remaining = { λ s. at_most (length s.rest.now) };

    fn next(&mut self) -> Option<&'a [u8]> {
        if self.rest.is_empty() {
            return None;
        }
        let (line, rest) = self.rest.split_at(len_up_to(self.rest, b'\n'));
        self.rest = rest.strip_prefix(b"\n").unwrap_or(rest);
        Some(line)
    }
}

/// A line without the carriage return that may stand at its end.
pub fn without_return(line: &[u8]) -> &[u8]
    ensures { result.now ≡ chopped line.now }
{
    line.strip_suffix(b"\r").unwrap_or(line)
}
