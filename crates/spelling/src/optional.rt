ghost use Rattle.spelling.specs.Optional.{optional_output};

use std::fmt;

/// A value that may be absent, in words: a text and then the value, or what is written where there is none.
#[derive(Clone, Copy, PartialEq, Eq, Debug)]
pub struct Optional<T> {
    /// What is written in front of the value.
    pub before: &'static str,
    pub value: Option<T>,
    /// What is written where there is no value.
    pub absent: &'static str,
}

impl<T: fmt::Display> fmt::Display for Optional<T> {
    ghost output = { λ x. optional_output T.output x.before.now x.value x.absent.now };

    fn fmt<W: fmt::Write>(&self, f: &mut fmt::Formatter<W>) -> fmt::Result {
        let before = self.before;
        match &self.value {
            Some(value) => write!(f, "{before}{value}"),
            None => f.write_str(self.absent),
        }
    }
}
