ghost use Rattle.std.specs.Prelude.{◌≡◌, Some};
ghost use Rattle.spelling.specs.Faults.{fault_words};
ghost use Rattle.spelling.specs.declared.fault.LineFault.TheVariants.{NoMemory};

use std::alloc::{AllocError, AllocFailed};
use std::fmt;

/// Why a line of a script is answered with an error. The script goes on.
#[derive(Clone, Copy, PartialEq, Eq, Debug)]
pub enum LineFault {
    /// The first word is no command.
    UnknownCommand,
    /// The command wants more words.
    MissingWord,
    /// A word stands behind the command's last.
    ExtraWord,
    /// A word is none of those that may stand in its place.
    UnknownWord,
    /// A word is not hex digits, two a byte.
    NotBytes,
    /// A word is not decimal digits.
    NotANumber,
    /// A number is larger than its field.
    NumberTooLarge,
    /// The command needs a flow, and none is set up.
    NoFlow,
    /// The command needs an open superframe.
    NoToken,
    /// The ring is larger than any that is set up.
    RingTooLarge,
    /// There is no memory for what the command asks.
    NoMemory,
}

impl From<AllocError> for LineFault {
    ghost from_gives = { λ _ r. r ≡ NoMemory };

    fn from(_fault: AllocError) -> LineFault {
        LineFault::NoMemory
    }
}

impl<T: Drop> From<AllocFailed<T>> for LineFault {
    ghost from_gives = { λ _ r. r ≡ NoMemory };

    fn from(_fault: AllocFailed<T>) -> LineFault {
        LineFault::NoMemory
    }
}

/// What is wrong, in words.
impl fmt::Display for LineFault {
    ghost output = { λ fault. Some (fault_words fault) };

    fn fmt<W: fmt::Write>(&self, f: &mut fmt::Formatter<W>) -> fmt::Result {
        f.write_str(match self {
            LineFault::UnknownCommand => "there is no such command",
            LineFault::MissingWord => "a word is missing",
            LineFault::ExtraWord => "there is a word too many",
            LineFault::UnknownWord => "a word is none of those that may stand there",
            LineFault::NotBytes => "bytes are hex digits, two a byte, or - for none",
            LineFault::NotANumber => "a number is decimal digits",
            LineFault::NumberTooLarge => "a number is too large for what it tells",
            LineFault::NoFlow => "this needs a flow, and none is set up",
            LineFault::NoToken => "this needs an open superframe, and none is open",
            LineFault::RingTooLarge => "a ring has at most 1073741824 bytes",
            LineFault::NoMemory => "there is no memory for this",
        })
    }
}
