//! The faults of a reel in numbers and words.
ghost use Rattle.std.specs.Prelude.{◌≡◌, Some};
ghost use Rattle.reel.specs.Parts.{number as fault_number};
ghost use Rattle.reel.specs.Words.{fault_words};

use crate::fault::BlockFault;
use std::fmt;

impl BlockFault {
    /// The number of the question that was answered no.
    pub fn number(self) -> u8
        ensures { result ≡ fault_number self }
    {
        self as u8
    }
}

impl fmt::Display for BlockFault {
    ghost output = { λ fault. Some (fault_words fault) };

    /// The question that was answered no, in words.
    fn fmt<W: fmt::Write>(&self, f: &mut fmt::Formatter<W>) -> fmt::Result {
        f.write_str(match self {
            BlockFault::SuperframeSize => "does the superframe have from 1 to 200 frames?",
            BlockFault::Map => "is the bit map all there, with its spare bits clear?",
            BlockFault::Frames => "are the frames all there that the bit map names?",
        })
    }
}
