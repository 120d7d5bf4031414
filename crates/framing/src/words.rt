ghost use Rattle.std.specs.Prelude.{◌≡◌, Some};
ghost use Rattle.framing.specs.Judging.{fault_number};
ghost use Rattle.framing.specs.Words.{fault_words, torn_words};

use crate::fault::{FrameFault, Torn};
use std::fmt;

impl FrameFault {
    /// The number of the question that was answered no.
    pub fn number(self) -> u8
        ensures { result ≡ fault_number self }
    {
        self as u8
    }

    /// What is wrong, in words.
    // `Display` writes these; who wants the string itself needs nothing that is written to.
    pub fn words(self) -> &'static str
        ensures { result.now ≡ fault_words self }
    {
        match self {
            FrameFault::CountOutOfRange => "a count of 122 to 126, which has no meaning",
            FrameFault::PaddingMarkedLast => "a padding header with the last mark set",
            FrameFault::PaddingInLastByte =>
                "a padding header in byte 122, with no padding behind it",
            FrameFault::PaddingNotZero => "padding that is not all zeros",
            FrameFault::PaddingInsidePacket => "padding where an open packet should go on",
            FrameFault::MisplacedNotional => "an empty body that is not 0x80 in byte 122",
            FrameFault::BodyPastEnd => "a body that runs past the end of the frame",
            FrameFault::BodyEndsEarly =>
                "a body without the last mark that ends before the frame does",
            FrameFault::PacketTooLong => "a body that makes the open packet longer than any packet",
        }
    }
}

impl fmt::Display for FrameFault {
    ghost output = { λ fault. Some (fault_words fault) };

    fn fmt<W: fmt::Write>(&self, f: &mut fmt::Formatter<W>) -> fmt::Result {
        f.write_str(self.words())
    }
}

impl fmt::Display for Torn {
    ghost output = { λ torn. Some (torn_words torn) };

    /// What is wrong and where, in words.
    fn fmt<W: fmt::Write>(&self, f: &mut fmt::Formatter<W>) -> fmt::Result {
        let number = self.fault.number();
        let at = self.at;
        let fault = self.fault;
        write!(f, "question {number} at byte {at}: {fault}")
    }
}
