//! The words of the reports.
ghost use Rattle.std.specs.Prelude.{◌≡◌, ◌-◌, ◌/◌, length, Some};
ghost use Rattle.report.specs.Words.{word_of_verdict, on_or_off, counted, superframe_words, fact_words};

use crate::entry::Verdict;
use reel::block::Block;
use service::header::SyncHeader;
use spelling::optional::Optional;
use std::fmt;

impl Verdict {
    /// The word for a verdict.
    pub fn word(self) -> &'static str
        ensures { result.now ≡ word_of_verdict self }
    {
        match self {
            Verdict::Sound => "sound",
            Verdict::Damaged => "damaged",
            Verdict::Foreign { .. } => "foreign",
        }
    }
}

/// The word for a switch, as the option `--fasb` has it.
pub fn on_off(on: bool) -> &'static str
    ensures { result.now ≡ on_or_off on }
{
    if on { "on" } else { "off" }
}

/// A value, or this word where there is none.
pub(crate) fn or_word<T>(value: Option<T>, absent: &'static str) -> Optional<T> {
    Optional {
        before: "",
        value,
        absent,
    }
}

/// A number of things, with the thing's name in the singular or the plural.
#[derive(Clone, Copy, PartialEq, Eq, Debug)]
pub struct Count<'a> {
    pub number: u64,
    pub one: &'a str,
    pub many: &'a str,
}

impl fmt::Display for Count<'_> {
    ghost output = { λ c. Some (counted c.number c.one.now c.many.now) };

    fn fmt<W: fmt::Write>(&self, f: &mut fmt::Formatter<W>) -> fmt::Result {
        let number = self.number;
        let name = if number == 1 { self.one } else { self.many };
        write!(f, "{number} {name}")
    }
}

/// What a line says of a superframe as a whole.
#[derive(Clone, Copy, PartialEq, Eq, Debug)]
pub struct SuperframeWords<'a> {
    /// The superframe's number in the reel, counted from 1.
    pub number: u64,
    pub block: Block<'a>,
}

impl fmt::Display for SuperframeWords<'_> {
    ghost output = { λ s. Some (superframe_words s.number s.block.at (length s.block.frames.now / 122) (s.block.size - length s.block.frames.now / 122)) };

    fn fmt<W: fmt::Write>(&self, f: &mut fmt::Formatter<W>) -> fmt::Result {
        let SuperframeWords { number, block } = *self;
        let at = block.at;
        let frames = Count {
            number: block.frame_count() as u64,
            one: "frame",
            many: "frames",
        };
        let gaps = Count {
            number: block.gap_count() as u64,
            one: "gap",
            many: "gaps",
        };
        write!(f, "superframe {number}, at byte {at}: {frames}, {gaps}")
    }
}

/// What a sync header says, in short: what is absent is not named.
#[derive(Clone, Copy, PartialEq, Eq, Debug)]
pub struct Facts(pub SyncHeader);

impl fmt::Display for Facts {
    ghost output = { λ x. Some (fact_words x.0) };

    fn fmt<W: fmt::Write>(&self, f: &mut fmt::Formatter<W>) -> fmt::Result {
        let header = self.0;
        let kind = header.kind.word();
        let frame = Optional {
            before: ", frame ",
            value: header.frame_id,
            absent: "",
        };
        let time = Optional {
            before: ", time ",
            value: header.timestamp,
            absent: "",
        };
        let access = if header.access_point {
            ", access point"
        } else {
            ""
        };
        let reference = if header.unreferenced {
            ", unreferenced"
        } else {
            ""
        };
        write!(f, "{kind}{frame}{time}{access}{reference}")
    }
}
