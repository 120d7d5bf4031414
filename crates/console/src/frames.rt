use framing::fragments::{Fragment, Fragments, FragmentsFault};
use reel::block::Block;
use reel::slots::Recorded;
use report::words::SuperframeWords;
use std::fmt;

/// The report on one superframe: every frame with its fragments, gaps as gaps, torn frames with the question and the place.
#[derive(Clone, Copy, PartialEq, Eq, Debug)]
pub struct SuperframeReport<'a> {
    /// The superframe's number in the reel, counted from 1.
    pub number: u64,
    pub block: Block<'a>,
}

/// The report on one frame.
#[derive(Clone, Copy, PartialEq, Eq, Debug)]
struct FrameReport<'a> {
    number: u8,
    bytes: &'a [u8],
}

impl fmt::Display for SuperframeReport<'_> {
    fn fmt<W: fmt::Write>(&self, f: &mut fmt::Formatter<W>) -> fmt::Result {
        let SuperframeReport { number, block } = *self;
        writeln!(f, "{}", SuperframeWords { number, block })?;
        for (number, recorded) in (1..=block.size).zip(block.slots()) {
            match recorded {
                Recorded::Frame(bytes) => write!(f, "{}", FrameReport { number, bytes })?,
                Recorded::Gap => writeln!(f, "  frame {number:>3}   gap")?,
            }
        }
        Ok(())
    }
}

impl fmt::Display for FrameReport<'_> {
    fn fmt<W: fmt::Write>(&self, f: &mut fmt::Formatter<W>) -> fmt::Result {
        let number = self.number;
        write!(f, "  frame {number:>3}   ")?;
        let fragments = match Fragments::of(self.bytes) {
            Ok(fragments) => fragments,
            Err(FragmentsFault::NotAFrame) => return writeln!(f, "not 122 bytes"),
            Err(FragmentsFault::Torn(torn)) => return writeln!(f, "torn      {torn}"),
        };
        let mut margin = "";
        for fragment in fragments {
            f.write_str(margin)?;
            margin = "              ";
            match fragment {
                Fragment::Body { at, body, last } => {
                    let length = body.len();
                    let end = if last { "last" } else { "more" };
                    writeln!(f, "body      at {at:>3}   {length:>3} bytes   {end}")?;
                }
                Fragment::Notional { at } => writeln!(f, "notional  at {at:>3}")?,
                Fragment::Padding { at } => writeln!(f, "padding   at {at:>3}")?,
            }
        }
        Ok(())
    }
}
