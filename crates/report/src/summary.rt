//! What is missing, in one sentence.
use crate::visit::Outcome;
use crate::words::Count;
use std::fmt;

/// The sentence on what is missing of a reel.
#[derive(Clone, Copy, PartialEq, Eq, Debug)]
pub struct Summary(pub Outcome);

impl fmt::Display for Summary {
    fn fmt<W: fmt::Write>(&self, f: &mut fmt::Formatter<W>) -> fmt::Result {
        let totals = self.0.totals;
        let frames = self.0.frames();
        let packets = totals.packets();
        if frames == 0 && self.0.is_complete() {
            return f.write_str("The reel holds nothing.");
        }
        if self.0.is_complete() {
            return write!(
                f,
                "Nothing is missing: {frames} of {frames} frames whole; {packets} of {packets} packets sound."
            );
        }
        let lost = self.0.surveyed.contents.gaps;
        let torn = totals.torn;
        let sound = totals.sound;
        let damaged = totals.damaged;
        let foreign = totals.foreign;
        let short = totals.short;
        let dropped = Count {
            number: totals.dropped,
            one: "byte",
            many: "bytes",
        };
        write!(
            f,
            "{lost} of {frames} frames lost, {torn} torn; {dropped} of unfinished packets dropped; "
        )?;
        write!(
            f,
            "{sound} of {packets} packets sound, {damaged} damaged, {foreign} foreign, {short} short"
        )?;
        if let Some(fault) = self.0.surveyed.fault {
            let at = fault.at;
            write!(f, "; nothing can be read from byte {at} on")?;
        }
        f.write_str(".")
    }
}
