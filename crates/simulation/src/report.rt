use crate::counts::{Counts, Planted};
use crate::law::Broken;
use crate::trial::Findings;
use std::fmt;

/// The calls, and those of them that were refused.
fn write_calls<W: fmt::Write>(f: &mut fmt::Formatter<W>, counts: &Counts) -> fmt::Result {
    let Counts {
        calls,
        refused,
        no_token,
        ..
    } = counts;
    writeln!(
        f,
        "{calls} calls; besides, {no_token} offers and closings were not made for want of a token"
    )?;
    for (number, n) in (1..9).zip(refused.iter()) {
        writeln!(f, "  refused by question {number}: {n}")?;
    }
    Ok(())
}

/// The packets, and what they were handed out as.
fn write_packets<W: fmt::Write>(f: &mut fmt::Formatter<W>, counts: &Counts) -> fmt::Result {
    let Counts {
        offered,
        accepted,
        put,
        clear,
        sound,
        damaged,
        foreign,
        ..
    } = counts;
    writeln!(
        f,
        "{offered} packets offered, {accepted} accepted, {put} put to their end, {clear} clear"
    )?;
    writeln!(
        f,
        "  handed out: {sound} sound, {damaged} damaged, {foreign} foreign"
    )
}

/// What came of the clear packets, and of all that was put, on the way.
fn write_passing<W: fmt::Write>(f: &mut fmt::Formatter<W>, counts: &Counts) -> fmt::Result {
    let Counts {
        unchanged,
        changed,
        within_reach,
        passages,
        gaps,
        lost,
        ..
    } = counts;
    writeln!(
        f,
        "  clear packets: {unchanged} unchanged, {changed} changed, of these {within_reach} within the checksum's reach"
    )?;
    writeln!(
        f,
        "{passages} frames and marks put, {gaps} gaps, {lost} lost answers"
    )
}

impl fmt::Display for Counts {
    fn fmt<W: fmt::Write>(&self, f: &mut fmt::Formatter<W>) -> fmt::Result {
        write_calls(f, self)?;
        write_packets(f, self)?;
        write_passing(f, self)
    }
}

impl fmt::Display for Broken {
    fn fmt<W: fmt::Write>(&self, f: &mut fmt::Formatter<W>) -> fmt::Result {
        let Broken {
            carried,
            order,
            complete,
            judged,
            alarm,
            unfair,
        } = self;
        writeln!(f, "violations of the run law:")?;
        writeln!(f, "  packets are carried: {carried}")?;
        writeln!(f, "  in order: {order}")?;
        writeln!(f, "  complete: {complete}")?;
        writeln!(f, "  judged rightly: {judged}")?;
        writeln!(f, "  no false alarm: {alarm}")?;
        writeln!(f, "  (runs that were not fair: {unfair})")
    }
}

impl fmt::Display for Findings {
    fn fmt<W: fmt::Write>(&self, f: &mut fmt::Formatter<W>) -> fmt::Result {
        let Findings {
            counts,
            broken,
            planted,
        } = self;
        write!(f, "{counts}{broken}")?;
        writeln!(f, "mistakes planted in what the callers saw:")?;
        for Planted {
            mistake,
            made,
            found,
        } in planted.iter() {
            writeln!(f, "  {mistake}: {made} planted, {found} found")?;
        }
        Ok(())
    }
}
