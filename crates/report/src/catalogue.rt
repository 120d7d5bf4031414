//! The catalogue of a reel, from its first line to its last.
ghost use Rattle.std.specs.Prelude.{IfOk};
ghost use Rattle.report.specs.Complete.{ComesTo};

use crate::source::Source;
use crate::visit::{Outcome, Progress, Visitor};
use crate::walk::walk;
use std::fmt;

/// A form that a catalogue may have: what it writes of what the reel shows, and before and behind all that.
pub trait Catalogue: Visitor {
    /// What stands before the superframes.
    fn head(&mut self, source: Source<'_>) -> fmt::Result;

    /// What stands behind them: what the whole reel came to.
    fn end(&mut self, source: Source<'_>, outcome: Outcome) -> fmt::Result;
}

/// Writes the catalogue of a reel in this form.
pub fn write_catalogue<C: Catalogue, P: Progress>(
    source: Source<'_>,
    form: &mut C,
    progress: &mut P,
) -> Result<Outcome, fmt::Error>
    ensures { IfOk result (ComesTo source.entry.settings source.entry.reel.now) }
{
    form.head(source)?;
    let outcome = walk(source.reel, source.settings, form, progress)?;
    form.end(source, outcome)?;
    Ok(outcome)
}
