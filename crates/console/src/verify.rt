ghost use Rattle.console.specs.Examining.{Examined};

use reel::counting::{Contents, Surveyed, survey};
use reel::fault::ReelFault;
use std::fmt;

/// The fault of a reel, and what it holds before it.
#[derive(Clone, Copy, PartialEq, Eq, Debug)]
pub struct Unlawful {
    pub fault: ReelFault,
    pub before: Contents,
}

/// Is the reel lawful, and how much does it hold?
pub fn examine(reel: &[u8]) -> Result<Contents, Unlawful>
    ensures { Examined reel.now result }
{
    let Surveyed { contents, fault } = survey(reel);
    match fault {
        None => Ok(contents),
        Some(fault) => Err(Unlawful {
            fault,
            before: contents,
        }),
    }
}

/// The report on one reel.
#[derive(Clone, Copy, PartialEq, Eq, Debug)]
pub struct VerifyReport<'a> {
    pub name: &'a str,
    pub size: usize,
    pub findings: Result<Contents, Unlawful>,
}

impl fmt::Display for VerifyReport<'_> {
    fn fmt<W: fmt::Write>(&self, f: &mut fmt::Formatter<W>) -> fmt::Result {
        let name = self.name;
        match self.findings {
            Ok(contents) => {
                writeln!(f, "{name}: lawful")?;
                show_contents(f, contents)?;
            }
            Err(Unlawful { fault, before }) => {
                let ReelFault { fault, at } = fault;
                let number = fault.number();
                writeln!(f, "{name}: not lawful")?;
                writeln!(f, "  the block at byte {at}: question {number}, {fault}")?;
                writeln!(f, "  before it:")?;
                show_contents(f, before)?;
            }
        }
        let bytes = self.size;
        writeln!(f, "  bytes        {bytes:>14}")
    }
}

fn show_contents<W: fmt::Write>(f: &mut fmt::Formatter<W>, contents: Contents) -> fmt::Result {
    let Contents {
        superframes,
        frames,
        gaps,
    } = contents;
    writeln!(f, "  superframes  {superframes:>14}")?;
    writeln!(f, "  frames       {frames:>14}")?;
    writeln!(f, "  gaps         {gaps:>14}")
}
