ghost use Rattle.std.specs.Prelude.{◌≡◌, ◌+◌, ◌/◌, ◌^◌, ◌<◌, length, IfOk};
ghost use Rattle.std.specs.Option.{option_map};
ghost use Rattle.reel.specs.Checking.{told};
ghost use Rattle.reel.specs.Counting.{one_more, Counts};
ghost use Rattle.reel.specs.Parts.{told_as};
ghost use Rattle.reel.specs.Reel.{reading};

use crate::block::Block;
use crate::blocks::Blocks;
use crate::fault::ReelFault;

/// How much a lawful reel holds.
#[derive(Clone, Copy, PartialEq, Eq, Debug)]
pub struct Contents {
    /// The superframes, one a block.
    pub superframes: usize,
    /// The frames that are there.
    pub frames: usize,
    /// The frames that were lost. A gap takes little more than a bit of the reel, so there may be more gaps than a `usize` counts.
    pub gaps: u128,
}

impl Contents {
    /// The count with this superframe more.
    fn with(self, block: Block<'_>) -> Contents
        requires { (self.superframes + 1 < 2 ^ 64) × ((self.frames + length block.frames.now / 122 < 2 ^ 64) × (self.gaps + block.size < 2 ^ 128)) }
        ensures { result ≡ one_more self block.entry.size (length block.entry.frames.now / 122) }
    {
        Contents {
            superframes: self.superframes + 1,
            frames: self.frames + block.frame_count(),
            gaps: self.gaps + block.gap_count() as u128,
        }
    }
}

/// What a reel holds up to its end or its first fault, and that fault.
#[derive(Clone, Copy, PartialEq, Eq, Debug)]
pub struct Surveyed {
    pub contents: Contents,
    pub fault: Option<ReelFault>,
}

/// Counts what a reel holds up to its end or its first fault.
pub fn survey(reel: &[u8]) -> Surveyed
    ensures counts { Counts (reading reel.now).superframes result.contents }
    ensures stops { option_map told_as result.fault ≡ (reading reel.now).stop }
{
    let mut contents = Contents {
        superframes: 0,
        frames: 0,
        gaps: 0,
    };
    for found in Blocks::of(reel) {
        match found {
            Ok(block) => contents = contents.with(block),
            Err(fault) => {
                let fault = Some(fault);
                return Surveyed { contents, fault };
            }
        }
    }
    Surveyed {
        contents,
        fault: None,
    }
}

/// Checks a reel, and counts what it holds.
pub fn count(reel: &[u8]) -> Result<Contents, ReelFault>
    ensures answer { told result ≡ (reading reel.now).stop }
    ensures counts { IfOk result (λ c. Counts (reading reel.now).superframes c) }
{
    let Surveyed { contents, fault } = survey(reel);
    fault.map_or(Ok(contents), Err)
}
