ghost use Rattle.std.specs.Prelude.{◌≡◌};
ghost use Rattle.reel.specs.Checking.{told, Means};
ghost use Rattle.reel.specs.Laws.{FormatLaws, Examples};
ghost use Rattle.reel.specs.Reel.{reading};

use crate::blocks::Blocks;
use crate::fault::ReelFault;

/// Is the reel lawful? Else the first question that a block of it answers with no, and where that block begins.
/// The contract also has the laws of the format and its worked examples.
#[tactic(auto, using(crate::proofs::Format::format_laws, crate::proofs::Format::examples, crate::proofs::Reels::answer_means, crate::proofs::Reels::bytes_of))]
pub fn check(reel: &[u8]) -> Result<(), ReelFault>
    ensures answer { told result ≡ (reading reel.now).stop }
    ensures means { Means reel.now result }
    ensures laws { FormatLaws }
    ensures examples { Examples }
{
    for block in Blocks::of(reel) {
        block?;
    }
    Ok(())
}
