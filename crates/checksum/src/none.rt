ghost use Rattle.std.specs.Prelude.{◌≡◌, [], ◌∷◌, if◌then◌else◌};
ghost use Rattle.std.proofs.Common.{refl, sym, ◌∙◌, arith, rules};
ghost use Rattle.checksum.specs.Detection.{FitsEverythingDetectsNothing};
ghost use Rattle.checksum.specs.Stretch.{ChangedInOneStretch, bits};
ghost use Rattle.checksum.specs.NoChecksumChecksumLemmas.{empty};

use crate::checksum::Checksum;

/// No checksum: it has no bytes, and detects nothing.
#[derive(Clone, Copy, PartialEq, Eq, Debug)]
pub struct NoChecksum;

impl Checksum for NoChecksum {
    const WIDTH: usize = 0;

    const REACH: usize = 0;

    ghost WIDTH = { 0 };

    ghost REACH = { 0 };

    ghost width = { 0 };

    ghost reach = { 0 };

    ghost value = { λ _. [] };

    ghost width_told = { refl };

    ghost reach_told = { refl };

    ghost narrow = { Prim.search rules };

    ghost sized = { Prim.search rules };

    ghost bytes = { Prim.search rules };

    ghost detects = { λ s t v u e. u.differ (empty u.was (omega arith) ∙ sym (empty u.is (omega arith))) };

    fn value_of(&self, _message: &[u8]) -> [u8; 4] {
        [0; 4]
    }
}

impl NoChecksum {
    /// Two messages that differ in one bit. A checksum that fits everything takes the one for the other, and so keeps the
    /// law at no reach above 0.
    pub fn undetected_pair() -> ([u8; 1], [u8; 1])
        ensures pair { result ≡ (0 ∷ [], 1 ∷ []) }
        ensures one_bit { ChangedInOneStretch 1 (bits result.0) (bits result.1) }
        ensures no_reach { FitsEverythingDetectsNothing }
    {
        (message(false), message(true))
    }
}

/// A message of one byte, its lowest bit set or clear.
fn message(lowest: bool) -> [u8; 1]
    ensures { result ≡ (if lowest then 1 else 0) ∷ [] }
{
    if lowest { [1] } else { [0] }
}
