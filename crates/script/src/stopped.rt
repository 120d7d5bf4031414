ghost use Rattle.std.specs.Prelude.{◌≡◌};
ghost use Rattle.script.specs.declared.stopped.Stopped.TheVariants.{BeforeIt};

use crate::reply::Answered;
use std::alloc::AllocError;

/// Where want of memory stopped a step.
#[derive(Drop)]
pub(crate) enum Stopped {
    /// Before it began.
    BeforeIt(AllocError),
    /// In a drain, after these readings.
    InDrain(Vec<Answered>, AllocError),
}

impl From<AllocError> for Stopped {
    ghost from_gives = { λ e r. r ≡ BeforeIt e };

    fn from(error: AllocError) -> Stopped {
        Stopped::BeforeIt(error)
    }
}
