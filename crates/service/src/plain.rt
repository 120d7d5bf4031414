ghost use Rattle.std.specs.Prelude.{None};

use crate::service::{NotAdmitted, Service};

/// The service that admits every packet.
#[derive(Clone, Copy, PartialEq, Eq, Debug)]
pub struct Plain;

impl Service for Plain {
    ghost verdict = { λ _ _. None };

    fn admit(&self, _packet: &[u8]) -> Result<(), NotAdmitted> {
        Ok(())
    }
}
