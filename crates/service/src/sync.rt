ghost use Rattle.std.specs.Prelude.{◌≡◌};
ghost use Rattle.service.specs.Faults.{fault_number};
ghost use Rattle.service.specs.Reading.{reading};
ghost use Rattle.service.specs.Spelling.{AdmitsExactly};
ghost use Rattle.service.specs.Serving.{refusal_in, verdict_of};

use crate::header::HeaderFault;
use crate::reading::read_header;
use crate::service::{NotAdmitted, Service};

impl From<HeaderFault> for NotAdmitted {
    ghost from_gives = { λ e r. r.number ≡ fault_number e };

    fn from(fault: HeaderFault) -> NotAdmitted {
        NotAdmitted {
            number: fault.number(),
        }
    }
}

/// The service that admits exactly a lawful sync header followed by a payload.
#[derive(Clone, Copy, PartialEq, Eq, Debug)]
pub struct Sync;

impl Service for Sync {
    ghost verdict = { λ _ s. refusal_in (reading s) };

    fn admit(&self, packet: &[u8]) -> Result<(), NotAdmitted>
        ensures answer { verdict_of result ≡ refusal_in (reading packet.now) }
        ensures exact { AdmitsExactly packet.now (verdict_of result) }
    {
        judge(packet)
    }
}

// A fault of the header is passed up as its number. It is a function of its own for its one result, of which the law of
// `admit` is proved.
fn judge(packet: &[u8]) -> Result<(), NotAdmitted>
    ensures { verdict_of result ≡ refusal_in (reading packet.now) }
{
    read_header(packet)?;
    Ok(())
}
