ghost use Rattle.std.specs.Prelude.{◌≡◌};
ghost use Rattle.flow.specs.Alone.{SentAlone};
ghost use Rattle.flow.specs.declared.alone.SendFault.TheVariants.{Opening, Offer, Closing};

use crate::faults::{CloseFault, OfferFault, OpenFault};
use crate::flow::Flow;
use channel::channel::Channel;
use checksum::checksum::Checksum;
use service::service::Service;

/// Why a packet was not sent in a superframe of its own.
pub(crate) enum SendFault {
    /// No superframe was opened.
    Opening(OpenFault),
    /// The packet was refused, and the superframe was closed without it.
    Offer(OfferFault),
    /// The superframe was not closed. This never happens.
    Closing(CloseFault),
}

impl From<OpenFault> for SendFault {
    ghost from_gives = { λ e r. r ≡ Opening e };

    fn from(fault: OpenFault) -> SendFault {
        SendFault::Opening(fault)
    }
}

impl From<OfferFault> for SendFault {
    ghost from_gives = { λ e r. r ≡ Offer e };

    fn from(fault: OfferFault) -> SendFault {
        SendFault::Offer(fault)
    }
}

impl From<CloseFault> for SendFault {
    ghost from_gives = { λ e r. r ≡ Closing e };

    fn from(fault: CloseFault) -> SendFault {
        SendFault::Closing(fault)
    }
}

/// Sends one packet in a superframe of its own, of `n` frames.
pub(crate) fn send_alone<C: Channel, K: Checksum, S: Service>(
    flow: &mut Flow<C, K, S>,
    n: usize,
    packet: &[u8],
) -> Result<(), SendFault>
    ensures { SentAlone K.value n packet.now result flow.old flow.new }
{
    let token = flow.opening(n)?;
    let (token, answer) = flow.offer(token, packet);
    flow.closing(token)?;
    answer?;
    Ok(())
}
