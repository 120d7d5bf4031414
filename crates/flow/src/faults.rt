ghost use Rattle.std.specs.Prelude.{◌≡◌};
ghost use Rattle.flow.specs.Numbers.{open_number, offer_number, close_number};
ghost use Rattle.flow.specs.declared.faults.OfferFault.TheVariants.{NotServed};

use crate::token::SuperframeToken;
use service::service::NotAdmitted;

/// Why an opening is refused.
#[derive(Clone, Copy, PartialEq, Eq, Debug)]
pub enum OpenFault {
    /// A superframe is open.
    AlreadyOpen = 1,
    /// The number of frames is not 1 to 200.
    FrameCount = 2,
    /// The channel has no room for the frames and the mark.
    NoRoom = 3,
}

impl OpenFault {
    /// The number of the question that was answered no.
    pub fn number(self) -> u8
        ensures { result ≡ open_number self }
    {
        self as u8
    }
}

/// Why an offer is refused.
#[derive(Clone, Copy, PartialEq, Eq, Debug)]
pub enum OfferFault {
    /// No superframe is open, or the token is another flow's.
    NotOpenHere,
    /// The packet is empty, or longer than 2,044 bytes.
    Length,
    /// The service does not admit the packet, for this reason of its own.
    NotServed(NotAdmitted),
    /// The packet and its checksum do not fit in the rest of the superframe; or, where packets may cross superframes, no
    /// byte of it would.
    NoSpace,
}

impl OfferFault {
    /// The number of the question that was answered no.
    pub fn number(self) -> u8
        ensures { result ≡ offer_number self }
    {
        match self {
            OfferFault::NotOpenHere => 4,
            OfferFault::Length => 5,
            OfferFault::NotServed(_) => 6,
            OfferFault::NoSpace => 7,
        }
    }
}

impl From<NotAdmitted> for OfferFault {
    ghost from_gives = { λ e r. r ≡ NotServed e };

    fn from(fault: NotAdmitted) -> OfferFault {
        OfferFault::NotServed(fault)
    }
}

/// Why a closing is refused. The token comes back.
#[derive(PartialEq, Eq, Debug)]
pub enum CloseFault {
    /// No superframe is open, or the token is another flow's.
    WrongToken(SuperframeToken),
}

impl CloseFault {
    /// The number of the question that was answered no.
    pub fn number(&self) -> u8
        ensures { result ≡ close_number self.now }
    {
        match self {
            CloseFault::WrongToken(_) => 4,
        }
    }
}
