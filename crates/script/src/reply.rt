use flow::faults::{OfferFault, OpenFault};
use receiver::answer::{BufferTooShort, Reading};

/// What one reading answered, with the packet where one was handed out (else no bytes). The packet stands beside the answer and not
/// inside it, since the answer is the receiver's own, as it came, and tells by its length what the packet is.
#[derive(PartialEq, Eq, Debug, Drop)]
pub struct Answered {
    pub answer: Result<Reading, BufferTooShort>,
    pub packet: Vec<u8>,
}

/// What a step answered.
#[derive(PartialEq, Eq, Debug, Drop)]
pub enum Reply {
    Opening(Result<(), OpenFault>),
    Offer(Result<(), OfferFault>),
    Closed,
    /// An offer or a closing was asked for with no token in hand. It is no call of the flow.
    NoToken,
    Read(Answered),
    Drained(Vec<Answered>),
    Room(usize),
    Waits(bool),
}
