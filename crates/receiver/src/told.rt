use framing::fault::Torn;

/// What a frame costs that did not come through: its number, and how many gathered bytes were dropped.
#[derive(Clone, Copy, PartialEq, Eq, Debug)]
pub struct Loss {
    pub frame: u16,
    pub dropped: u16,
}

/// What there is to tell of the slots. Whether a packet is sound is told only where it is handed out.
#[derive(Clone, Copy, PartialEq, Eq, Debug)]
pub enum Told {
    /// A packet was completed: with its checksum, it is what the reader has gathered.
    Packet,
    /// A frame was lost.
    Lost(Loss),
    /// A frame is torn, and why.
    Torn(Loss, Torn),
    /// A mark ended a superframe: how many gathered bytes were dropped.
    Mark { dropped: u16 },
}
