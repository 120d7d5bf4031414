/// One step of a script.
#[derive(PartialEq, Eq, Debug, Drop)]
pub enum Step {
    /// Open a superframe of so many frames.
    Open { frames: usize },
    /// Offer a packet, with the token in hand.
    Offer { packet: Vec<u8> },
    /// Close the superframe, with the token in hand.
    Close,
    /// One reading into a buffer of so many bytes.
    Read { buffer_len: usize },
    /// Readings into a buffer of 2,044 bytes, through the first that answers nothing.
    Drain,
    /// The channel's room: a question, which changes nothing.
    Room,
    /// Whether a slot waits: a question, which changes nothing.
    Waits,
}
