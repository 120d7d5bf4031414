/// The index behind the last byte of a frame: where it is read out, the next header would stand there.
pub(crate) const READ_OUT: usize = 122;

/// How a reader stands to the packets.
#[derive(Clone, Copy, PartialEq, Eq, Debug)]
pub enum State {
    /// The next body begins a packet. Only an aligned reader keeps a frame in hand between two readings: `next` is the index
    /// of the next header in it.
    Aligned { next: usize },
    /// The reader has gathered bytes of a packet whose end it has not seen.
    Gathering,
    /// The reader does not know where the next packet begins.
    Seeking,
}
