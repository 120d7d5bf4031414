/// Why a frame is torn: each fault by the number of its question.
#[derive(Clone, Copy, PartialEq, Eq, Debug)]
pub enum FrameFault {
    /// A count of 122 to 126, which means nothing.
    CountOutOfRange = 11,
    /// A padding header with the last mark.
    PaddingMarkedLast = 12,
    /// A padding header in byte 122, with no byte behind it.
    PaddingInLastByte = 13,
    /// A byte of padding that is not 0.
    PaddingNotZero = 14,
    /// Padding at the beginning of a frame, where a packet is still open.
    PaddingInsidePacket = 15,
    /// An empty body that is not the byte 0x80 at the end of the frame.
    MisplacedNotional = 16,
    /// A body that runs past the end of the frame.
    BodyPastEnd = 17,
    /// A body without the last mark that ends before the frame does.
    BodyEndsEarly = 18,
    /// A body that makes the open packet longer than any packet with its checksum.
    PacketTooLong = 19,
}

/// A frame that is not lawful: why, and the place of the header at fault, counted from 1.
#[derive(Clone, Copy, PartialEq, Eq, Debug)]
pub struct Torn {
    pub fault: FrameFault,
    pub at: usize,
}
