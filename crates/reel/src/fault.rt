/// The question that a block answers with no, by its number.
#[derive(Clone, Copy, PartialEq, Eq, Debug)]
pub enum BlockFault {
    /// The superframe has no frame, or more than 200.
    SuperframeSize = 21,
    /// The bit map is cut short, or a bit is set that belongs to no frame.
    Map = 22,
    /// The frames are cut short.
    Frames = 23,
}

/// Why a reel is not lawful, and where.
#[derive(Clone, Copy, PartialEq, Eq, Debug)]
pub struct ReelFault {
    /// The question that was answered no.
    pub fault: BlockFault,
    /// The place of the first byte of the block, counted from 1.
    pub at: usize,
}
