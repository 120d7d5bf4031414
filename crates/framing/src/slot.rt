use crate::frame::Frame;

/// What waits on a channel: a frame, the gap that a lost frame left, or the mark that ends a superframe.
#[derive(Clone, Copy, PartialEq, Eq, Debug)]
pub enum Slot {
    Frame(Frame),
    Gap,
    Mark,
}
