/// The right to offer packets to one open superframe. An opening gives it, and only a closing takes it back: it can be
/// neither copied nor let go.
#[derive(PartialEq, Eq, Debug)]
pub struct SuperframeToken {
    /// The id of the flow that gave it.
    pub(crate) flow: u16,
}
