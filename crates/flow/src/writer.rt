ghost use Rattle.std.specs.Prelude.{◌≡◌, ◌<◌, ◌≤◌, [], length};
ghost use Rattle.std.specs.Option.{unwrap_or};

use crate::unfinished::UnfinishedFrame;
use arrayvec::ArrayVec;

/// The writing side of a flow: the frame in progress, and the bytes carried over to the next superframe.
#[derive(Drop)]
pub(crate) struct Writer {
    /// The frame in progress. Two bytes of it at least are free.
    pub(crate) unfinished: UnfinishedFrame,
    /// How many frames of the open superframe are not yet put, the one in progress among them. None where no superframe is
    /// open.
    pub(crate) left: Option<u8>,
    /// The bytes carried over. While a frame is left there are none.
    pub(crate) carried: ArrayVec<u8, 2047>,
    ghost two_free: { length unfinished.bytes.items ≤ 120 },
    ghost cut_first: { 0 < unwrap_or left 0 → carried.items ≡ [] },
    ghost none_begun: { unwrap_or left 0 ≡ 0 → unfinished.bytes.items ≡ [] },
}
