ghost use Rattle.std.specs.Prelude.{◌≡◌, length};

use crate::state::State;
use arrayvec::ArrayVec;
use framing::frame::Frame;

/// The reading side of a flow: how it stands to the packets, what it has gathered of the open one, and the frame in hand.
#[derive(Drop)]
pub struct Reader {
    pub(crate) state: State,
    /// The bytes of the open packet, or of the one that was completed last. The longest packet with the widest checksum fits.
    pub(crate) gathered: ArrayVec<u8, 2048>,
    /// The frame taken last.
    pub(crate) frame: Frame,
    /// The number of the last frame or gap since the last mark.
    pub(crate) number: u16,
    ghost whole: { length frame.bytes ≡ 122 },
}
