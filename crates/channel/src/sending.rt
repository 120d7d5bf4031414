ghost use Rattle.std.specs.Prelude.{◌≡◌, min, length, take};
ghost use Rattle.channel.specs.Outgoings.{AllPut};

use crate::channel::Channel;
use framing::frame::Frame;

/// What a sender puts on a channel.
// No `Option<Frame>`, since a mark is sent as a frame is, and no `Slot`, since nobody sends a gap.
#[derive(Clone, Copy, PartialEq, Eq, Debug)]
pub enum Outgoing {
    Frame(Frame),
    /// The end of a superframe.
    Mark,
}

/// Puts these in their order for as long as there is room, and gives how many were put.
// A loop and no `position`, since that asks a question of each item, and here the asking would change the channel.
pub fn put_all<C: Channel>(channel: &mut C, items: &[Outgoing]) -> usize
    ensures counts { result ≡ min (length items.now) (C.space channel.old) }
    ensures puts { AllPut C.slots C.space C.made C.tied (take result items.now) channel.old channel.new }
{
    for (i, item) in items.iter().enumerate() {
        if channel.put(item).is_err() {
            return i;
        }
    }
    items.len()
}
