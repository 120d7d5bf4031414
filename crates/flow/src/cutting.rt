ghost use Rattle.std.specs.Prelude.{◌≡◌, ◌<◌, map, length};
ghost use Rattle.channel.specs.Sending.{a_frame};
ghost use Rattle.flow.specs.Cutting.{cut, behind};
ghost use Rattle.flow.specs.Sending.{Puts};
ghost use Rattle.flow.specs.Writing.{state_of, frames, Cutted};

use crate::writer::Writer;
use channel::channel::Channel;
use channel::sending::Outgoing;
use framing::frame::Frame;

/// Puts a frame, if there is one. The room that an opening keeps is enough for every frame, so that no put is refused.
fn put_full<C: Channel>(channel: &mut C, full: Option<Frame>)
    ensures { Puts C.slots C.space C.made C.tied (map a_frame (frames full)) channel.old channel.new }
{
    if let Some(frame) = full {
        let _ = channel.put(&Outgoing::Frame(frame));
    }
}

impl Writer {
    /// Cuts one fragment off the front of `bytes`. Gives the rest of them, and the frame, if that filled it.
    fn fill<'a>(&mut self, bytes: &'a [u8]) -> (&'a [u8], Option<Frame>)
        requires { (0 < (state_of self.old).left) × (0 < length bytes.now) }
        ensures shrinks { length result.0.now < length bytes.now }
        ensures cuts { cut (state_of self.old).left (state_of self.old).begun bytes.now ≡ behind (frames result.1) (cut (state_of self.new).left (state_of self.new).begun result.0.now) }
        ensures stays { (state_of self.new).opened ≡ (state_of self.old).opened }
    {
        let rest = self.unfinished.write_next(bytes);
        if !self.unfinished.is_full() {
            return (rest, None);
        }
        let frame = self.unfinished.take_closed();
        self.left = Some(self.frames_left() - 1);
        (rest, Some(frame))
    }

    /// Cuts `bytes` into frames, and puts each full one on the channel. Gives what is left of them where no frame is.
    pub(crate) fn send<'a, C: Channel>(&mut self, channel: &mut C, bytes: &'a [u8]) -> &'a [u8]
        ensures cuts { Cutted (cut (state_of self.old).left (state_of self.old).begun bytes.now) (state_of self.old) (state_of self.new) result.now }
        ensures puts { Puts C.slots C.space C.made C.tied (map a_frame (cut (state_of self.old).left (state_of self.old).begun bytes.now).full) channel.old channel.new }
    {
        let mut rest = bytes;
        while !rest.is_empty() && self.frames_left() > 0 {
            let (uncut, full) = self.fill(rest);
            rest = uncut;
            put_full(channel, full);
        }
        rest
    }
}
