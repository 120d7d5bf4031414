ghost use Rattle.std.specs.Prelude.{◌≡◌, ◌<◌, ◌≤◌, true, false, length};
ghost use Rattle.flow.specs.Sending.{Done};
ghost use Rattle.flow.specs.Writing.{state_of, opening, offering};

use crate::writer::Writer;
use channel::channel::Channel;

impl Writer {
    /// Cuts `bytes` into the rest of the open superframe, puts each full frame, and carries over what does not fit.
    pub(crate) fn place<C: Channel>(&mut self, channel: &mut C, bytes: &[u8])
        requires { ((state_of self.old).opened ≡ true) × ((0 < (state_of self.old).left) × (length bytes.now ≤ 2048)) }
        ensures { Done C.slots C.space C.made C.tied (offering bytes.now (state_of self.old)) self.new channel.old channel.new }
    {
        let rest = self.send(channel, bytes);
        self.carry_over(rest);
    }

    /// Opens a superframe of `n` frames, and cuts into them what was carried over.
    pub(crate) fn begin<C: Channel>(&mut self, channel: &mut C, n: u8)
        requires { ((state_of self.old).opened ≡ false) × (0 < n) }
        ensures { Done C.slots C.space C.made C.tied (opening n (state_of self.old)) self.new channel.old channel.new }
    {
        let carried = self.carried.take();
        self.left = Some(n);
        self.place(channel, carried.as_slice());
    }
}
