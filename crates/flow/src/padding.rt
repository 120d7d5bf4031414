ghost use Rattle.flow.specs.Sending.{Done};
ghost use Rattle.flow.specs.Writing.{state_of, closing};

use crate::writer::Writer;
use channel::channel::Channel;
use channel::sending::Outgoing;

impl Writer {
    /// Fills what is left of the superframe with padding, puts its frames and the mark, and closes it. The room that an
    /// opening keeps is enough for them, so that no put is refused.
    pub(crate) fn finish<C: Channel>(&mut self, channel: &mut C)
        ensures { Done C.slots C.space C.made C.tied (closing (state_of self.old)) self.new channel.old channel.new }
    {
        while self.frames_left() > 0 {
            let frame = self.pad();
            let _ = channel.put(&Outgoing::Frame(frame));
        }
        self.left = None;
        let _ = channel.put(&Outgoing::Mark);
    }
}
