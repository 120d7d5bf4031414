ghost use Rattle.std.specs.Prelude.{◌≡◌, ◌-◌, ◌<◌, ◌≤◌, [], length};
ghost use Rattle.flow.specs.Asking.{free};
ghost use Rattle.flow.specs.Cutting.{padded};
ghost use Rattle.flow.specs.Writing.{state_of, idle};

use crate::unfinished::UnfinishedFrame;
use crate::writer::Writer;
use arrayvec::ArrayVec;
use framing::frame::Frame;

impl Writer {
    /// A writer with no superframe open and nothing carried over.
    pub(crate) fn idle() -> Writer
        ensures { state_of result ≡ idle }
    {
        Writer {
            unfinished: UnfinishedFrame {
                bytes: ArrayVec::new(),
            },
            left: None,
            carried: ArrayVec::new(),
        }
    }

    /// How many frames of the superframe are not yet put. Where none is open, there are none.
    pub(crate) fn frames_left(&self) -> u8
        ensures { result ≡ (state_of self.now).left }
    {
        self.left.unwrap_or(0)
    }

    /// Gives the frame in progress with its rest padded, and goes on to the next frame of the superframe.
    pub(crate) fn pad(&mut self) -> Frame
        requires { 0 < (state_of self.old).left }
        ensures frame { result.bytes ≡ padded (state_of self.old).begun }
        ensures goes_on { state_of self.new ≡ record { opened = (state_of self.old).opened; left = (state_of self.old).left - 1; begun = []; over = (state_of self.old).over } }
    {
        let frame = self.unfinished.take_padded();
        self.left = Some(self.frames_left() - 1);
        frame
    }

    /// Carries `bytes` over to the next superframe.
    pub(crate) fn carry_over(&mut self, bytes: &[u8])
        requires { (length bytes.now ≤ 2047) × ((0 < (state_of self.old).left → length bytes.now ≡ 0)) }
        ensures { state_of self.new ≡ record { opened = (state_of self.old).opened; left = (state_of self.old).left; begun = (state_of self.old).begun; over = bytes.now } }
    {
        self.carried.clear();
        self.carried.try_extend_from_slice(bytes).unwrap();
    }

    /// How many body bytes are free in the rest of the superframe.
    pub(crate) fn free_bytes(&self) -> usize
        ensures { result ≡ free (state_of self.now).left (state_of self.now).begun }
    {
        match self.frames_left() {
            0 => 0,
            left => 121 - self.unfinished.len() + 121 * (usize::from(left) - 1),
        }
    }
}
