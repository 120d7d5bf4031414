ghost use Rattle.std.specs.Prelude.{◌<◌};
ghost use Rattle.channel.specs.Sending.{Arrives};
ghost use Rattle.simulation.specs.Tapes.{AsLong, Becomes};

use crate::random::Random;
use channel::sending::Outgoing;
use framing::fragments::{Fragment, Fragments};
use framing::frame::Frame;
use framing::slot::Slot;

/// What happens to frames on their way: some are lost, and in some bits of fragment bodies are changed.
#[derive(Clone, Copy)]
pub(crate) struct Noise {
    pub(crate) random: Random,
    /// How many of 256 frames are lost.
    pub(crate) losses: u8,
    /// How many of 256 frames are changed.
    pub(crate) changes: u8,
    /// The bits that a burst at the end of the last frame goes on to change in this one.
    pub(crate) goes_on: [u8; 3],
}

/// Which bytes of a frame lie in fragment bodies.
fn in_bodies(frame: &Frame) -> [bool; 122] {
    let mut marks = [false; 122];
    let Ok(fragments) = Fragments::of(&frame.bytes) else {
        return marks;
    };
    for fragment in fragments {
        if let Fragment::Body { at, body, .. } = fragment {
            if let Some(part) = marks.get_mut(at..at.saturating_add(body.len())) {
                part.fill(true);
            }
        }
    }
    marks
}

/// The frame with these bits changed from the index `at` on, but for those outside fragment bodies.
fn struck(frame: &Frame, at: usize, bits: [u8; 3]) -> Frame
    ensures { AsLong frame.now result }
{
    let marks = in_bodies(frame);
    let mut bytes = frame.bytes;
    let body_bytes = bytes.iter_mut().zip(marks.iter());
    for ((byte, mark), bits) in body_bytes.skip(at).zip(bits.iter()) {
        if *mark {
            *byte ^= *bits;
        }
    }
    Frame { bytes }
}

/// The bits of a burst, in three bytes: all within one stretch of 1 to 20 bits.
fn burst(random: &mut Random) -> [u8; 3] {
    let span = 1 + random.below(20);
    let shift = random.below(25 - span);
    let inside = (random.next() % 0x10_0000) as u32 & ((1 << span) - 1);
    let bits = inside | 1 | 1 << (span - 1);
    let [_, high, middle, low] = (bits << shift).to_be_bytes();
    [high, middle, low]
}

impl Noise {
    /// The frame struck by one burst, at a place of which the end of the frame is not the rarest.
    fn strike(&mut self, frame: &Frame) -> Frame
        ensures { AsLong frame.now result }
    {
        let near_end = self.random.happens(64);
        let at = if near_end {
            119 + self.random.below(3)
        } else {
            self.random.below(122)
        };
        let bits = burst(&mut self.random);
        let [_, second, third] = bits;
        self.goes_on = match at {
            120 => [third, 0, 0],
            121 => [second, third, 0],
            _ => [0; 3],
        };
        struck(frame, at, bits)
    }

    /// The frame struck by one burst, and sometimes by another.
    fn changed(&mut self, frame: &Frame) -> Frame
        ensures { AsLong frame.now result }
    {
        let once = self.strike(frame);
        if self.random.happens(64) {
            self.strike(&once)
        } else {
            once
        }
    }

    /// What comes of what is put: a mark stays one.
    pub(crate) fn pass(&mut self, item: &Outgoing) -> Slot
        ensures { Becomes item.now result }
    {
        match item {
            Outgoing::Frame(frame) => self.carry(frame),
            Outgoing::Mark => Slot::Mark,
        }
    }

    /// What comes of a frame: a gap, or the frame with none or some bits of its bodies changed.
    fn carry(&mut self, frame: &Frame) -> Slot
        ensures { Arrives frame.now.bytes result }
    {
        let goes_on = self.goes_on;
        self.goes_on = [0; 3];
        if self.random.happens(self.losses) {
            return Slot::Gap;
        }
        let came = struck(frame, 1, goes_on);
        if self.random.happens(self.changes) {
            Slot::Frame(self.changed(&came))
        } else {
            Slot::Frame(came)
        }
    }
}
