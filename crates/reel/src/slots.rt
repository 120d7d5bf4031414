ghost use Rattle.std.specs.Prelude.{◌≡◌, ◌/◌, ◌<◌, length, SomeIff};
ghost use Rattle.reel.specs.Bits.{bit_at};
ghost use Rattle.reel.specs.Parts.{held};
ghost use Rattle.reel.specs.Recording.{to_come, Comes};
ghost use Rattle.std.specs.Iterator.{at_most};

use crate::block::Block;

/// What a block has for one frame of its superframe. As an `Option` it would be an item of [`Slots`] that reads `Some(None)`.
#[derive(Clone, Copy, PartialEq, Eq, Debug)]
pub enum Recorded<'a> {
    /// The frame's bytes, as a part of the reel.
    Frame(&'a [u8]),
    /// The frame was lost.
    Gap,
}

/// The frames and gaps of a block, one after the other.
#[derive(Clone, Copy, PartialEq, Eq, Debug)]
pub struct Slots<'a> {
    map: &'a [u8],
    /// The frames that are still to come.
    frames: &'a [u8],
    size: u8,
    /// How many frames and gaps have come: no slice of bytes begins at a bit, so the next one is told by its number.
    passed: u8,
}

/// Bit `i`, counted from 0, of a bit map, where the map has it.
fn bit(map: &[u8], i: usize) -> Option<bool>
    ensures { SomeIff result (i / 8 < length map.now) (bit_at map.now i) }
{
    map.get(i / 8).map(|byte| (*byte >> (i % 8)) % 2 == 1)
}

impl<'a> Block<'a> {
    /// The frames and gaps of the block, from the first.
    pub fn slots(self) -> Slots<'a>
        ensures { to_come result ≡ held self.entry }
    {
        Slots {
            map: self.map,
            frames: self.frames,
            size: self.size,
            passed: 0,
        }
    }
}

impl<'a> Iterator for Slots<'a> {
    type Item = Recorded<'a>;

    ghost next_gives = { λ s r t. Comes s r t };

    ghost remaining = { λ s. at_most (length (to_come s)) };

    fn next(&mut self) -> Option<Recorded<'a>> {
        if self.passed >= self.size {
            return None;
        }
        let is_there = bit(self.map, usize::from(self.passed))?;
        self.passed += 1;
        if !is_there {
            return Some(Recorded::Gap);
        }
        let (frame, rest) = self
            .frames
            .split_at_checked(122)
            .unwrap_or((self.frames, &[]));
        self.frames = rest;
        Some(Recorded::Frame(frame))
    }
}
