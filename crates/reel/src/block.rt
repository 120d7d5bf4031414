ghost use Rattle.std.specs.Prelude.{◌≡◌, ℕ, ◌-◌, ◌/◌, List, length, None};
ghost use Rattle.reel.specs.Block.{refusal};
ghost use Rattle.reel.specs.Counting.{frame_count as frames_there, gap_count as frames_lost};
ghost use Rattle.reel.specs.Parts.{held, Parts};

/// A block of a reel, the record of one superframe, as parts of the reel's bytes.
#[derive(Clone, Copy, PartialEq, Eq, Debug)]
pub struct Block<'a> {
    /// The place of the block's first byte in the reel, counted from 1.
    pub at: usize,
    /// How many frames and gaps the superframe has.
    pub size: u8,
    /// A bit for each of them, set for a frame and clear for a gap; bit 1, the lowest, of the first byte belongs to the first.
    pub map: &'a [u8],
    /// The frames, 122 bytes each.
    pub frames: &'a [u8],
}

impl Block<'_> {
    /// How many of the superframe's frames are there.
    pub fn frame_count(self) -> usize
        ensures bytes { result ≡ length self.entry.frames.now / 122 }
        ensures lawful { (bytes : List ℕ) (place : ℕ) → refusal bytes ≡ None → Parts bytes place self.entry → result ≡ frames_there (held self.entry) }
    {
        self.frames.len() / 122
    }

    /// How many of the superframe's frames were lost.
    pub fn gap_count(self) -> usize
        ensures bytes { result ≡ self.entry.size - length self.entry.frames.now / 122 }
        ensures lawful { (bytes : List ℕ) (place : ℕ) → refusal bytes ≡ None → Parts bytes place self.entry → result ≡ frames_lost (held self.entry) }
    {
        usize::from(self.size).saturating_sub(self.frame_count())
    }
}
