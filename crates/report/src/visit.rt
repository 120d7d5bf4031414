ghost use Rattle.std.specs.Prelude.{◌≡◌};
ghost use Rattle.report.specs.Complete.{frame_total, whole_frames, complete};

use crate::entry::Entry;
use crate::totals::Totals;
use reel::block::Block;
use reel::counting::Surveyed;
use std::fmt;

/// What is to be done with what a reel shows, in the order in which it is shown. An error ends the walk.
pub trait Visitor {
    /// A superframe begins, the one of this number, counted from 1.
    fn superframe(&mut self, number: u64, block: Block<'_>) -> fmt::Result;

    /// An entry of that superframe; where it is a packet, these are its bytes, else there are none. They stand beside the entry, which
    /// so is plain data: the totals and the lines on it keep no hold on the buffer.
    fn entry(&mut self, entry: Entry, packet: &[u8]) -> fmt::Result;

    /// The superframe ends.
    fn superframe_end(&mut self) -> fmt::Result;
}

/// To whom it is told how far the reading of a reel is. It is no closure: a walk promises what it does for every visitor and every
/// `Progress`, and would have to ask of a closure that it may always be called.
pub trait Progress {
    /// The reel is read up to this byte.
    fn passed(&mut self, at: usize);
}

/// Nobody.
#[derive(Clone, Copy, PartialEq, Eq, Debug)]
pub struct Silent;

impl Progress for Silent {
    fn passed(&mut self, _at: usize) {}
}

/// What a whole reel came to.
#[derive(Clone, Copy, PartialEq, Eq, Debug)]
pub struct Outcome {
    /// What stands on the reel, up to its end or its first fault, and that fault.
    pub surveyed: Surveyed,
    /// What was read of it.
    pub totals: Totals,
    /// The bytes of a packet inside which the reel ended, where packets may cross superframes; 0 where it ended in none, as the
    /// catalogue prints it.
    pub open_at_end: u16,
}

impl Outcome {
    /// All frames, those that were lost among them.
    pub fn frames(&self) -> u128
        ensures { result ≡ frame_total self.now }
    {
        let contents = self.surveyed.contents;
        contents.gaps.saturating_add(contents.frames as u128)
    }

    /// The frames that are neither lost nor torn.
    pub fn whole(&self) -> u64
        ensures { result ≡ whole_frames self.now }
    {
        (self.surveyed.contents.frames as u64).saturating_sub(self.totals.torn)
    }

    /// Is every frame whole and every packet sound, up to the reel's end?
    pub fn is_complete(&self) -> bool
        ensures { result ≡ complete self.now }
    {
        let totals = self.totals;
        self.surveyed.fault.is_none()
            && self.surveyed.contents.gaps == 0
            && totals.torn == 0
            && totals.packets() == totals.sound
            && totals.unfinished == 0
    }
}
