ghost use Rattle.std.specs.Prelude.{length};
ghost use Rattle.std.specs.Iterator.{at_most};
ghost use Rattle.std.specs.Slice.Iter.{iter_rest};

use crate::run::{Agreed, reach_of};
use crate::stretch::changed_bits;
use crate::tape::Passage;
use channel::sending::Outgoing;
use checksum::choice::ChecksumChoice;
use framing::fragments::{Fragment, Fragments};
use framing::frame::Frame;
use framing::slot::Slot;
use std::alloc::{AllocError, Global};
use std::{mem, slice};

/// A packet, with its checksum, as it lies in the frames put, and what came of it.
#[derive(Drop)]
pub(crate) struct Carried {
    /// Its bytes as they were cut.
    pub(crate) cut: Vec<u8>,
    /// Its bytes as they stand in the slots; none where a frame that it lies in became a gap.
    came: Option<Vec<u8>>,
    /// Whether a reader can know where it begins.
    start_known: bool,
    /// How many frames and marks were put when the last frame that it lies in was.
    complete_at: usize,
}

/// How much of a clear packet was changed on its way.
#[derive(Clone, Copy, PartialEq, Eq, Debug)]
pub(crate) enum Change {
    Unchanged,
    /// All within one stretch that is no longer than the checksum's reach.
    WithinReach,
    BeyondReach,
}

impl Carried {
    fn none(heap: Global) -> Carried {
        Carried {
            cut: Vec::new(heap),
            came: Some(Vec::new(heap)),
            start_known: false,
            complete_at: 0,
        }
    }

    /// A body of it was put in a frame that became this slot; its header stands at the place `at`.
    fn add_body(&mut self, at: usize, body: &[u8], passed: &Passed<'_>) -> Result<(), AllocError> {
        if self.cut.is_empty() {
            self.start_known = at != 1 || passed.tells_start;
        }
        self.cut.extend_from_slice(body)?;
        match passed.slot {
            Slot::Frame(frame) => {
                let end = at.saturating_add(body.len());
                if let (Some(came), Some(part)) = (&mut self.came, frame.bytes.get(at..end)) {
                    came.extend_from_slice(part)?;
                }
            }
            _ => self.came = None,
        }
        Ok(())
    }

    /// What a reader has to hand out of it, where it is clear: no frame that it lies in is lost, and a reader can know where it
    /// begins.
    pub(crate) fn clear(&self) -> Option<Clear<'_>> {
        if !self.start_known {
            return None;
        }
        self.came.as_ref().map(|came| Clear {
            cut: self.cut.as_slice(),
            came: came.as_slice(),
            complete_at: self.complete_at,
        })
    }
}

/// A clear packet, with its checksum.
#[derive(Clone, Copy)]
pub(crate) struct Clear<'a> {
    /// Its bytes as they were cut.
    cut: &'a [u8],
    /// Its bytes as they stand in the slots.
    pub(crate) came: &'a [u8],
    /// How many frames and marks were put when the last frame that it lies in was.
    pub(crate) complete_at: usize,
}

impl Clear<'_> {
    /// How much of it was changed on its way.
    pub(crate) fn change(self, checksum: ChecksumChoice) -> Change {
        let stretch = changed_bits(self.cut, self.came);
        if stretch == 0 {
            Change::Unchanged
        } else if stretch <= reach_of(checksum) {
            Change::WithinReach
        } else {
            Change::BeyondReach
        }
    }
}

/// What came of a frame that was put, and what its place says.
#[derive(Clone, Copy)]
struct Passed<'a> {
    slot: &'a Slot,
    /// Whether a reader can know where a packet begins whose first fragment is the first of this frame.
    tells_start: bool,
    /// How many frames and marks were put by then.
    number: usize,
}

/// All packets that lie in the frames put.
#[derive(Drop)]
pub(crate) struct Packets {
    /// Those whose end was put, in order.
    pub(crate) whole: Vec<Carried>,
    /// What was put of the next one.
    pub(crate) begun: Carried,
    /// How many frames were put that are not lawful.
    pub(crate) unlawful: usize,
}

impl Packets {
    /// The clear ones of those whose end was put.
    fn clear(&self) -> ClearOnes<'_> {
        ClearOnes(self.whole.iter())
    }

    /// A frame was put.
    fn add_frame(
        &mut self,
        heap: Global,
        frame: &Frame,
        passed: &Passed<'_>,
    ) -> Result<(), AllocError> {
        let Ok(fragments) = Fragments::of(&frame.bytes) else {
            self.unlawful = self.unlawful.saturating_add(1);
            return Ok(());
        };
        for fragment in fragments {
            if let Fragment::Body { at, body, last } = fragment {
                self.begun.add_body(at, body, passed)?;
                if last {
                    self.begun.complete_at = passed.number;
                    let whole = mem::replace(&mut self.begun, Carried::none(heap));
                    self.whole.push(whole)?;
                }
            }
        }
        Ok(())
    }
}

/// The clear ones among packets, in order. (A type of its own, since no function hands out a chain with a closure in it.)
#[derive(Drop)]
struct ClearOnes<'a>(slice::Iter<'a, Carried>);

impl<'a> Iterator for ClearOnes<'a> {
    type Item = Clear<'a>;

    ghost remaining = { λ s. at_most (length (iter_rest s.0)) };

    fn next(&mut self) -> Option<Clear<'a>> {
        self.0.find_map(|packet| packet.clear())
    }
}

/// What came before the frame in question.
#[derive(Clone, Copy, Default)]
struct Before {
    /// Whether there is a frame before, marks passed over, and it is a gap.
    gap: bool,
    /// Whether a mark comes directly before.
    mark: bool,
}

impl Before {
    /// Whether a packet whose first fragment is the first of its frame has a beginning that can be known.
    fn tells_start(self, fasb: bool) -> bool {
        !self.gap || (!fasb && self.mark)
    }
}

/// All that was put with what came of it, and the packets that lie in it.
#[derive(Drop)]
pub(crate) struct Carriage {
    pub(crate) terms: Agreed,
    pub(crate) passages: Vec<Passage>,
    pub(crate) packets: Packets,
}

/// Finds the packets in what was put: the bodies of all frames, in order, fall into groups, each ended by its last mark.
fn packets_in(heap: Global, passages: &[Passage], fasb: bool) -> Result<Packets, AllocError> {
    let mut packets = Packets {
        whole: Vec::new(heap),
        begun: Carried::none(heap),
        unlawful: 0,
    };
    let mut before = Before::default();
    for (number, passage) in (1..).zip(passages.iter()) {
        match passage.put {
            Outgoing::Mark => before.mark = true,
            Outgoing::Frame(frame) => {
                let passed = Passed {
                    slot: &passage.slot,
                    tells_start: before.tells_start(fasb),
                    number,
                };
                packets.add_frame(heap, &frame, &passed)?;
                before = Before {
                    gap: matches!(passage.slot, Slot::Gap),
                    mark: false,
                };
            }
        }
    }
    Ok(packets)
}

impl Carriage {
    /// What these passages carry.
    pub(crate) fn of(
        heap: Global,
        passages: Vec<Passage>,
        terms: Agreed,
    ) -> Result<Carriage, AllocError> {
        let packets = packets_in(heap, passages.as_slice(), terms.fasb)?;
        Ok(Carriage {
            terms,
            passages,
            packets,
        })
    }

    /// How many of the first `put` frames and marks became gaps.
    pub(crate) fn gaps(&self, put: usize) -> usize {
        self.passages
            .iter()
            .take(put)
            .filter(|passage| matches!(passage.slot, Slot::Gap))
            .count()
    }

    /// How many packets were complete when so many frames and marks had been put.
    pub(crate) fn complete(&self, put: usize) -> usize {
        let whole = self.packets.whole.iter();
        whole.filter(|packet| packet.complete_at <= put).count()
    }

    /// How many of these were clear.
    pub(crate) fn clear(&self, put: usize) -> usize {
        let clear = self.packets.clear();
        clear.filter(|packet| packet.complete_at <= put).count()
    }

    /// The clear packet that comes so many behind the first.
    pub(crate) fn clear_at(&self, index: usize) -> Option<Clear<'_>> {
        self.packets.clear().nth(index)
    }

    /// Whether a clear packet was changed so much.
    pub(crate) fn has(&self, change: Change) -> bool {
        let checksum = self.terms.checksum;
        let mut clear = self.packets.clear();
        clear.any(|packet| packet.change(checksum) == change)
    }
}
