ghost use Rattle.std.specs.Prelude.{◌≡◌, ◌<◌, ◌≤◌, [], IfOk};
ghost use Rattle.channel.specs.Sending.{Arrives};
ghost use Rattle.simulation.specs.Tapes.{kept, room_on, Behind, Taped};

use crate::noise::Noise;
use channel::channel::{Channel, Full};
use channel::sending::Outgoing;
use framing::slot::Slot;
use std::alloc::{AllocError, Global};

/// What was put, and the slot that came of it.
#[derive(Clone, Copy)]
pub(crate) struct Passage {
    pub(crate) put: Outgoing,
    pub(crate) slot: Slot,
}

/// A channel that loses frames and changes bits of fragment bodies, and keeps all that was put with what came of it. What is
/// taken stays on it too, so that its room never grows.
#[derive(Drop)]
pub(crate) struct Tape {
    /// All that was put. Its capacity is all that can be.
    passages: Vec<Passage>,
    /// How many slots were taken.
    taken: usize,
    noise: Noise,
}

impl Tape {
    /// An empty tape with room for so many slots at least.
    pub(crate) fn new(heap: Global, room: usize, noise: Noise) -> Result<Tape, AllocError>
        ensures { IfOk result (λ t. (kept t ≡ []) × (room ≤ room_on t) × Behind t) }
    {
        let passages = Vec::with_capacity(heap, room)?;
        Ok(Tape {
            passages,
            taken: 0,
            noise,
        })
    }

    /// All that was put, with what came of it.
    pub(crate) fn into_passages(self) -> Vec<Passage>
        ensures { result ≡ self.passages }
    {
        let Tape {
            passages,
            taken: _,
            noise: _,
        } = self;
        passages
    }

    fn free(&self) -> usize
        ensures { result ≡ room_on self.now }
    {
        self.passages.capacity().saturating_sub(self.passages.len())
    }

    /// Puts a passage on the tape.
    fn fill(&mut self, passage: Passage)
        requires { 0 < room_on self.old }
        ensures { Taped passage self.old self.new }
    {
        self.passages.push_reserved(passage);
    }
}

impl Channel for Tape {
    ghost slots = { kept };

    ghost space = { room_on };

    ghost made = { Arrives };

    ghost tied = { Behind };

    fn room(&self) -> usize {
        self.free()
    }

    fn waits(&self) -> bool {
        self.taken < self.passages.len()
    }

    fn put(&mut self, item: &Outgoing) -> Result<(), Full> {
        if self.free() == 0 {
            return Err(Full);
        }
        let slot = self.noise.pass(item);
        self.fill(Passage { put: *item, slot });
        Ok(())
    }

    fn take(&mut self) -> Option<Slot> {
        let passage = self.passages.get(self.taken)?;
        self.taken += 1;
        Some(passage.slot)
    }
}
