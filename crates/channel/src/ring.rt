ghost use Rattle.std.specs.Prelude.{◌≡◌, ◌/◌, ◌<◌, [], length, IfSome, MatchOption, OnOk};
ghost use Rattle.channel.specs.Answers.{PutAnswer, TakeAnswer};
ghost use Rattle.channel.specs.Outgoings.{as_put, as_slot};
ghost use Rattle.channel.specs.Rings.{capacity, slot_at, place_behind, kept, room_in, RingTied, Unchanged, OnlyAt, Pushed, Popped};

use crate::channel::{Channel, Full};
use crate::sending::Outgoing;
use framing::frame::Frame;
use framing::slot::Slot;

/// The bytes that a slot takes in the memory: one that tells a frame from a mark, and the frame's.
const SLOT: usize = 123;

/// The first byte of a slot that is a frame.
const FRAME: u8 = 0;

/// The first byte of a slot that is a mark.
const MARK: u8 = 1;

/// A channel that keeps its slots in handed-in memory, and loses and changes nothing. A slot takes 123 bytes, and what is left
/// over at the end of the memory is never touched.
// A queue in a row of bytes, since a channel uses only the memory that it is handed.
#[derive(Drop)]
pub struct Ring<'a> {
    memory: &'a mut [u8],
    /// The place of the first slot that waits, where the last place of the memory is followed by place 0 again.
    first: usize,
    /// How many slots wait.
    count: usize,
}

impl<'a> Ring<'a> {
    /// An empty ring over this memory.
    pub fn new(memory: &'a mut [u8]) -> Ring<'a>
        ensures empty { kept result ≡ [] }
        ensures free { room_in result ≡ length memory.old / 123 }
        ensures memory { result.memory ≡ memory.entry }
        ensures ties { RingTied result }
    {
        Ring {
            memory,
            first: 0,
            count: 0,
        }
    }
}

impl Ring<'_> {
    /// How many slots the memory holds.
    pub fn capacity(&self) -> usize
        ensures { result ≡ capacity self.now.memory.now }
    {
        self.memory.len() / SLOT
    }

    /// How many slots wait.
    fn waiting(&self) -> usize
        ensures { result ≡ length (kept self.now) }
    {
        self.count.min(self.capacity())
    }

    /// The place that is `i` behind the first slot, going round at the end of the memory.
    fn place(&self, i: usize) -> usize
        requires { i < capacity self.now.memory.now }
        ensures { result ≡ place_behind self.now i }
    {
        let capacity = self.capacity();
        (self.first % capacity + i) % capacity
    }

    /// The slot at a place of the memory.
    fn load(&self, place: usize) -> Slot
        requires { place < capacity self.now.memory.now }
        ensures { result ≡ slot_at self.now.memory.now place }
    {
        let at = place * SLOT;
        if self.memory[at] != FRAME {
            return Slot::Mark;
        }
        Slot::Frame(Frame::try_from(&self.memory[at + 1..at + SLOT]).unwrap())
    }

    /// Takes the first slot off.
    // `take` is this, which says what becomes of the ring, and answers besides as every channel does.
    fn pop(&mut self) -> Option<Slot>
        ensures { MatchOption result ((kept self.old ≡ []) × (self.new ≡ self.old)) (λ s. Popped s self.old self.new) }
    {
        let count = self.waiting();
        if count == 0 {
            return None;
        }
        let first = self.first % self.capacity();
        let slot = self.load(first);
        self.first = first + 1;
        self.count = count - 1;
        Some(slot)
    }
}

/// Writes a frame or a mark at a place of the memory.
fn store(memory: &mut [u8], place: usize, item: &Outgoing)
    requires { place < capacity memory.old }
    ensures holds { slot_at memory.new place ≡ as_slot item.now }
    ensures elsewhere { OnlyAt place memory.old memory.new }
{
    let at = place * SLOT;
    match item {
        Outgoing::Frame(frame) => {
            memory[at] = FRAME;
            memory[at + 1..at + SLOT].copy_from_slice(&frame.bytes);
        }
        Outgoing::Mark => memory[at] = MARK,
    }
}

impl Channel for Ring<'_> {
    ghost slots = { kept };

    ghost space = { room_in };

    ghost made = { Unchanged };

    ghost tied = { λ _. Unit {0} };

    fn room(&self) -> usize {
        self.capacity() - self.waiting()
    }

    fn waits(&self) -> bool {
        self.waiting() > 0
    }

    fn put(&mut self, item: &Outgoing) -> Result<(), Full>
        ensures answers { PutAnswer kept room_in Unchanged (λ _. Unit {0}) (as_put item.now) result self.old self.new }
        ensures exact { OnOk result (Pushed (as_slot item.now) self.old self.new) }
    {
        if self.room() == 0 {
            return Err(Full);
        }
        let count = self.count;
        let place = self.place(count);
        store(self.memory, place, item);
        self.count = count + 1;
        Ok(())
    }

    fn take(&mut self) -> Option<Slot>
        ensures answers { TakeAnswer kept room_in (λ _. Unit {0}) result self.old self.new }
        ensures exact { IfSome result (λ s. Popped s self.old self.new) }
    {
        self.pop()
    }
}
