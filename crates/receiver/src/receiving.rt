ghost use Rattle.std.specs.Prelude.{◌≡◌, ◌≤◌, [], IfSome};
ghost use Rattle.framing.specs.Fragments.{fragments_from};
ghost use Rattle.receiver.specs.Folding.{Folds};
ghost use Rattle.receiver.specs.Reading.{gathered as openBytes, dropped as heldBytes, seeking, next_number, after_mark, dropped_at_mark, new_reader, reading};
ghost use Rattle.receiver.specs.Taking.{Leaves};
ghost use Rattle.receiver.specs.Telling.{told_by, Received, Ends, Fitting};
ghost use Rattle.receiver.specs.Views.{view, standing_of, hand_in, Rests};

use crate::reader::Reader;
use crate::state::{READ_OUT, State};
use crate::told::{Loss, Told};
use arrayvec::ArrayVec;
use channel::channel::Channel;
use framing::frame::Frame;
use framing::judging::judge;
use framing::slot::Slot;

impl Reader {
    /// A reader at the beginning: aligned, with nothing in hand.
    #[tactic(auto, using(crate::proofs::Folds::folds))]
    pub fn new() -> Reader
        ensures begins { view result ≡ new_reader }
        ensures folds { Folds (view result) }
    {
        Reader {
            state: State::Aligned { next: READ_OUT },
            gathered: ArrayVec::new(),
            frame: Frame { bytes: [0; 122] },
            number: 0,
        }
    }

    /// How many bytes the reader has of a packet whose end it has not seen; none where no packet is open.
    fn open_len(&self) -> Option<u16>
        ensures { result ≡ openBytes (standing_of self.now) }
    {
        match self.state {
            // At most 2,048 bytes are gathered, so nothing is lost.
            State::Gathering => Some(self.gathered.len() as u16),
            _ => None,
        }
    }

    /// How many gathered bytes a slot lets go, where it drops them.
    fn held_len(&self) -> u16
        ensures { result ≡ heldBytes (standing_of self.now) }
    {
        self.open_len().unwrap_or(0)
    }

    /// Counts a frame or a gap, and gives its number.
    fn count(&mut self) -> u16
        ensures counts { (result ≡ next_number self.old.number) × (self.new.number ≡ next_number self.old.number) }
        ensures same { (self.new.state ≡ self.old.state) × (self.new.gathered ≡ self.old.gathered) × (self.new.frame ≡ self.old.frame) }
    {
        self.number = self.number.saturating_add(1);
        self.number
    }

    /// The index of the next header in the frame in hand.
    fn hand_at(&self) -> usize
        ensures rests { Rests self.now.state result }
        ensures unread { fragments_from self.now.frame.bytes result ≡ hand_in self.now.state self.now.frame.bytes }
    {
        match self.state {
            State::Aligned { next } => next,
            _ => READ_OUT,
        }
    }

    /// A frame did not come through: it is counted, the gathered bytes are dropped, and the reader seeks.
    fn lose(&mut self) -> Loss
        ensures tells { (result.frame ≡ next_number self.old.number) × (result.dropped ≡ heldBytes (standing_of self.old)) }
        ensures after { view self.new ≡ record { standing = seeking; number = next_number self.old.number; in_hand = [] } }
    {
        let held = self.held_len();
        self.state = State::Seeking;
        Loss {
            frame: self.count(),
            dropped: held,
        }
    }

    /// A superframe ended: the numbering begins anew, and where no packet crosses superframes, the gathered bytes are dropped
    /// and the reader is aligned. Gives how many bytes were dropped.
    fn pass_mark(&mut self, fasb: bool) -> u16
        requires { hand_in self.old.state self.old.frame.bytes ≡ [] }
        ensures tells { result ≡ dropped_at_mark fasb (standing_of self.old) }
        ensures after { view self.new ≡ record { standing = after_mark fasb (standing_of self.old); number = 0; in_hand = [] } }
    {
        self.number = 0;
        if fasb {
            return 0;
        }
        let dropped = self.held_len();
        self.state = State::Aligned { next: READ_OUT };
        dropped
    }

    /// Takes a lawful frame in hand.
    fn hold(&mut self, frame: Frame)
        ensures same { standing_of self.new ≡ standing_of self.old }
        ensures counts { self.new.number ≡ next_number self.old.number }
        ensures holds { (self.new.frame ≡ frame) × Rests self.new.state 0 }
    {
        self.frame = frame;
        self.count();
        if let State::Aligned { .. } = self.state {
            self.state = State::Aligned { next: 0 };
        }
    }

    /// Takes a slot, with nothing in hand: tells what there is to tell of it, or takes a lawful frame in hand, of which there is
    /// nothing to tell yet. A torn frame counts as a gap.
    // Mode and width are handed down and not the terms: frames are judged by these alone, whatever the checksum and the service.
    fn receive(&mut self, slot: Slot, fasb: bool, width: u8) -> Option<Told>
        requires { hand_in self.old.state self.old.frame.bytes ≡ [] }
        ensures { Received fasb width self.old slot result self.new }
    {
        match slot {
            Slot::Mark => {
                let dropped = self.pass_mark(fasb);
                Some(Told::Mark { dropped })
            }
            Slot::Gap => Some(Told::Lost(self.lose())),
            Slot::Frame(frame) => match judge(&frame, self.open_len(), width) {
                Ok(()) => {
                    self.hold(frame);
                    None
                }
                Err(torn) => Some(Told::Torn(self.lose(), torn)),
            },
        }
    }

    /// Goes on, through the frame in hand and then slot by slot, until there is one thing to tell, or no slot waits.
    pub(crate) fn next_told<C: Channel>(
        &mut self,
        channel: &mut C,
        fasb: bool,
        width: u8,
    ) -> Option<Told>
        requires { width ≤ 4 }
        ensures ends { Ends (reading fasb width (view self.old) (C.slots channel.old)) (C.slots channel.old) (told_by result self.new.gathered.items) self.new (C.slots channel.new) }
        ensures fits { IfSome result (λ t. Fitting width t self.new.gathered.items) }
        ensures leaves { Leaves C.space C.tied (reading fasb width (view self.old) (C.slots channel.old)).taken channel.old channel.new }
    {
        let mut at = self.hand_at();
        loop {
            if self.advance(at) {
                return Some(Told::Packet);
            }
            let slot = channel.take()?;
            if let Some(told) = self.receive(slot, fasb, width) {
                return Some(told);
            }
            at = 0;
        }
    }
}
