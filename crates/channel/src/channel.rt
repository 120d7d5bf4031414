ghost use Rattle.std.specs.Prelude.{◌≡◌, ℕ, List};
ghost use Rattle.framing.specs.declared.slot.Slot.{Slot};
ghost use Rattle.channel.specs.Answers.{PutAnswer, TakeAnswer};
ghost use Rattle.channel.specs.Asking.{waiting};
ghost use Rattle.channel.specs.Asking.{number as full_number};
ghost use Rattle.channel.specs.Outgoings.{as_put};

use crate::sending::Outgoing;
use framing::slot::Slot;

/// The refusal of a put: the channel has no room for one more slot.
#[derive(Clone, Copy, PartialEq, Eq, Debug)]
pub struct Full;

impl Full {
    /// The number of the question that was answered no.
    pub fn number(self) -> u8
        ensures { result ≡ full_number self }
    {
        9
    }
}

/// Where frames and marks wait between a sender and a receiver. Its meaning is the list of slots that wait, and a room.
pub trait Channel {
    /// The slots that wait, the next to be taken first.
    ghost slots: { Self → List Slot };

    /// The room: how many slots may still be put.
    ghost space: { Self → ℕ };

    /// What this kind of channel may make of a frame with these bytes. Code over any channel can show it of no other frame
    /// than the one it put, so that a contract can say which frame that was.
    ghost made: { List ℕ → Slot → Type 0 };

    /// What ties the channel to what lies below it, where its meaning leans on that. The set-up of every channel gives it, where
    /// the channel below is tied, and every call keeps it.
    ghost tied: { Self → Type 0 };

    /// The room.
    fn room(&self) -> usize
        ensures { result ≡ space self.now };

    /// Whether a slot waits.
    fn waits(&self) -> bool
        ensures { result ≡ waiting (slots self.now) };

    /// Puts a frame or a mark. It is refused where the room is 0, and nothing changes then; else the room falls by one, and a mark
    /// joins the end of the list as a mark, a frame as what the channel makes of it.
    fn put(&mut self, item: &Outgoing) -> Result<(), Full>
        ensures { PutAnswer slots space made tied (as_put item.now) result self.old self.new };

    /// Takes the first slot off the list, and never lowers the room. Where no slot waits, nothing changes.
    fn take(&mut self) -> Option<Slot>
        ensures { TakeAnswer slots space tied result self.old self.new };
}
