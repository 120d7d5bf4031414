ghost use Rattle.std.specs.Prelude.{◌≡◌, length, IfOk, OnErr};
ghost use Rattle.channel.specs.Asking.{waiting};
ghost use Rattle.receiver.specs.Folding.{Folds};
ghost use Rattle.receiver.specs.Reading.{new_reader};
ghost use Rattle.receiver.specs.Readings.{refusal, buffer_question, side, comes, Reads};
ghost use Rattle.receiver.specs.Taking.{Leaves};
ghost use Rattle.receiver.specs.Views.{view};

use crate::answer::{BufferTooShort, Reading};
use crate::reader::Reader;
use crate::terms::Terms;
use channel::channel::Channel;
use checksum::checksum::Checksum;
use service::service::Service;

/// The reading side of a flow over a channel of its own, for a channel that is only read, as a recording.
#[derive(Drop)]
pub struct Receiver<C, K, S> {
    channel: C,
    terms: Terms<K, S>,
    reader: Reader,
}

impl<C: Channel, K: Checksum, S: Service> Receiver<C, K, S> {
    /// A receiver at the beginning: aligned, with nothing in hand.
    pub fn over(channel: C, terms: Terms<K, S>) -> Receiver<C, K, S>
        ensures parts { (result.channel ≡ channel) × (result.terms ≡ terms) }
        ensures begins { view result.reader ≡ new_reader }
        ensures folds { Folds (view result.reader) }
    {
        Receiver {
            channel,
            terms,
            reader: Reader::new(),
        }
    }

    /// One reading. It asks whether the buffer is at least 2,044 bytes long, and then goes on, slot by slot, until one answer is
    /// due. Only a packet that is sound, damaged or foreign fills the front of the buffer. A refusal changes nothing.
    #[inline(always)]
    pub fn read(&mut self, buffer: &mut [u8]) -> Result<Reading, BufferTooShort>
        ensures asks { refusal result ≡ buffer_question (length buffer.old) }
        ensures same { OnErr result ((self.new ≡ self.old) × (buffer.new ≡ buffer.old)) }
        ensures reads { IfOk result (λ a. Reads self.old.terms.fasb K.width K.value (S.verdict self.old.terms.service) (side (view self.old.reader) (C.slots self.old.channel) buffer.old) a (side (view self.new.reader) (C.slots self.new.channel) buffer.new)) }
        ensures stays { self.new.terms ≡ self.old.terms }
        ensures leaves { Leaves C.space C.tied (comes self.old.terms.fasb K.width (side (view self.old.reader) (C.slots self.old.channel) buffer.old)).taken self.old.channel self.new.channel }
    {
        self.reader
            .read(&mut self.channel, self.terms.as_ref(), buffer)
    }

    /// The room of the channel.
    pub fn room(&self) -> usize
        ensures { result ≡ C.space self.now.channel }
    {
        self.channel.room()
    }

    /// Whether a slot waits on the channel.
    pub fn waits(&self) -> bool
        ensures { result ≡ waiting (C.slots self.now.channel) }
    {
        self.channel.waits()
    }

    /// Gives the channel back, with the slots that still wait on it.
    pub fn into_channel(self) -> C
    where
        K: Drop,
        S: Drop,
        ensures { result ≡ self.channel }
    {
        let Receiver {
            channel,
            terms: _,
            reader: _,
        } = self;
        channel
    }
}
