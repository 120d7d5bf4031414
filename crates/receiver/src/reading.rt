ghost use Rattle.std.specs.Prelude.{◌≡◌, ◌≤◌, ◌++◌, length, IfOk, OnErr};
ghost use Rattle.receiver.specs.Readings.{refusal, buffer_question, said, said_length, packet_length, filled, side, comes, due, Reads};
ghost use Rattle.receiver.specs.Taking.{Leaves};
ghost use Rattle.receiver.specs.Views.{view};

use crate::answer::{BufferTooShort, Reading};
use crate::reader::Reader;
use crate::terms::Terms;
use crate::told::{Loss, Told};
use channel::channel::Channel;
use checksum::checksum::Checksum;
use framing::judging::PACKET_MAX;
use service::service::Service;

impl Reader {
    /// One reading: it asks whether the buffer is at least 2,044 bytes long, and then goes on, slot by slot, until one answer is
    /// due. Only a packet that is sound, damaged or foreign fills the front of the buffer. A refusal changes nothing.
    // Here and below: a reading of a packet of few bytes would else take half as long again for putting its answer down and taking it up.
    #[inline(always)]
    pub fn read<C: Channel, K: Checksum, S: Service>(
        &mut self,
        channel: &mut C,
        terms: Terms<&K, &S>,
        buffer: &mut [u8],
    ) -> Result<Reading, BufferTooShort>
        ensures asks { refusal result ≡ buffer_question (length buffer.old) }
        ensures same { OnErr result ((self.new ≡ self.old) × (channel.new ≡ channel.old) × (buffer.new ≡ buffer.old)) }
        ensures reads { IfOk result (λ a. Reads terms.entry.fasb K.width K.value (S.verdict terms.entry.service.now) (side (view self.old) (C.slots channel.old) buffer.old) a (side (view self.new) (C.slots channel.new) buffer.new)) }
        ensures leaves { Leaves C.space C.tied (comes terms.entry.fasb K.width (side (view self.old) (C.slots channel.old) buffer.old)).taken channel.old channel.new }
    {
        if buffer.len() < PACKET_MAX {
            return Err(BufferTooShort);
        }
        Ok(self.read_on(channel, terms, buffer))
    }

    /// The same, into a buffer that is long enough.
    #[inline(always)]
    fn read_on<C: Channel, K: Checksum, S: Service>(
        &mut self,
        channel: &mut C,
        terms: Terms<&K, &S>,
        buffer: &mut [u8],
    ) -> Reading
        requires { 2044 ≤ length buffer.old }
        ensures answers { said result buffer.new ≡ due terms.entry.fasb K.width K.value (S.verdict terms.entry.service.now) (side (view self.old) (C.slots channel.old) buffer.old) }
        ensures lengths { said_length result ≡ packet_length (due terms.entry.fasb K.width K.value (S.verdict terms.entry.service.now) (side (view self.old) (C.slots channel.old) buffer.old)) }
        ensures fills { buffer.new ≡ filled (due terms.entry.fasb K.width K.value (S.verdict terms.entry.service.now) (side (view self.old) (C.slots channel.old) buffer.old)) buffer.old }
        ensures stands { view self.new ≡ (comes terms.entry.fasb K.width (side (view self.old) (C.slots channel.old) buffer.old)).reader }
        ensures takes { C.slots channel.old ≡ (comes terms.entry.fasb K.width (side (view self.old) (C.slots channel.old) buffer.old)).taken ++ C.slots channel.new }
        ensures leaves { Leaves C.space C.tied (comes terms.entry.fasb K.width (side (view self.old) (C.slots channel.old) buffer.old)).taken channel.old channel.new }
    {
        // No checksum is wider than 4 bytes, so nothing is lost.
        let width = terms.checksum.value_len() as u8;
        match self.next_told(channel, terms.fasb, width) {
            Some(Told::Packet) => terms.hand_out(self.gathered.as_slice(), buffer),
            Some(Told::Lost(Loss { frame, dropped })) => Reading::Lost { frame, dropped },
            Some(Told::Torn(Loss { frame, dropped }, torn)) => Reading::Torn {
                frame,
                dropped,
                torn,
            },
            Some(Told::Mark { dropped }) => Reading::Mark { dropped },
            None => Reading::Nothing,
        }
    }
}
