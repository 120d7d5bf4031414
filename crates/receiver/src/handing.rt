ghost use Rattle.std.specs.Prelude.{◌≡◌, ◌+◌, ◌≤◌, length, if◌then◌else◌, Some, None};
ghost use Rattle.service.specs.Serving.{verdict_of};
ghost use Rattle.receiver.specs.Answering.{answered};
ghost use Rattle.receiver.specs.Readings.{said, said_length, packet_length, filled};
ghost use Rattle.receiver.specs.declared.answer.Reading.TheVariants.{Sound, Damaged, Foreign};

use crate::answer::Reading;
use crate::terms::Terms;
use checksum::checksum::Checksum;
use service::service::{NotAdmitted, Service};

impl<K: Checksum, S: Service> Terms<&K, &S> {
    /// Answers for a packet that was received to its end, its checksum behind it. Unless it is short, it is handed out at the
    /// front of the buffer.
    pub(crate) fn hand_out(self, received: &[u8], buffer: &mut [u8]) -> Reading
        requires { length received.now ≤ length buffer.old + K.width }
        ensures answers { said result buffer.new ≡ answered K.width K.value (S.verdict self.entry.service.now) received.now }
        ensures lengths { said_length result ≡ packet_length (answered K.width K.value (S.verdict self.entry.service.now) received.now) }
        ensures fills { buffer.new ≡ filled (answered K.width K.value (S.verdict self.entry.service.now) received.now) buffer.old }
    {
        let width = self.checksum.value_len();
        if received.len() <= width {
            return Reading::Short;
        }
        let (packet, value) = received.split_at(received.len() - width);
        buffer[..packet.len()].copy_from_slice(packet);
        let fits = self.checksum.fits(packet, value);
        named(fits, self.service.admit(packet), packet.len())
    }
}

/// The answer for a packet of this length that is handed out: that it is damaged comes before that it is foreign.
fn named(fits: bool, admitted: Result<(), NotAdmitted>, len: usize) -> Reading
    ensures { result ≡ (if fits then (elim (verdict_of admitted) [ None ↦ Sound len | Some n ↦ Foreign n len ]) else Damaged len) }
{
    if !fits {
        return Reading::Damaged { len };
    }
    match admitted {
        Ok(()) => Reading::Sound { len },
        Err(refused) => Reading::Foreign {
            number: refused.number,
            len,
        },
    }
}
