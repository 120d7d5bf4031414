ghost use Rattle.std.specs.Prelude.{◌≡◌, ◌≤◌, false, length, IfOk, OnErr};
ghost use Rattle.checksum.specs.Choosing.{width_by, value_by};
ghost use Rattle.checksum.specs.declared.choice.ChecksumChoice.TheVariants.{Crc16 as crc16};
ghost use Rattle.reel.specs.Playing.{waiting_slots};
ghost use Rattle.receiver.specs.Readings.{refusal, buffer_question, side, Reads};
ghost use Rattle.receiver.specs.Views.{view};
ghost use Rattle.service.specs.Choosing.{refuses_by};
ghost use Rattle.service.specs.declared.choice.ServiceChoice.TheVariants.{Sync};

use checksum::choice::ChecksumChoice;
use checksum::crc16::Crc16;
use checksum::none::NoChecksum;
use receiver::answer::{BufferTooShort, Reading};
use receiver::reader::Reader;
use receiver::terms::Terms;
use reel::playing::ReelChannel;
use service::choice::ServiceChoice;

/// How a reel is to be read. Nothing on the reel itself says so. These are the receiver's `Terms` with both choices, as a type of its
/// own, since only a type of this crate can be given what it reads by and a default here.
#[derive(Clone, Copy, PartialEq, Eq, Debug)]
pub struct Settings {
    /// Whether packets may cross superframes.
    pub fasb: bool,
    pub checksum: ChecksumChoice,
    pub service: ServiceChoice,
}

/// Those of the museum's own recordings.
impl Default for Settings {
    ghost is_default = { λ s. s ≡ record { fasb = false; checksum = crc16; service = Sync } };

    fn default() -> Settings {
        Settings {
            fasb: false,
            checksum: ChecksumChoice::Crc16,
            service: ServiceChoice::Sync,
        }
    }
}

impl Settings {
    /// The terms that they name, with the checksum, which is a type.
    fn terms<K>(self, checksum: K) -> Terms<K, ServiceChoice>
        ensures { result ≡ record { checksum = checksum; service = self.service; fasb = self.fasb } }
    {
        Terms {
            checksum,
            service: self.service,
            fasb: self.fasb,
        }
    }

    /// One reading under these settings.
    pub fn read(
        self,
        reader: &mut Reader,
        channel: &mut ReelChannel<'_>,
        buffer: &mut [u8],
    ) -> Result<Reading, BufferTooShort>
        ensures asks { refusal result ≡ buffer_question (length buffer.old) }
        ensures same { OnErr result ((reader.new ≡ reader.old) × (channel.new ≡ channel.old) × (buffer.new ≡ buffer.old)) }
        ensures reads { IfOk result (λ a. Reads self.fasb (width_by self.checksum) (value_by self.checksum) (refuses_by self.service) (side (view reader.old) (waiting_slots channel.old) buffer.old) a (side (view reader.new) (waiting_slots channel.new) buffer.new)) }
    {
        // A reader is told its checksum by a type: each choice is a reading of its own.
        match self.checksum {
            ChecksumChoice::Without => reader.read(
                channel,
                self.terms(NoChecksum).as_ref(),
                buffer,
            ),
            ChecksumChoice::Crc16 => reader.read(channel, self.terms(Crc16).as_ref(), buffer),
        }
    }
}
