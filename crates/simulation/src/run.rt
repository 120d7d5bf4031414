use checksum::choice::ChecksumChoice;
use receiver::terms::Terms;
use service::choice::ServiceChoice;

/// What a packet was handed out as. (`report` has a verdict too, with the service's number in it, which the law doesn't speak of; and
/// nothing else of that crate has a place here.)
#[derive(Clone, Copy, PartialEq, Eq, Debug)]
pub(crate) enum Verdict {
    Sound,
    Damaged,
    Foreign,
}

/// What a reading answered, so far as the law speaks of it.
#[derive(Drop)]
pub(crate) enum Heard {
    HandedOut { verdict: Verdict, packet: Vec<u8> },
    Lost,
    Torn,
    Short,
    Mark,
    Nothing,
}

/// An answer, and the moment of it: how many packets had been accepted by then, and how many frames and marks had been put.
#[derive(Drop)]
pub(crate) struct Note {
    pub(crate) accepted: usize,
    pub(crate) put: usize,
    pub(crate) heard: Heard,
}

/// A run as a caller sees it: the packets whose offers were accepted, in order, and the answers of the readings.
#[derive(Drop)]
pub(crate) struct Run {
    pub(crate) accepted: Vec<Vec<u8>>,
    pub(crate) notes: Vec<Note>,
}

/// The terms on which a script is run.
pub(crate) type Agreed = Terms<ChecksumChoice, ServiceChoice>;

// The two numbers stand here again, and are not asked of the checksums, so that their code is compared with another hand's.

/// The bytes of a checksum.
pub(crate) fn width_of(checksum: ChecksumChoice) -> usize {
    match checksum {
        ChecksumChoice::Without => 0,
        ChecksumChoice::Crc16 => 2,
    }
}

/// The bits of a stretch within which a checksum detects every change.
pub(crate) fn reach_of(checksum: ChecksumChoice) -> usize {
    match checksum {
        ChecksumChoice::Without => 0,
        ChecksumChoice::Crc16 => 16,
    }
}
