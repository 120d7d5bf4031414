ghost use Rattle.std.specs.Prelude.{◌≡◌};
ghost use Rattle.receiver.specs.Readings.{number as short_number};

use framing::fault::Torn;

/// What a reading answers. A packet that is handed out stands at the front of the buffer, without its checksum, as received.
#[derive(Clone, Copy, PartialEq, Eq, Debug)]
pub enum Reading {
    /// A packet of this length, whose checksum fits and which the service admits.
    Sound {
        len: usize,
    },
    /// A packet of this length, whose checksum does not fit.
    Damaged {
        len: usize,
    },
    /// A packet of this length, whose checksum fits and which the service refuses under this number.
    // A number and no enum of ours: each service has refusals of its own, and numbers them itself.
    Foreign {
        number: u8,
        len: usize,
    },
    /// A packet with no more bytes than the checksum has. It is not handed out.
    Short,
    /// A frame was lost: its number, and how many gathered bytes were dropped.
    Lost {
        frame: u16,
        dropped: u16,
    },
    /// A frame is torn: its number, how many gathered bytes were dropped, why it is torn, and at which header.
    Torn {
        frame: u16,
        dropped: u16,
        torn: Torn,
    },
    /// A superframe ended: how many gathered bytes were dropped.
    Mark {
        dropped: u16,
    },
    /// No slot waits, and the frame in hand is read out.
    Nothing,
}

/// The refusal of a reading: the buffer has less than 2,044 bytes, the length of the longest packet.
#[derive(Clone, Copy, PartialEq, Eq, Debug)]
pub struct BufferTooShort;

impl BufferTooShort {
    /// The number of the question that was answered no.
    pub fn number(self) -> u8
        ensures { result ≡ short_number self }
    {
        8
    }
}
