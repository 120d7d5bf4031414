ghost use Rattle.std.specs.Prelude.{◌≤◌};

use crate::numbers::{low_byte, low_half};
use receiver::answer::Reading;

/// What is put down of a run: it stands at the front of a buffer that C hands in, where no vector of the library's can lie.
pub(crate) struct Trace<'a> {
    buffer: &'a mut [u8],
    len: usize,
}

impl<'a> Trace<'a> {
    /// A trace with nothing put down yet.
    pub(crate) fn over(buffer: &'a mut [u8]) -> Trace<'a> {
        Trace { buffer, len: 0 }
    }

    /// Puts `bytes` down behind the others, where they fit.
    pub(crate) fn put(&mut self, bytes: &[u8])
        ensures { self.old.len ≤ self.new.len }
    {
        let end = self.len.saturating_add(bytes.len());
        if let Some(place) = self.buffer.get_mut(self.len..end) {
            place.copy_from_slice(bytes);
            self.len = end;
        }
    }

    /// Puts down an answer, and the packet that it handed out.
    pub(crate) fn put_answer(&mut self, answer: Reading, buffer: &[u8])
        ensures { self.old.len ≤ self.new.len }
    {
        self.put(&Entry::from(answer).bytes());
        if let Reading::Sound { len }
        | Reading::Damaged { len }
        | Reading::Foreign { len, .. } = answer
        {
            self.put(&buffer[..len.min(buffer.len())]);
        }
    }

    /// How many bytes were put down.
    pub(crate) fn end(self) -> usize {
        let Trace { buffer: _, len } = self;
        len
    }
}

/// One answer in numbers. Those that it does not have are 0.
#[derive(Clone, Copy, Default)]
struct Entry {
    /// Which answer it is, counted in the order of `Reading`.
    answer: u8,
    /// The service's number, or the question's.
    number: u8,
    /// The place of the header.
    at: u8,
    /// The frame's number.
    frame: u16,
    /// The packet's length, or how many bytes were dropped.
    len: u16,
}

impl Entry {
    /// With these numbers alone.
    fn of(answer: u8, len: u16) -> Entry {
        Entry {
            answer,
            len,
            ..Entry::default()
        }
    }

    /// As it is put down, the low byte of a number first.
    fn bytes(self) -> [u8; 7] {
        let [frame_low, frame_high] = self.frame.to_le_bytes();
        let [len_low, len_high] = self.len.to_le_bytes();
        [
            self.answer,
            self.number,
            self.at,
            frame_low,
            frame_high,
            len_low,
            len_high,
        ]
    }
}

impl From<Reading> for Entry {
    fn from(answer: Reading) -> Entry {
        match answer {
            Reading::Sound { len } => Entry::of(1, low_half(len)),
            Reading::Damaged { len } => Entry::of(2, low_half(len)),
            Reading::Foreign { number, len } => Entry {
                number,
                ..Entry::of(3, low_half(len))
            },
            Reading::Short => Entry::of(4, 0),
            Reading::Lost { frame, dropped } => Entry {
                frame,
                ..Entry::of(5, dropped)
            },
            Reading::Torn {
                frame,
                dropped,
                torn,
            } => Entry {
                number: torn.fault.number(),
                at: low_byte(torn.at),
                frame,
                ..Entry::of(6, dropped)
            },
            Reading::Mark { dropped } => Entry::of(7, dropped),
            Reading::Nothing => Entry::of(8, 0),
        }
    }
}
