ghost use Rattle.std.specs.Prelude.{◌≡◌, ◌+◌, ◌-◌, ◌≤◌, [], ◌++◌, length, nat_lt};
ghost use Rattle.flow.specs.Cutting.{grown, uncut, closed, padded};

use arrayvec::ArrayVec;
use framing::frame::Frame;
use framing::header::{FragmentHeader, PADDING};

/// A notional packet: the one byte of a frame that a packet's end leaves.
const NOTIONAL: u8 = 0x80;

/// The bytes of a frame that is not yet full.
#[derive(Drop)]
pub(crate) struct UnfinishedFrame {
    pub(crate) bytes: ArrayVec<u8, 122>,
}

impl UnfinishedFrame {
    /// How many bytes are written.
    pub(crate) fn len(&self) -> usize
        ensures value { result ≡ length self.now.bytes.items }
        ensures fits { result ≤ 122 }
    {
        self.bytes.len()
    }

    /// Whether the frame is full: fewer than two bytes of it are free.
    pub(crate) fn is_full(&self) -> bool
        ensures { result ≡ nat_lt 120 (length self.now.bytes.items) }
    {
        self.bytes.len() > 120
    }

    /// Cuts the next fragment off the front of `bytes`, and gives what is left to cut behind it.
    pub(crate) fn write_next<'a>(&mut self, bytes: &'a [u8]) -> &'a [u8]
        requires { length self.old.bytes.items ≤ 120 }
        ensures grows { self.new.bytes.items ≡ grown self.old.bytes.items bytes.now }
        ensures rest { result.now ≡ uncut self.old.bytes.items bytes.now }
    {
        let n = bytes.len().min(121 - self.bytes.len());
        let (body, rest) = bytes.split_at(n);
        let header = FragmentHeader {
            count: n as u8,
            last: n == bytes.len(),
        };
        self.bytes.push(header.to_byte());
        self.append(body);
        rest
    }

    /// Writes these bytes behind what is written.
    fn append(&mut self, bytes: &[u8])
        requires { length self.old.bytes.items + length bytes.now ≤ 122 }
        ensures { self.new.bytes.items ≡ self.old.bytes.items ++ bytes.now }
    {
        self.bytes.try_extend_from_slice(bytes).unwrap();
    }

    /// Gives the full frame as it is put, with a notional packet where one byte of it is free, and begins another.
    pub(crate) fn take_closed(&mut self) -> Frame
        requires { 121 ≤ length self.old.bytes.items }
        ensures frame { result.bytes ≡ closed self.old.bytes.items }
        ensures begins { self.new.bytes.items ≡ [] }
    {
        if self.bytes.len() == 121 {
            self.bytes.push(NOTIONAL);
        }
        self.take()
    }

    /// Gives the frame as it is put where padding fills its rest, and begins another.
    pub(crate) fn take_padded(&mut self) -> Frame
        requires { length self.old.bytes.items ≤ 120 }
        ensures frame { result.bytes ≡ padded self.old.bytes.items }
        ensures begins { self.new.bytes.items ≡ [] }
    {
        let header = FragmentHeader {
            count: PADDING,
            last: false,
        };
        self.bytes.push(header.to_byte());
        let used = self.len();
        self.append(&[0; 122][used..]);
        self.take()
    }

    /// Gives the frame that the bytes are, and begins another.
    fn take(&mut self) -> Frame
        requires { length self.old.bytes.items ≡ 122 }
        ensures frame { result.bytes ≡ self.old.bytes.items }
        ensures begins { self.new.bytes.items ≡ [] }
    {
        let frame = Frame::try_from(self.bytes.as_slice()).unwrap();
        self.bytes.clear();
        frame
    }
}
