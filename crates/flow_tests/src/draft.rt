use std::alloc::{AllocError, Global};
use std::test::Fail;

/// The longest packet of the tests, one byte longer than any that is accepted.
pub(crate) const LONGEST: usize = 2045;

/// The bytes that packets are cut from.
pub(crate) fn bytes(heap: Global) -> Result<Vec<u8>, AllocError> {
    let mut data = Vec::new(heap);
    for i in 0..2200u32 {
        data.push(((i * i / 7 + i % 251) & 0xff) as u8)?;
    }
    Ok(data)
}

/// The packet of this length: the first bytes of the data, from a place that depends on the length.
pub(crate) fn packet(data: &[u8], len: usize) -> &[u8] {
    let start = len % 89;
    if len <= LONGEST && start + len <= data.len() {
        &data[start..start + len]
    } else {
        &data[0..0]
    }
}

/// The value of CRC-16, bit by bit: x^16 + x^12 + x^5 + 1, from 0xFFFF, the highest bit of a byte first. It is written out here, and
/// not taken from the crate `checksum`, so that the flow is compared with another hand's values.
pub(crate) fn crc16(bytes: &[u8]) -> [u8; 2] {
    let mut register = 0xffffu16;
    for b in bytes {
        for bit in 0..8u32 {
            let enters = (b >> (7 - bit)) & 1 == 1;
            let leaves = register >> 15 == 1;
            register = (register & 0x7fff) << 1;
            if enters != leaves {
                register ^= 0x1021;
            }
        }
    }
    register.to_be_bytes()
}

/// A draft: what the rules give, worked out byte by byte, the bytes of all frames of all superframes in a row.
#[derive(Drop)]
pub(crate) struct Draft {
    pub(crate) bytes: Vec<u8>,
    /// Where the frames of the open superframe end.
    limit: usize,
}

impl Draft {
    pub(crate) fn new(heap: Global) -> Draft {
        Draft {
            bytes: Vec::new(heap),
            limit: 0,
        }
    }

    /// Opens a superframe of `n` frames. What was written past the end of the last one is carried over into it.
    pub(crate) fn open(&mut self, n: usize) {
        self.limit = self.limit.saturating_add(n.saturating_mul(122));
    }

    /// Writes a string down: a header wherever a body begins, and 0x80 where its end leaves one byte of a frame.
    fn write(&mut self, string: &[u8]) -> Result<(), AllocError> {
        let mut body = 0usize;
        for (i, b) in string.iter().enumerate() {
            if body == 0 {
                let left = string.len().saturating_sub(i);
                body = left.min(121 - self.bytes.len() % 122);
                let last = if body == left { 0x80 } else { 0 };
                self.bytes.push(body as u8 | last)?;
            }
            self.bytes.push(*b)?;
            body = body.saturating_sub(1);
        }
        if self.bytes.len() % 122 == 121 {
            self.bytes.push(0x80)?;
        }
        Ok(())
    }

    /// The number by which an offer is refused, or none where it is written down. `string` is the packet and its checksum.
    pub(crate) fn offer(
        &mut self,
        fasb: bool,
        len: usize,
        string: &[u8],
    ) -> Result<Option<u8>, AllocError> {
        if !(1..=2044).contains(&len) {
            return Ok(Some(5));
        }
        let before = self.bytes.len();
        if before >= self.limit {
            return Ok(Some(7));
        }
        self.write(string)?;
        if !fasb && self.bytes.len() > self.limit {
            self.bytes.truncate(before);
            return Ok(Some(7));
        }
        Ok(None)
    }

    /// Fills what is left of the superframe with padding.
    pub(crate) fn close(&mut self) -> Result<(), AllocError> {
        let from = self.bytes.len();
        for i in from..self.limit {
            let begins = i == from || i % 122 == 0;
            self.bytes.push(if begins { 0x7f } else { 0 })?;
        }
        Ok(())
    }
}

/// The draft against bytes worked out by hand: frames, length of the packet, a place counted from 0, and the byte there.
#[test]
fn by_hand(rt: HostRuntime) -> Result<(), Fail> {
    let data = bytes(rt.alloc())?;
    for (n, len, place, byte) in [
        (1, 1, 0, 0x81),
        (1, 1, 2, 0x7f),
        (1, 119, 0, 0xf7),
        (1, 119, 120, 0x7f),
        (1, 120, 0, 0xf8),
        (1, 120, 121, 0x80),
        (1, 121, 0, 0xf9),
        (2, 121, 122, 0x7f),
        (2, 122, 0, 0x79),
        (2, 122, 122, 0x81),
        (2, 122, 124, 0x7f),
        (2, 241, 122, 0xf8),
        (2, 241, 243, 0x80),
        (2, 242, 122, 0xf9),
        (17, 2044, 1952, 0xec),
        (17, 2044, 2061, 0x7f),
    ] {
        let mut draft = Draft::new(rt.alloc());
        draft.open(n);
        assert_eq!(rt;
            draft.offer(false, len, packet(data.as_slice(), len))?,
            None
        );
        draft.close()?;
        assert_eq!(rt; draft.bytes.as_slice().get(place), Some(&byte));
    }
    assert_eq!(rt; crc16(b"123456789"), [0x29, 0xb1]);
    Ok(())
}
