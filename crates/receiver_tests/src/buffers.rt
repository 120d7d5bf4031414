use crate::said::{NOTHING, frame, mark, plain_terms, sound};
use channel::channel::Channel;
use channel::ring::Ring;
use channel::sending::Outgoing;
use receiver::answer::BufferTooShort;
use receiver::reader::Reader;
use std::process::Abort;
use std::test::Fail;

/// Whether a buffer has these two bytes and then 0xEE to its end.
fn holds(buffer: &[u8], first: u8, second: u8) -> bool {
    match buffer {
        [a, b, rest @ ..] => *a == first && *b == second && rest.iter().all(|b| *b == 0xee),
        _ => false,
    }
}

/// Two packets and a mark, read into the front of this buffer, which has 3,000 bytes of 0xEE.
fn reads(rt: &impl Abort, buffer: &mut [u8]) -> Result<(), Fail> {
    let mut memory = [0; 492];
    let mut ring = Ring::new(&mut memory);
    let mut reader = Reader::new();
    let two_packets = frame([0x82, 0x41, 0x42, 0x81, 0x43, 0x7f], 0, 0);
    ring.put(&Outgoing::Frame(two_packets))?;
    ring.put(&Outgoing::Mark)?;
    for (len, answer, first, second) in [
        (0, Err(BufferTooShort), 0xee, 0xee),
        (2043, Err(BufferTooShort), 0xee, 0xee),
        (2044, sound(2), 0x41, 0x42),
        (2043, Err(BufferTooShort), 0x41, 0x42),
        (3000, sound(1), 0x43, 0x42),
        (2043, Err(BufferTooShort), 0x43, 0x42),
        (2045, mark(0), 0x43, 0x42),
        (3000, NOTHING, 0x43, 0x42),
    ] {
        assert!(rt; len <= buffer.len());
        let part = &mut buffer[0..len];
        assert_eq!(rt;
            reader.read(&mut ring, plain_terms(false).as_ref(), part),
            answer
        );
        assert!(rt; holds(buffer, first, second));
    }
    assert!(rt; !ring.waits());
    Ok(())
}

/// A buffer of 2,043 bytes is refused and nothing changes, and one of 2,044 is taken. What lies behind the packet stays, in a
/// longer buffer too, and an answer with no packet touches nothing.
#[test]
fn short_and_long(rt: HostRuntime) -> Result<(), Fail> {
    let mut buffer = [0xee; 3000];
    reads(&rt, &mut buffer)
}
