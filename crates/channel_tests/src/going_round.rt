use channel::channel::Channel;
use channel::ring::Ring;
use channel::sending::Outgoing;
use framing::frame::Frame;
use framing::slot::Slot;
use std::process::Abort;
use std::test::Fail;

/// Puts so many frames, the first filled with the byte `from`, the next with the byte after it and so on.
fn put_some(ring: &mut Ring, from: u8, count: u8) -> Result<(), Fail> {
    for i in 0..count {
        ring.put(&Outgoing::Frame(Frame {
            bytes: [from.wrapping_add(i); 122],
        }))?;
    }
    Ok(())
}

/// Takes so many frames, which come as they were put.
fn take_some(rt: &impl Abort, ring: &mut Ring, from: u8, count: u8) {
    for i in 0..count {
        let byte = from.wrapping_add(i);
        let filled = Frame { bytes: [byte; 122] };
        assert_eq!(rt; ring.take(), Some(Slot::Frame(filled)));
    }
}

/// A ring over this memory is filled, drained by half and filled again, so that it goes round, and drained.
fn goes_round(rt: &impl Abort, memory: &mut [u8], capacity: u8) -> Result<(), Fail> {
    let mut ring = Ring::new(memory);
    assert_eq!(rt; ring.room(), usize::from(capacity));
    assert!(rt; !ring.waits());
    let half = capacity / 2;
    for _ in 0..3 {
        put_some(&mut ring, 0, capacity)?;
        assert!(rt; ring.put(&Outgoing::Mark).is_err());
        take_some(rt, &mut ring, 0, half);
        assert_eq!(rt; ring.room(), usize::from(half));
        put_some(&mut ring, capacity, half)?;
        assert_eq!(rt; ring.room(), 0);
        take_some(rt, &mut ring, half, capacity);
        assert!(rt; ring.take().is_none());
    }
    Ok(())
}

#[test]
fn at_every_capacity(rt: HostRuntime) -> Result<(), Fail> {
    let lengths = [
        (0, 0),
        (122, 0),
        (123, 1),
        (124, 1),
        (245, 1),
        (246, 2),
        (369, 3),
        (492, 4),
        (615, 5),
    ];
    for (length, capacity) in lengths {
        let mut memory = [0xA5; 620];
        assert!(rt; length <= 615);
        goes_round(&rt, &mut memory[0..length], capacity)?;
        let spare = 123 * usize::from(capacity);
        assert!(rt; spare <= 615);
        assert_eq!(rt; memory[spare], 0xA5, "past the last whole slot");
    }
    Ok(())
}
