use crate::said::{Answer, NOTHING, ask, frame, sound};
use channel::channel::Channel;
use channel::ring::Ring;
use channel::sending::Outgoing;
use framing::fault::Torn;
use framing::frame::Frame;
use receiver::answer::Reading;
use receiver::reader::Reader;
use std::test::Fail;

/// What a new reader answers to this frame, after one that leaves a packet of 121 bytes open, or alone.
fn first_answer(after_open: bool, frame: Frame) -> Result<Answer, Fail> {
    let mut memory = [0; 246];
    let mut ring = Ring::new(&mut memory);
    let mut reader = Reader::new();
    if after_open {
        ring.put(&Outgoing::Frame(Frame { bytes: [0x79; 122] }))?;
    }
    ring.put(&Outgoing::Frame(frame))?;
    Ok(ask(&mut reader, &mut ring, false))
}

/// What is said of a torn frame, as a table has it: its number, the bytes dropped, the question's number, and the header's place.
fn torn(answer: Answer) -> Option<(u16, u16, u8, usize)> {
    match answer {
        Ok(
            Reading::Torn {
                frame,
                dropped,
                torn: Torn { fault, at },
            },
        ) => Some((frame, dropped, fault.number(), at)),
        _ => None,
    }
}

/// Each question at its header's place, for a reader with no packet open and for one with 121 bytes of a packet.
#[test]
fn at_its_place(rt: HostRuntime) -> Result<(), Fail> {
    for (front, fill, last, number, at) in [
        ([0x7a, 0, 0, 0, 0, 0], 0, 0, 11, 1),
        ([0xfe, 0, 0, 0, 0, 0], 0, 0, 11, 1),
        ([0x81, 0x41, 0xfa, 0, 0, 0], 0, 0, 11, 3),
        ([0xff, 0, 0, 0, 0, 0], 0, 0, 12, 1),
        ([0x83, 1, 2, 3, 0xff, 1], 0, 0, 12, 5),
        ([0xf8, 0, 0, 0, 0, 0], 5, 0x7f, 13, 122),
        ([0x81, 0x41, 0x7f, 1, 0, 0], 0, 0, 14, 3),
        ([0x7f, 0, 0, 0, 0, 0], 0, 1, 14, 1),
        ([0x80, 0, 0, 0, 0, 0], 0, 0, 16, 1),
        ([0x00, 0, 0, 0, 0, 0], 0, 0, 16, 1),
        ([0x82, 0x41, 0x42, 0x80, 0, 0], 0, 0, 16, 4),
        ([0xf8, 0, 0, 0, 0, 0], 5, 0x00, 16, 122),
        ([0x81, 0x41, 0xf9, 0, 0, 0], 0, 0, 17, 3),
        ([0x81, 0x41, 0x79, 0, 0, 0], 0, 0, 17, 3),
        ([0x01, 0x41, 0x7f, 0, 0, 0], 0, 0, 18, 1),
        ([0x78, 0, 0, 0, 0, 0], 0, 0x80, 18, 1),
        ([0x81, 0x41, 0x02, 1, 2, 0x7f], 0, 0, 18, 3),
    ] {
        let bad = frame(front, fill, last);
        assert_eq!(rt; torn(first_answer(false, bad)?), Some((1, 0, number, at)));
        assert_eq!(rt; torn(first_answer(true, bad)?), Some((2, 121, number, at)));
    }
    Ok(())
}

/// Padding in byte 1 is torn by question 15 only where a packet is open. In byte 3 it never is.
#[test]
fn padding_with_a_packet_open(rt: HostRuntime) -> Result<(), Fail> {
    let padding = frame([0x7f, 0, 0, 0, 0, 0], 0, 0);
    assert_eq!(rt; first_answer(false, padding)?, NOTHING);
    assert_eq!(rt; torn(first_answer(true, padding)?), Some((2, 121, 15, 1)));
    let later = frame([0x81, 0x41, 0x7f, 0, 0, 0], 0, 0);
    assert_eq!(rt; first_answer(false, later)?, sound(1));
    assert_eq!(rt; first_answer(true, later)?, sound(122));
    Ok(())
}
