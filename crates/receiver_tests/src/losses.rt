use crate::said::{Answer, NOTHING, ask, frame, lost, mark, sound, torn};
use channel::fade::Fade;
use channel::pattern::FadePattern;
use channel::ring::Ring;
use channel::sending::{Outgoing, put_all};
use framing::fault::FrameFault;
use framing::frame::Frame;
use receiver::reader::Reader;
use std::process::Abort;
use std::test::Fail;

/// Reads these over a fade with this pattern, and compares answer by answer.
fn answers(
    rt: &impl Abort,
    fasb: bool,
    pattern: u8,
    items: &[Outgoing],
    expected: &[Answer],
) -> Result<(), Fail> {
    let mut memory = [0; 1230];
    let mut fades = FadePattern::new();
    fades.prepare(&[pattern])?;
    let mut fade = Fade::over(Ring::new(&mut memory), fades);
    assert!(rt; put_all(&mut fade, items) == items.len());
    let mut reader = Reader::new();
    for (i, answer) in expected.iter().enumerate() {
        assert_eq!(rt; ask(&mut reader, &mut fade, fasb), *answer, "{}", i);
    }
    Ok(())
}

/// A frame that is one body of 121 bytes, with the last mark or without.
fn full(header: u8) -> Outgoing {
    let mut bytes = [0x55; 122];
    bytes[0] = header;
    Outgoing::Frame(Frame { bytes })
}

/// A packet of 2 bytes, one of 1 byte, and padding.
fn two_packets() -> Outgoing {
    Outgoing::Frame(frame([0x82, 0x41, 0x42, 0x81, 0x43, 0x7f], 0, 0))
}

/// At a mark an open packet is dropped, or crosses it; a reader that seeks is aligned, or seeks on.
#[test]
fn at_a_mark(rt: HostRuntime) -> Result<(), Fail> {
    let open = [full(0x79), full(0x79), Outgoing::Mark, two_packets()];
    answers(
        &rt,
        false,
        0xff,
        &open,
        &[mark(242), sound(2), sound(1), NOTHING],
    )?;
    answers(
        &rt,
        true,
        0xff,
        &open,
        &[mark(0), sound(244), sound(1), NOTHING],
    )?;
    answers(
        &rt,
        false,
        0b1111_1101,
        &open,
        &[lost(2, 121), mark(0), sound(2), sound(1), NOTHING],
    )?;
    answers(
        &rt,
        true,
        0b1111_1101,
        &open,
        &[lost(2, 121), mark(0), sound(1), NOTHING],
    )
}

/// What a gap or a torn frame lets go is counted; what is skipped while seeking and a torn frame's own bytes are not.
#[test]
fn dropped_bytes(rt: HostRuntime) -> Result<(), Fail> {
    assert_eq!(rt; FrameFault::MisplacedNotional.number(), 16);
    let empty = Outgoing::Frame(frame([0x85, 1, 2, 3, 4, 5], 0, 0));
    let items = [
        full(0x79),
        full(0x79),
        full(0x79),
        full(0x79),
        empty,
        full(0x79),
        empty,
        two_packets(),
    ];
    answers(
        &rt,
        false,
        0b1111_1011,
        &items,
        &[
            lost(3, 242),
            torn(5, 0, FrameFault::MisplacedNotional, 7),
            torn(7, 0, FrameFault::MisplacedNotional, 7),
            sound(1),
            NOTHING,
        ],
    )?;
    answers(
        &rt,
        false,
        0b0111_1111,
        &items,
        &[
            torn(5, 484, FrameFault::MisplacedNotional, 7),
            torn(7, 0, FrameFault::MisplacedNotional, 7),
            lost(8, 0),
            NOTHING,
        ],
    )
}

/// A notional packet gives no answer, whether the reader is aligned or seeks.
#[test]
fn notional_packets(rt: HostRuntime) -> Result<(), Fail> {
    let notional = Outgoing::Frame(frame([0xf8, 1, 2, 3, 4, 5], 6, 0x80));
    let items = [
        full(0x79),
        notional,
        notional,
        two_packets(),
        Outgoing::Mark,
    ];
    answers(
        &rt,
        true,
        0xff,
        &items,
        &[sound(241), sound(120), sound(2), sound(1), mark(0), NOTHING],
    )?;
    answers(
        &rt,
        true,
        0b1111_1110,
        &items,
        &[lost(1, 0), sound(120), sound(2), sound(1), mark(0), NOTHING],
    )
}
