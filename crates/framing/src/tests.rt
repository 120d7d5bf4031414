use crate::fragments::{Fragment, Fragments, FragmentsFault};
use crate::frame::Frame;
use crate::header::FragmentHeader;
use crate::judging::judge;
use std::test::Fail;

/// A frame that begins with these bytes and then has zeros.
fn frame(front: &[u8]) -> Frame {
    let mut bytes = [0; 122];
    for (place, b) in bytes.iter_mut().zip(front) {
        *place = *b;
    }
    Frame { bytes }
}

/// The number and the place by which a frame is torn, if it is.
fn torn(frame: &Frame, gathered: Option<u16>, width: u8) -> Option<(u8, usize)> {
    let torn = judge(frame, gathered, width).err()?;
    Some((torn.fault.number(), torn.at))
}

#[test]
fn headers(rt: HostRuntime) {
    let header = FragmentHeader::from_byte(0xf9);
    assert_eq!(rt; header.count, 121);
    assert!(rt; header.last);
    assert_eq!(rt; header.to_byte(), 0xf9);
    assert_eq!(rt;
        FragmentHeader {
            count: 3,
            last: false,
        }
        .to_byte(),
        3
    );
}

#[test]
fn questions(rt: HostRuntime) {
    assert_eq!(rt; torn(&frame(&[0x81, 0x41, 0x7f]), None, 0), None);
    assert_eq!(rt; torn(&frame(&[0x81, 0x41, 0x7a]), None, 0), Some((11, 3)));
    assert_eq!(rt; torn(&frame(&[0x81, 0x41, 0xff]), None, 0), Some((12, 3)));
    assert_eq!(rt;
        torn(&frame(&[0x81, 0x41, 0x7f, 1]), None, 0),
        Some((14, 3))
    );
    assert_eq!(rt; torn(&frame(&[0x7f]), None, 0), None);
    assert_eq!(rt; torn(&frame(&[0x7f]), Some(1), 0), Some((15, 1)));
    assert_eq!(rt; torn(&frame(&[0x80]), None, 0), Some((16, 1)));
    assert_eq!(rt; torn(&frame(&[0xfa]), None, 0), Some((11, 1)));
    assert_eq!(rt; torn(&frame(&[0x81, 0, 0xf9]), None, 0), Some((17, 3)));
    assert_eq!(rt; torn(&frame(&[0x01, 0x41, 0x7f]), None, 0), Some((18, 1)));
    assert_eq!(rt; torn(&frame(&[0x79]), Some(1923), 0), None);
    assert_eq!(rt; torn(&frame(&[0x79]), Some(1924), 0), Some((19, 1)));
    assert_eq!(rt; torn(&frame(&[0x79]), Some(1925), 2), None);
    assert_eq!(rt; torn(&frame(&[0x79]), Some(1926), 2), Some((19, 1)));
}

#[test]
fn last_byte(rt: HostRuntime) {
    let mut full = frame(&[0xf8]);
    full.bytes[121] = 0x80;
    assert_eq!(rt; torn(&full, None, 0), None);
    full.bytes[121] = 0x7f;
    assert_eq!(rt; torn(&full, None, 0), Some((13, 122)));
    full.bytes[121] = 0x00;
    assert_eq!(rt; torn(&full, None, 0), Some((16, 122)));
}

#[test]
fn one_at_a_time(rt: HostRuntime) -> Result<(), Fail> {
    let bytes = frame(&[0x81, 0x41, 0x82, 0x42, 0x43, 0x7f]).bytes;
    let mut fragments = Fragments::of(&bytes)?;
    let Some(Fragment::Body { at, body, last }) = fragments.next() else {
        return Err(Fail::new("no first body"));
    };
    assert!(rt; at == 1 && body.len() == 1 && last);
    let Some(Fragment::Body { at, body, last }) = fragments.next() else {
        return Err(Fail::new("no second body"));
    };
    assert!(rt; at == 3 && body.len() == 2 && last);
    assert_eq!(rt; fragments.next(), Some(Fragment::Padding { at: 6 }));
    assert_eq!(rt; fragments.next(), None);
    assert_eq!(rt; Fragments::of(&bytes[1..]), Err(FragmentsFault::NotAFrame));
    Ok(())
}
