use channel::channel::Channel;
use channel::pattern::FadePattern;
use channel::pile::twice_faded;
use channel::sending::{Outgoing, put_all};
use framing::frame::Frame;
use framing::slot::Slot;
use std::test::Fail;

/// A frame filled with this byte.
fn filled(byte: u8) -> Frame {
    Frame { bytes: [byte; 122] }
}

#[test]
fn through_two_fades(rt: HostRuntime) -> Result<(), Fail> {
    let mut memory = [0; 750];
    let mut lower = FadePattern::new();
    let mut upper = FadePattern::new();
    assert!(rt; lower.prepare(&[]).is_err() && lower.prepare(&memory[0..65]).is_err());
    lower.prepare(&[0b1111_1101])?;
    upper.prepare(&[0b1111_0111, 0xFF])?;
    let mut pile = twice_faded(&mut memory, lower, upper);
    assert_eq!(rt; pile.room(), 6);
    pile.put(&Outgoing::Frame(filled(0)))?;
    pile.put(&Outgoing::Mark)?;
    let late = Outgoing::Frame(filled(4));
    let items = [
        Outgoing::Frame(filled(1)),
        Outgoing::Frame(filled(2)),
        Outgoing::Mark,
        late,
        late,
    ];
    assert_eq!(rt; put_all(&mut pile, &items), 4);
    for expected in [
        Slot::Frame(filled(0)),
        Slot::Mark,
        Slot::Gap,
        Slot::Frame(filled(2)),
        Slot::Mark,
        Slot::Gap,
    ] {
        assert_eq!(rt; pile.take(), Some(expected));
    }
    assert_eq!(rt; pile.take(), None);
    assert_eq!(rt; pile.room(), 6);
    Ok(())
}
