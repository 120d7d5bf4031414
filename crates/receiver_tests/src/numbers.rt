use crate::said::{Answer, NOTHING, ask, frame, lost, mark, torn};
use channel::channel::Channel;
use channel::fade::Fade;
use channel::pattern::FadePattern;
use channel::ring::Ring;
use channel::sending::Outgoing;
use framing::fault::FrameFault;
use receiver::reader::Reader;
use std::test::Fail;

/// What is answered to slot k of a superframe, counted from 0, where the first of every three frames is lost, the second is
/// torn and the third is all padding.
fn expected(k: u32) -> Answer {
    let number = u16::try_from(k.saturating_add(1)).unwrap_or(u16::MAX);
    match k % 3 {
        0 => lost(number, 0),
        1 => torn(number, 0, FrameFault::CountOutOfRange, 1),
        _ => NOTHING,
    }
}

/// Frames and gaps are numbered from 1 up to 65,535, where the number stays, and from 1 again after a mark.
#[test]
fn up_to_the_last_number(rt: HostRuntime) -> Result<(), Fail> {
    assert_eq!(rt; FrameFault::CountOutOfRange.number(), 11);
    let mut memory = [0; 123];
    let mut pattern = FadePattern::new();
    pattern.prepare(&[0b1011_0110, 0b0110_1101, 0b1101_1011])?;
    let mut fade = Fade::over(Ring::new(&mut memory), pattern);
    let mut reader = Reader::new();
    for k in 0..65_541u32 {
        let header = if k % 3 == 1 { 0x7a } else { 0x7f };
        fade.put(&Outgoing::Frame(frame([header, 0, 0, 0, 0, 0], 0, 0)))?;
        assert_eq!(rt; ask(&mut reader, &mut fade, true), expected(k), "{}", k);
    }
    fade.put(&Outgoing::Mark)?;
    assert_eq!(rt; ask(&mut reader, &mut fade, true), mark(0));
    fade.put(&Outgoing::Frame(frame([0x7f, 0, 0, 0, 0, 0], 0, 0)))?;
    assert_eq!(rt; ask(&mut reader, &mut fade, true), lost(1, 0));
    Ok(())
}
