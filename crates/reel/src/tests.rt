use crate::blocks::Blocks;
use crate::checking;
use crate::counting::{Contents, count};
use crate::fault::{BlockFault, ReelFault};
use crate::playing::ReelChannel;
use crate::slots::Recorded;
use channel::channel::Channel;
use channel::fade::Fade;
use channel::pattern::FadePattern;
use channel::sending::Outgoing;
use framing::slot::Slot;
use std::process::Abort;

/// A check answers that the block at this place has this fault.
fn refused(rt: &impl Abort, reel: &[u8], fault: BlockFault, at: usize) {
    assert_eq!(rt; checking::check(reel), Err(ReelFault { fault, at }));
}

#[test]
fn verdicts(rt: HostRuntime) {
    assert_eq!(rt; checking::check(&[]), Ok(()));
    assert_eq!(rt; checking::check(&[1, 0]), Ok(()));
    assert_eq!(rt; checking::check(&[8, 0, 9, 0, 0]), Ok(()));
    refused(&rt, &[0], BlockFault::SuperframeSize, 1);
    refused(&rt, &[201, 0], BlockFault::SuperframeSize, 1);
    refused(&rt, &[1], BlockFault::Map, 1);
    refused(&rt, &[9, 0], BlockFault::Map, 1);
    refused(&rt, &[2, 4], BlockFault::Map, 1);
    refused(&rt, &[1, 0, 9, 0, 2], BlockFault::Map, 3);
    refused(&rt, &[1, 1, 7], BlockFault::Frames, 1);
    refused(&rt, &[1, 0, 2, 3], BlockFault::Frames, 3);
}

/// The first byte of each frame and a 1 for each gap, as digits of a number.
fn digits(reel: &[u8]) -> Result<u32, ReelFault> {
    let mut all = 0u32;
    for block in Blocks::of(reel) {
        for slot in block?.slots() {
            let digit = match slot {
                Recorded::Frame([first, ..]) => *first,
                Recorded::Frame([]) => 0,
                Recorded::Gap => 1,
            };
            all = all.wrapping_mul(10).wrapping_add(u32::from(digit));
        }
    }
    Ok(all)
}

/// Two superframes: a frame, a gap and a frame; a gap.
#[test]
fn walk(rt: HostRuntime) {
    let mut reel = [7u8; 248];
    reel[0] = 3;
    reel[1] = 0b101;
    reel[124] = 9;
    reel[246] = 1;
    reel[247] = 0;
    let counted = Contents {
        superframes: 2,
        frames: 2,
        gaps: 2,
    };
    assert_eq!(rt; count(&reel), Ok(counted));
    assert_eq!(rt; digits(&reel), Ok(7191));
}

/// What a channel gives until nothing waits, as digits: the first byte of each frame, 1 for a gap and 0 for a mark.
fn taken<C: Channel>(channel: &mut C) -> u32 {
    let mut all = 0u32;
    for _ in 0..8 {
        let digit = match channel.take() {
            Some(Slot::Frame(frame)) => frame.bytes[0],
            Some(Slot::Gap) => 1,
            Some(Slot::Mark) => 0,
            None => return all,
        };
        all = all.wrapping_mul(10).wrapping_add(u32::from(digit));
    }
    all
}

/// The same two superframes, and then a block with a spare bit.
#[test]
fn channel(rt: HostRuntime) {
    let mut reel = [7u8; 250];
    reel[0] = 3;
    reel[1] = 0b101;
    reel[124] = 9;
    reel[246] = 1;
    reel[247] = 0;
    reel[248] = 2;
    reel[249] = 4;
    let mut whole = ReelChannel::over(&reel);
    assert!(rt; whole.waits() && whole.room() == 0 && whole.put(&Outgoing::Mark).is_err());
    assert_eq!(rt; taken(&mut whole), 719010);
    let fault = BlockFault::Map;
    assert_eq!(rt; whole.stop(), Some(ReelFault { fault, at: 249 }));
    assert!(rt; !whole.waits());
    let mut pattern = FadePattern::new();
    let _ = pattern.prepare(&[0b1110]);
    let mut faded = Fade::over(ReelChannel::over(&reel), pattern);
    assert_eq!(rt; taken(&mut faded), 119010);
}
