use crate::reply::Reply;
use crate::running::{Outcome, run_steps};
use crate::step::Step;
use channel::channel::Channel;
use channel::ring::Ring;
use checksum::crc16::Crc16;
use receiver::terms::Terms;
use service::plain::Plain;
use std::alloc::{AllocError, Global};
use std::test::Fail;

/// A reply in short: the number of a refusal, or 0; 20 where no token was in hand; the room; 30 and 31 for whether a slot waits; and
/// how many readings a drain took, above 100.
fn in_short(reply: &Reply) -> usize {
    match reply {
        Reply::Opening(Ok(())) | Reply::Offer(Ok(())) | Reply::Closed => 0,
        Reply::Opening(Err(fault)) => usize::from(fault.number()),
        Reply::Offer(Err(fault)) => usize::from(fault.number()),
        Reply::NoToken => 20,
        Reply::Read(answered) => match answered.answer {
            Ok(_) => answered.packet.len(),
            Err(_) => 8,
        },
        Reply::Drained(answers) => 100 + answers.len().min(99),
        Reply::Room(room) => *room,
        Reply::Waits(waits) => 30 + usize::from(*waits),
    }
}

const TERMS: Terms<Crc16, Plain> = Terms {
    checksum: Crc16,
    service: Plain,
    fasb: false,
};

/// What the steps answered, in short, and whether a slot waits once the session has ended.
fn run_short<C: Channel + Drop>(
    heap: Global,
    channel: C,
    steps: &[Step],
) -> Result<(Vec<usize>, bool), AllocError> {
    let Outcome {
        session,
        replies,
        done,
    } = run_steps(heap, channel, TERMS, 7, steps);
    let waits = session.end().into_channel().waits();
    done?;
    let mut short = Vec::new(heap);
    for reply in replies.iter() {
        short.push(in_short(reply))?;
    }
    Ok((short, waits))
}

#[test]
fn a_script_goes_on_past_refusals(rt: HostRuntime) -> Result<(), Fail> {
    let heap = rt.alloc();
    let mut memory = [0; 1107];
    let steps = [
        Step::Close,
        Step::Open { frames: 9 },
        Step::Open { frames: 2 },
        Step::Open { frames: 2 },
        Step::Offer {
            packet: [65; 200].to_vec(heap)?,
        },
        Step::Offer {
            packet: [66; 40].to_vec(heap)?,
        },
        Step::Room,
        Step::Close,
        Step::Offer {
            packet: [67; 1].to_vec(heap)?,
        },
        Step::Waits,
        Step::Read { buffer_len: 2043 },
        Step::Read { buffer_len: 2044 },
        Step::Drain,
        Step::Waits,
    ];
    let (short, waits) = run_short(heap, Ring::new(&mut memory), &steps)?;
    let wanted: &[usize] = &[20, 3, 0, 1, 0, 7, 8, 0, 20, 31, 8, 200, 102, 30];
    assert!(rt; short.as_slice() == wanted);
    assert!(rt; !waits);
    Ok(())
}

#[test]
fn an_open_superframe_is_closed_at_the_end(rt: HostRuntime) -> Result<(), Fail> {
    let heap = rt.alloc();
    let mut memory = [0; 1107];
    let (short, waits) = run_short(
        heap,
        Ring::new(&mut memory),
        &[Step::Open { frames: 1 }, Step::Drain],
    )?;
    let wanted: &[usize] = &[0, 101];
    assert!(rt; short.as_slice() == wanted);
    assert!(rt; waits);
    Ok(())
}
