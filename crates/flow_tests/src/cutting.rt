use crate::draft::{Draft, bytes, crc16, packet};
use crate::sending::send;
use channel::channel::Channel;
use channel::ring::Ring;
use checksum::checksum::Checksum;
use checksum::choice::ChecksumChoice;
use checksum::crc16::Crc16;
use checksum::none::NoChecksum;
use flow::faults::OpenFault;
use flow::flow::Flow;
use framing::slot::Slot;
use receiver::terms::Terms;
use service::plain::Plain;
use service::service::Service;
use std::alloc::Global;
use std::process::Abort;
use std::test::Fail;

/// The lengths at which something changes: none and too long, and around one and two frames and the longest packet.
const LENGTHS: [usize; 17] = [
    0, 1, 2, 118, 119, 120, 121, 122, 123, 240, 241, 242, 243, 244, 2043, 2044, 2045,
];

/// Superframes of `n` frames, to each of which packets of these lengths, cut from the data, are offered in turn.
#[derive(Clone, Copy)]
struct Plan<'a> {
    data: &'a [u8],
    checksum: ChecksumChoice,
    fasb: bool,
    n: usize,
    rounds: usize,
    lens: &'a [usize],
}

/// A plan without a checksum, where no packet crosses superframes.
fn plain_plan<'a>(data: &'a [u8], n: usize, rounds: usize, lens: &'a [usize]) -> Plan<'a> {
    Plan {
        data,
        checksum: ChecksumChoice::Without,
        fasb: false,
        n,
        rounds,
        lens,
    }
}

/// The packet of this length with its checksum behind it, as the draft has it.
fn string(heap: Global, plan: Plan, len: usize) -> Result<Vec<u8>, Fail> {
    let packet = packet(plan.data, len);
    let mut string = packet.to_vec(heap)?;
    if plan.checksum == ChecksumChoice::Crc16 {
        string.extend_from_slice(&crc16(packet))?;
    }
    Ok(string)
}

/// Does all of the plan in a draft. Gives the draft, and the number that answers each offer.
fn drafted(heap: Global, plan: Plan) -> Result<(Draft, Vec<Option<u8>>), Fail> {
    let mut draft = Draft::new(heap);
    let mut answers = Vec::new(heap);
    for _ in 0..plan.rounds {
        draft.open(plan.n);
        for len in plan.lens {
            let bytes = string(heap, plan, *len)?;
            answers.push(draft.offer(plan.fasb, *len, bytes.as_slice())?)?;
        }
        draft.close()?;
    }
    Ok((draft, answers))
}

/// Sends all superframes of the plan.
fn send_all<C: Channel, K: Checksum, S: Service>(
    flow: &mut Flow<C, K, S>,
    plan: Plan,
    answers: &mut Vec<Option<u8>>,
) -> Result<(), OpenFault> {
    for _ in 0..plan.rounds {
        send(flow, plan.n, plan.data, plan.lens, answers)?;
    }
    Ok(())
}

/// Does all of the plan with a flow under this checksum over a ring in this memory. Gives the ring.
fn sent<'a, K: Checksum + Drop>(
    checksum: K,
    plan: Plan,
    memory: &'a mut [u8],
    answers: &mut Vec<Option<u8>>,
) -> Result<Ring<'a>, OpenFault> {
    let terms = Terms {
        checksum,
        service: Plain,
        fasb: plan.fasb,
    };
    let mut flow = Flow::new(Ring::new(memory), terms, 7);
    let outcome = send_all(&mut flow, plan, answers);
    let ring = flow.into_channel();
    outcome.map(|_| ring)
}

/// The superframes of the plan, and no more, came as they are in the draft, each with its mark.
fn same_frames(rt: &impl Abort, ring: &mut Ring, draft: &[u8], plan: Plan) -> Result<(), Fail> {
    let all = plan.n.saturating_mul(plan.rounds);
    assert!(rt; draft.len() / 122 >= all);
    for (count, drafted) in (1usize..).zip(draft.chunks_exact(122).take(all)) {
        let Some(Slot::Frame(frame)) = ring.take() else {
            return Err(Fail::new("no frame"));
        };
        assert_eq!(rt; &frame.bytes[..], drafted);
        if count.is_multiple_of(plan.n) {
            assert!(rt; matches!(ring.take(), Some(Slot::Mark)));
        }
    }
    assert!(rt; ring.take().is_none());
    Ok(())
}

/// Does all of the plan with a flow, and compares each answer and each byte with the draft.
fn compare(rt: &impl Abort, heap: Global, plan: Plan) -> Result<(), Fail> {
    let (draft, expected) = drafted(heap, plan)?;
    let slots = plan.rounds.saturating_mul(plan.n.saturating_add(1));
    let mut memory = vec![in heap; 0u8; slots.saturating_mul(123)]?;
    let mut answers = Vec::new(heap);
    let memory = memory.as_mut_slice();
    let mut ring = match plan.checksum {
        ChecksumChoice::Without => sent(NoChecksum, plan, memory, &mut answers),
        ChecksumChoice::Crc16 => sent(Crc16, plan, memory, &mut answers),
    }?;
    assert_eq!(rt; answers.as_slice(), expected.as_slice());
    same_frames(rt, &mut ring, draft.bytes.as_slice(), plan)
}

/// The same of this plan in both modes, with no checksum and with CRC-16.
fn compare_all(rt: &impl Abort, heap: Global, plan: Plan) -> Result<(), Fail> {
    for fasb in [false, true] {
        for checksum in [ChecksumChoice::Without, ChecksumChoice::Crc16] {
            compare(
                rt,
                heap,
                Plan {
                    fasb,
                    checksum,
                    ..plan
                },
            )?;
        }
    }
    Ok(())
}

#[test]
fn alone_and_after_each_other(rt: HostRuntime) -> Result<(), Fail> {
    let heap = rt.alloc();
    let bytes = bytes(heap)?;
    let data = bytes.as_slice();
    for first in LENGTHS {
        compare_all(&rt, heap, plain_plan(data, 1, 2, &[first]))?;
        compare_all(&rt, heap, plain_plan(data, 2, 2, &[first]))?;
        for second in LENGTHS {
            compare_all(&rt, heap, plain_plan(data, 3, 2, &[first, second]))?;
            compare_all(&rt, heap, plain_plan(data, 18, 1, &[first, second]))?;
        }
    }
    compare_all(&rt, heap, plain_plan(data, 200, 2, &LENGTHS))?;
    compare_all(&rt, heap, plain_plan(data, 1, 40, &LENGTHS))
}
