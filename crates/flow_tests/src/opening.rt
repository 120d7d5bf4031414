use crate::sending::send;
use channel::channel::Channel;
use channel::ring::Ring;
use checksum::none::NoChecksum;
use flow::flow::Flow;
use receiver::terms::Terms;
use service::plain::Plain;
use std::test::Fail;

/// The number by which an opening for `n` frames is refused, if it is, and the slots that are free after the superframe was
/// closed again, over a ring with so many.
fn opened(
    memory: &mut [u8],
    answers: &mut Vec<Option<u8>>,
    n: usize,
    fasb: bool,
) -> (Option<u8>, usize) {
    let terms = Terms {
        checksum: NoChecksum,
        service: Plain,
        fasb,
    };
    let mut flow = Flow::new(Ring::new(memory), terms, 65_535);
    let opened = send(&mut flow, n, &[], &[], answers);
    let number = opened.err().map(|fault| fault.number());
    let ring = flow.into_channel();
    (number, ring.room())
}

/// 1 to 200 frames (2), and room for one slot more than that (3).
#[test]
fn frames_and_room(rt: HostRuntime) -> Result<(), Fail> {
    let mut memory = vec![in rt.alloc(); 0u8; 24_846]?;
    let mut answers = Vec::new(rt.alloc());
    for (slots, n, number, room) in [
        (202u8, 0, Some(2), 202),
        (0, 0, Some(2), 0),
        (202, 1, None, 200),
        (2, 1, None, 0),
        (1, 1, Some(3), 1),
        (202, 2, None, 199),
        (3, 2, None, 0),
        (2, 2, Some(3), 2),
        (202, 200, None, 1),
        (201, 200, None, 0),
        (200, 200, Some(3), 200),
        (202, 201, Some(2), 202),
        (0, 201, Some(2), 0),
        (202, 456, Some(2), 202),
    ] {
        for fasb in [false, true] {
            let len = 123 * usize::from(slots);
            assert!(rt; len <= memory.len());
            let part = &mut memory.as_mut_slice()[0..len];
            assert_eq!(rt;
                opened(part, &mut answers, n, fasb),
                (number, room),
                "{}",
                n
            );
        }
    }
    assert!(rt; answers.is_empty());
    Ok(())
}
