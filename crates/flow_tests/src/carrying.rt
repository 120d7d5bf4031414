use crate::draft::{bytes, packet};
use crate::sending::send;
use channel::channel::Channel;
use channel::ring::Ring;
use checksum::checksum::Checksum;
use checksum::crc16::Crc16;
use flow::flow::Flow;
use receiver::answer::{BufferTooShort, Reading};
use receiver::terms::Terms;
use service::plain::Plain;
use service::service::Service;
use std::alloc::AllocError;
use std::test::Fail;

/// Notes what three readings answer.
fn read_thrice<C: Channel, K: Checksum, S: Service>(
    flow: &mut Flow<C, K, S>,
    buffer: &mut [u8],
    answers: &mut Vec<Result<Reading, BufferTooShort>>,
) -> Result<(), AllocError> {
    for _ in 0..3 {
        answers.push(flow.reading(buffer))?;
    }
    Ok(())
}

/// Sends the longest packet in seventeen superframes of one frame each. Notes what its offer answers, and three readings after each
/// superframe.
fn carry<C: Channel, K: Checksum, S: Service>(
    flow: &mut Flow<C, K, S>,
    data: &[u8],
    buffer: &mut [u8],
    offers: &mut Vec<Option<u8>>,
    answers: &mut Vec<Result<Reading, BufferTooShort>>,
) -> Result<(), Fail> {
    send(flow, 1, data, &[2044], offers)?;
    read_thrice(flow, buffer, answers)?;
    for _ in 0..16 {
        send(flow, 1, data, &[], offers)?;
        read_thrice(flow, buffer, answers)?;
    }
    Ok(())
}

/// The longest packet, with CRC-16, is carried over through seventeen superframes of one frame each, and comes out whole.
#[test]
fn longest_packet(rt: HostRuntime) -> Result<(), Fail> {
    let data = bytes(rt.alloc())?;
    let mut memory = [0; 246];
    let mut buffer = vec![in rt.alloc(); 0u8; 2044]?;
    let mut offers = Vec::new(rt.alloc());
    let mut answers = Vec::new(rt.alloc());
    let terms = Terms {
        checksum: Crc16,
        service: Plain,
        fasb: true,
    };
    let mut flow = Flow::new(Ring::new(&mut memory), terms, 9);
    let carried = carry(
        &mut flow,
        data.as_slice(),
        buffer.as_mut_slice(),
        &mut offers,
        &mut answers,
    );
    let ring = flow.into_channel();
    carried?;
    assert!(rt; ring.room() == 2);
    assert_eq!(rt; offers.as_slice(), &[None][..]);
    for (i, answer) in answers.iter().enumerate() {
        let expected = match i {
            48 => Reading::Sound { len: 2044 },
            49 => Reading::Mark { dropped: 0 },
            _ if i < 48 && i % 3 == 0 => Reading::Mark { dropped: 0 },
            _ => Reading::Nothing,
        };
        assert_eq!(rt; *answer, Ok(expected), "{}", i);
    }
    assert!(rt; answers.len() == 51);
    assert!(rt; buffer.as_slice() == packet(data.as_slice(), 2044));
    Ok(())
}
