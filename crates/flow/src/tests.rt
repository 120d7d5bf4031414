use crate::alone::{SendFault, send_alone};
use crate::faults::CloseFault;
use crate::flow::Flow;
use crate::token::SuperframeToken;
use channel::channel::Channel;
use channel::ring::Ring;
use checksum::none::NoChecksum;
use framing::slot::Slot;
use receiver::terms::Terms;
use service::plain::Plain;

/// Sends `len` bytes of 9 in a superframe of `n` frames, and tells the number of the refusal, if any, and the first and the
/// last byte of the first frame.
fn sent(n: usize, len: usize, fasb: bool) -> (Option<u8>, u8, u8) {
    let data = [9; 2045];
    let mut memory = [0; 2460];
    let terms = Terms {
        checksum: NoChecksum,
        service: Plain,
        fasb,
    };
    let mut flow = Flow::new(Ring::new(&mut memory), terms, 7);
    let outcome = send_alone(&mut flow, n, &data[0..len.min(2045)]);
    let number = match outcome {
        Ok(()) => None,
        Err(SendFault::Opening(fault)) => Some(fault.number()),
        Err(SendFault::Offer(fault)) => Some(fault.number()),
        Err(SendFault::Closing(CloseFault::WrongToken(SuperframeToken { flow: _ }))) => Some(4),
    };
    let mut ring = flow.into_channel();
    match ring.take() {
        Some(Slot::Frame(frame)) => (number, frame.bytes[0], frame.bytes[121]),
        _ => (number, 0, 0),
    }
}

#[test]
fn one_packet_alone(rt: HostRuntime) {
    for (n, len, fasb, number, first, last) in [
        (1, 1, false, None, 0x81, 0x00),
        (1, 119, false, None, 0xf7, 0x00),
        (1, 120, false, None, 0xf8, 0x80),
        (1, 121, false, None, 0xf9, 9),
        (1, 122, false, Some(7), 0x7f, 0),
        (1, 122, true, None, 0x79, 9),
        (2, 242, false, None, 0x79, 9),
        (2, 243, false, Some(7), 0x7f, 0),
        (17, 2044, false, None, 0x79, 9),
        (17, 2045, false, Some(5), 0x7f, 0),
        (1, 0, true, Some(5), 0x7f, 0),
        (0, 1, true, Some(2), 0, 0),
        (201, 1, true, Some(2), 0, 0),
        (19, 1, false, None, 0x81, 0),
        (20, 1, false, Some(3), 0, 0),
    ] {
        assert_eq!(rt; sent(n, len, fasb), (number, first, last));
    }
}
