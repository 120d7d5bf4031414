use crate::session::{Refusal, Session};
use crate::terms::{OnTerms, on_terms};
use crate::totals::Totals;
use channel::channel::Channel;
use channel::ring::Ring;
use checksum::checksum::Checksum;
use receiver::terms::Terms;
use service::choice::ServiceChoice;
use service::service::Service;

/// The number of frames of each superframe.
const FRAMES: usize = 200;

/// Offers a packet; where it does not fit, or nothing is open, in a new superframe.
fn send<C: Channel, K: Checksum, S: Service>(
    session: &mut Session<C, K, S>,
    packet: &[u8],
) -> Result<(), Refusal> {
    if session.offer(packet).is_ok() {
        return Ok(());
    }
    // Whether nothing was open, or the ring has no room for another superframe, the second offer says as well.
    let _ = session.close();
    let _ = session.open(FRAMES);
    session.offer(packet)
}

/// To send packets of `len` bytes each, which stand one behind the other, in as many superframes as a ring in `memory` takes.
struct Sending<'a> {
    packets: &'a [u8],
    len: usize,
    memory: &'a mut [u8],
}

impl OnTerms for Sending<'_> {
    type Output = Totals;

    fn done<K: Checksum + Drop>(self, terms: Terms<K, ServiceChoice>) -> Totals {
        let Sending {
            packets,
            len,
            memory,
        } = self;
        let mut totals = Totals::default();
        if len == 0 {
            return totals;
        }
        let mut session = Session::begin(Ring::new(memory), terms, 7);
        for packet in packets.chunks(len) {
            match send(&mut session, packet) {
                Ok(()) => totals.count_packet(packet.len()),
                Err(_) => totals.count_other(),
            }
        }
        session.end();
        totals
    }
}

/// Writes packets of `len` bytes each into superframes of 200 frames on a ring in this memory, and counts those that were accepted.
#[unsafe(no_mangle)]
pub extern "C" fn rothveam_send_packets(
    packets: &[u8],
    len: usize,
    crc16: bool,
    memory: &mut [u8],
    totals: &mut Totals,
) {
    let sending = Sending {
        packets,
        len,
        memory,
    };
    *totals = on_terms(sending, crc16, false, false);
}
