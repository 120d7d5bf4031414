use crate::reading::read_on;
use crate::terms::{OnTerms, on_terms};
use crate::totals::Totals;
use crate::tracing::Trace;
use checksum::checksum::Checksum;
use receiver::receiver::Receiver;
use receiver::terms::Terms;
use reel::checking::check;
use reel::playing::ReelChannel;
use service::choice::ServiceChoice;

/// What is said of a reel: question 0 where it is lawful, else the question's number and the place of the block.
#[derive(Clone, Copy, PartialEq, Eq, Debug)]
#[repr(C)]
pub struct Checked {
    pub at: usize,
    pub question: u8,
}

/// Checks a reel.
#[unsafe(no_mangle)]
pub extern "C" fn rothveam_check_reel(reel: &[u8]) -> Checked {
    match check(reel) {
        Ok(()) => Checked { at: 0, question: 0 },
        Err(fault) => Checked {
            at: fault.at,
            question: fault.fault.number(),
        },
    }
}

/// To read a reel to its end, packet by packet into `buffer`, and put every answer down in `trace`.
struct Tracing<'a> {
    reel: &'a [u8],
    buffer: &'a mut [u8],
    trace: &'a mut [u8],
}

impl OnTerms for Tracing<'_> {
    /// How many bytes of `trace` that took.
    type Output = usize;

    fn done<K: Checksum + Drop>(self, terms: Terms<K, ServiceChoice>) -> usize {
        let Tracing {
            reel,
            buffer,
            trace,
        } = self;
        let mut receiver = Receiver::over(ReelChannel::over(reel), terms);
        let mut trace = Trace::over(trace);
        // Into a buffer that is too short nothing is read: the trace is empty then, and needs no number of a refusal.
        let _ = read_on(&mut receiver, buffer, |answer, buffer| {
            trace.put_answer(answer, buffer);
        });
        trace.end()
    }
}

/// Reads a reel with CRC-16 or no checksum, as sync packets or plain ones, to its end. Each answer goes into `trace`.
#[unsafe(no_mangle)]
pub extern "C" fn rothveam_trace_reel(
    reel: &[u8],
    crc16: bool,
    sync: bool,
    fasb: bool,
    buffer: &mut [u8],
    trace: &mut [u8],
) -> usize {
    let tracing = Tracing {
        reel,
        buffer,
        trace,
    };
    on_terms(tracing, crc16, sync, fasb)
}

/// To read a reel to its end, packet by packet into `buffer`, and count.
struct Counting<'a> {
    reel: &'a [u8],
    buffer: &'a mut [u8],
}

impl OnTerms for Counting<'_> {
    type Output = Totals;

    fn done<K: Checksum + Drop>(self, terms: Terms<K, ServiceChoice>) -> Totals {
        let Counting { reel, buffer } = self;
        let mut receiver = Receiver::over(ReelChannel::over(reel), terms);
        let mut totals = Totals::default();
        // Into a buffer that is too short nothing is read, and all is 0 then.
        let _ = read_on(&mut receiver, buffer, |answer, _| totals.count(answer));
        totals
    }
}

/// Reads a reel to its end, packet by packet into `buffer`, and counts.
#[unsafe(no_mangle)]
pub extern "C" fn rothveam_count_reel(
    reel: &[u8],
    crc16: bool,
    sync: bool,
    buffer: &mut [u8],
    totals: &mut Totals,
) {
    *totals = on_terms(Counting { reel, buffer }, crc16, sync, false);
}
