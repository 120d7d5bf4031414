ghost use Rattle.std.specs.Prelude.{◌≡◌};

use crate::numbers::low_byte;
use crate::totals::Totals;
use service::header::{Kind, SyncHeader};
use service::reading::read_header;
use service::writing::write_header;

/// A sync header in numbers: of a field that is absent, the number is 0.
#[derive(Clone, Copy, PartialEq, Eq, Debug)]
#[repr(C)]
pub struct Facts {
    /// 0 video, 1 audio, 2 timed data, 3 adaptation.
    pub kind: u8,
    pub has_frame_id: bool,
    pub frame_id: u8,
    pub has_timestamp: bool,
    pub timestamp: u32,
    pub access_point: bool,
    pub unreferenced: bool,
    /// How many bytes stand before the payload.
    pub payload_at: u8,
}

/// The number of a kind here, in C.
fn number_of(kind: Kind) -> u8 {
    match kind {
        Kind::Video => 0,
        Kind::Audio => 1,
        Kind::TimedData => 2,
        Kind::Adaptation => 3,
    }
}

impl Facts {
    /// The facts of a header behind which the payload stands at this index.
    fn of(header: SyncHeader, payload_at: usize) -> Facts {
        Facts {
            kind: number_of(header.kind),
            has_frame_id: header.frame_id.is_some(),
            frame_id: header.frame_id.unwrap_or(0),
            has_timestamp: header.timestamp.is_some(),
            timestamp: header.timestamp.unwrap_or(0),
            access_point: header.access_point,
            unreferenced: header.unreferenced,
            payload_at: low_byte(payload_at),
        }
    }

    /// The kind by its number. One that there is not is taken for 3.
    fn kind(&self) -> Kind {
        match self.kind {
            0 => Kind::Video,
            1 => Kind::Audio,
            2 => Kind::TimedData,
            _ => Kind::Adaptation,
        }
    }
}

impl From<&Facts> for SyncHeader {
    fn from(facts: &Facts) -> SyncHeader {
        SyncHeader {
            kind: facts.kind(),
            frame_id: facts.has_frame_id.then_some(facts.frame_id),
            timestamp: facts.has_timestamp.then_some(facts.timestamp),
            access_point: facts.access_point,
            unreferenced: facts.unreferenced,
        }
    }
}

/// Reads the sync header of a packet. Gives 0, or the number of the question answered no, and then `facts` stays as it was.
#[unsafe(no_mangle)]
pub extern "C" fn rothveam_read_header(packet: &[u8], facts: &mut Facts) -> u8 {
    match read_header(packet) {
        Err(fault) => fault.number(),
        Ok(read) => {
            let payload_at = packet.len().saturating_sub(read.payload.len());
            *facts = Facts::of(read.header, payload_at);
            0
        }
    }
}

/// What came of writing a header: question 0 and the length, or the number of the question answered no.
#[derive(Clone, Copy, PartialEq, Eq, Debug)]
#[repr(C)]
pub struct Written {
    pub len: usize,
    pub question: u8,
}

/// Writes a sync header and a payload to the front of `out`. Of `facts`, `payload_at` is not looked at.
#[unsafe(no_mangle)]
pub extern "C" fn rothveam_write_header(facts: &Facts, payload: &[u8], out: &mut [u8]) -> Written {
    match write_header(&SyncHeader::from(facts), payload, out) {
        Ok(len) => Written { len, question: 0 },
        Err(fault) => Written {
            len: 0,
            question: fault.number(),
        },
    }
}

/// Reads the sync headers of packets of `len` bytes each, which stand one behind the other, and counts their payloads.
#[unsafe(no_mangle)]
pub extern "C" fn rothveam_count_headers(packets: &[u8], len: usize, totals: &mut Totals) {
    let mut counted = Totals::default();
    if len > 0 {
        for packet in packets.chunks(len) {
            match read_header(packet) {
                Ok(read) => counted.count_packet(read.payload.len()),
                Err(_) => counted.count_other(),
            }
        }
    }
    *totals = counted;
}
