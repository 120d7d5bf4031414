ghost use Rattle.std.specs.Prelude.{◌≡◌, ◌<◌, length};
ghost use Rattle.service.specs.Map.{header_length};
ghost use Rattle.service.specs.Reading.{facts_within, reading, packet_read};
ghost use Rattle.service.specs.Spelling.{ReadsExactly, OneMeaning};

use crate::header::{HeaderFault, SyncHeader};
use crate::map::{HeaderMap, is_set};

/// A packet taken apart.
#[derive(Clone, Copy, PartialEq, Eq, Debug)]
pub struct SyncPacket<'a> {
    /// What its sync header tells.
    pub header: SyncHeader,
    /// What follows the header: a part of the packet.
    pub payload: &'a [u8],
}

/// Reads the sync header at the front of `packet`; the rest is the payload.
///
/// The answer is the header and the payload exactly where the packet spells them, and it spells no other.
pub fn read_header(packet: &[u8]) -> Result<SyncPacket<'_>, HeaderFault>
    ensures answer { packet_read result ≡ reading packet.now }
    ensures exact { ReadsExactly packet.now (packet_read result) }
    ensures one_meaning { OneMeaning packet.now }
{
    take_apart(packet)
}

// Puts the questions in their order, and then takes the facts. It is a function of its own for its one result, of which the
// laws of `read_header` are proved.
fn take_apart(packet: &[u8]) -> Result<SyncPacket<'_>, HeaderFault>
    ensures { packet_read result ≡ reading packet.now }
{
    let &[byte, ..] = packet else {
        return Err(HeaderFault::Empty);
    };
    if is_set(byte, 7) || is_set(byte, 8) {
        return Err(HeaderFault::ReservedBits);
    }
    let map = HeaderMap::from(byte);
    map.check()?;
    let start = map.header_len();
    if packet.len() <= start {
        return Err(HeaderFault::NoPayload);
    }
    let header = facts_in(map, packet);
    header.check_fields()?;
    Ok(SyncPacket {
        header,
        payload: &packet[start..],
    })
}

// The facts in a packet that is long enough for the fields that `map` names: the frame id stands behind the map, and the
// timestamp behind any frame id, its lowest byte first.
fn facts_in(map: HeaderMap, packet: &[u8]) -> SyncHeader
    requires { header_length map < length packet.now }
    ensures { result ≡ facts_within map packet.now }
{
    let at = if map.frame_id { 2 } else { 1 };
    let timestamp = match packet[at..].first_chunk() {
        Some(bytes) if map.timestamp => Some(u32::from_le_bytes(*bytes)),
        _ => None,
    };
    SyncHeader {
        kind: map.kind,
        frame_id: map.frame_id.then_some(packet[1]),
        timestamp,
        access_point: map.access_point,
        unreferenced: map.unreferenced,
    }
}
