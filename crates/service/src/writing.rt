ghost use Rattle.std.specs.Prelude.{◌≡◌, ◌+◌, ◌≤◌, length, take, IfOk, Ok, OnOk};
ghost use Rattle.service.specs.Encoding.{header_bytes};
ghost use Rattle.service.specs.Faults.{refusing};
ghost use Rattle.service.specs.Map.{map_of, header_length};
ghost use Rattle.service.specs.Reading.{reading};
ghost use Rattle.service.specs.Spelling.{Fit};
ghost use Rattle.service.specs.Writing.{Put, Rewrites, writing, written};

use crate::header::{HeaderFault, SyncHeader};
use crate::map::HeaderMap;

/// Writes `header` and then `payload` to the front of `out`, and gives their length.
///
/// What is written is read back as the header and the payload; and where these were read from a packet, that packet is
/// written again.
pub fn write_header(
    header: &SyncHeader,
    payload: &[u8],
    out: &mut [u8],
) -> Result<usize, HeaderFault>
    ensures answer { refusing result ≡ writing header.now payload.now (length out.old) }
    ensures buffer { out.new ≡ written result header.now payload.now out.old }
    ensures reads_back { IfOk result (λ n. reading (take n out.new) ≡ Ok (header.now, payload.now)) }
    ensures rewrites { Rewrites header.now payload.now out.old (refusing result) out.new }
{
    put_packet(header, payload, out)
}

// Puts the questions in their order, and then writes. It is a function of its own for its one result, of which the laws of
// `write_header` are proved.
fn put_packet(header: &SyncHeader, payload: &[u8], out: &mut [u8]) -> Result<usize, HeaderFault>
    ensures answer { refusing result ≡ writing header.now payload.now (length out.old) }
    ensures buffer { out.new ≡ written result header.now payload.now out.old }
    ensures fits { OnOk result (Fit header.now) }
{
    let map = HeaderMap::from(header);
    map.check()?;
    if payload.is_empty() {
        return Err(HeaderFault::NoPayload);
    }
    header.check_fields()?;
    let start = map.header_len();
    if out.len() < start || out.len() - start < payload.len() {
        return Err(HeaderFault::BufferLength);
    }
    let end = put_header(header, map, out);
    Ok(put(out, end, payload))
}

// Writes the map and the fields that it names to the front of `out`.
fn put_header(header: &SyncHeader, map: HeaderMap, out: &mut [u8]) -> usize
    requires { (map ≡ map_of header.now) × (header_length map ≤ length out.old) }
    ensures put { Put 0 (header_bytes header.now) out.old result out.new }
    ensures fits { Fit header.now }
{
    let mut end = put(out, 0, &[u8::from(map)]);
    if let Some(id) = header.frame_id {
        end = put(out, end, &[id]);
    }
    if let Some(time) = header.timestamp {
        end = put(out, end, &time.to_le_bytes());
    }
    end
}

// Writes `bytes` into `out` behind its first `at`, and gives the place after them. The buffer is the caller's and longer than
// what is written, so the place where that ends is told beside it.
fn put(out: &mut [u8], at: usize, bytes: &[u8]) -> usize
    requires { at + length bytes.now ≤ length out.old }
    ensures { Put at bytes.now out.old result out.new }
{
    let end = at + bytes.len();
    out[at..end].copy_from_slice(bytes);
    end
}
