ghost use Rattle.std.specs.Prelude.{◌≡◌, ◌%◌, ◌≤◌};
ghost use Rattle.service.specs.Asking.{ask};
ghost use Rattle.service.specs.Faults.{refusing};
ghost use Rattle.service.specs.Map.{bit, kind_of, map_at, map_byte, map_of, header_length, map_questions};

use crate::header::{HeaderFault, Kind, SyncHeader};

/// The first byte of a sync header, taken apart: the kind, which fields follow, and the two flags. Bits are
/// counted from 1, the lowest.
#[derive(Clone, Copy, PartialEq, Eq, Debug)]
pub struct HeaderMap {
    /// Bits 1 and 2.
    pub kind: Kind,
    /// Bit 3: a frame id follows.
    pub frame_id: bool,
    /// Bit 4: a timestamp follows.
    pub timestamp: bool,
    /// Bit 5.
    pub access_point: bool,
    /// Bit 6.
    pub unreferenced: bool,
}

/// The map that a byte is.
impl From<u8> for HeaderMap {
    ghost from_gives = { λ byte r. r ≡ map_at byte };

    fn from(byte: u8) -> HeaderMap {
        HeaderMap {
            kind: kind_of(byte),
            frame_id: is_set(byte, 3),
            timestamp: is_set(byte, 4),
            access_point: is_set(byte, 5),
            unreferenced: is_set(byte, 6),
        }
    }
}

/// The map of a header with these facts.
impl From<&SyncHeader> for HeaderMap {
    ghost from_gives = { λ header r. r ≡ map_of header.now };

    fn from(header: &SyncHeader) -> HeaderMap {
        HeaderMap {
            kind: header.kind,
            frame_id: header.frame_id.is_some(),
            timestamp: header.timestamp.is_some(),
            access_point: header.access_point,
            unreferenced: header.unreferenced,
        }
    }
}

/// The map as a byte.
impl From<HeaderMap> for u8 {
    ghost from_gives = { λ map r. r ≡ map_byte map };

    fn from(map: HeaderMap) -> u8 {
        let fields = u8::from(map.frame_id) << 2 | u8::from(map.timestamp) << 3;
        let flags = u8::from(map.access_point) << 4 | u8::from(map.unreferenced) << 5;
        map.kind as u8 | fields | flags
    }
}

impl HeaderMap {
    /// The bytes of the map and of the fields that it names.
    pub(crate) fn header_len(self) -> usize
        ensures { result ≡ header_length self }
    {
        1 + usize::from(self.frame_id) + 4 * usize::from(self.timestamp)
    }

    /// Puts the questions on kind, fields and flags.
    pub(crate) fn check(self) -> Result<(), HeaderFault>
        ensures { refusing result ≡ ask (map_questions self) tt }
    {
        let numbered = matches!(self.kind, Kind::Video | Kind::Audio | Kind::TimedData);
        if self.frame_id != numbered {
            return Err(HeaderFault::FrameIdPresence);
        }
        let entered = matches!(self.kind, Kind::Video | Kind::Audio);
        let skipped = matches!(self.kind, Kind::Video);
        if self.access_point && !entered || self.unreferenced && !skipped {
            return Err(HeaderFault::FlagForKind);
        }
        Ok(())
    }
}

// The kind that the two lowest bits of a map tell. It is no `From<u8>`, since a byte is more than its kind.
fn kind_of(byte: u8) -> Kind
    ensures { result ≡ kind_of (byte % 4) }
{
    match byte & 0b11 {
        0 => Kind::Video,
        1 => Kind::Audio,
        2 => Kind::TimedData,
        _ => Kind::Adaptation,
    }
}

// Whether bit `n` is set; bits run from 1, the lowest, to 8.
pub(crate) fn is_set(byte: u8, n: u32) -> bool
    requires { (1 ≤ n) × (n ≤ 8) }
    ensures { result ≡ bit n byte }
{
    byte >> (n - 1) & 1 == 1
}
