ghost use Rattle.std.specs.Prelude.{◌≡◌};
ghost use Rattle.service.specs.Asking.{ask};
ghost use Rattle.service.specs.Encoding.{field_questions};
ghost use Rattle.service.specs.Faults.{fault_number, refusing, Numbered};
ghost use Rattle.service.specs.Words.{word_of_kind};

/// What a sync packet carries.
#[derive(Clone, Copy, PartialEq, Eq, Debug)]
pub enum Kind {
    /// A part of a video frame.
    Video,
    /// A part of an audio frame.
    Audio,
    /// Data that is due at a time, as captions.
    TimedData,
    /// Data of the synchronisation itself, as a directory of the frames that come. It belongs to no media frame.
    Adaptation,
}

/// The facts that a sync header tells of its packet.
#[derive(Clone, Copy, PartialEq, Eq, Debug)]
pub struct SyncHeader {
    /// What the packet carries.
    pub kind: Kind,
    /// The frame that the packet belongs to. Adaptation packets belong to none.
    pub frame_id: Option<u8>,
    /// When the packet is due, where the header says so.
    pub timestamp: Option<u32>,
    /// Whether a receiver can begin here.
    pub access_point: bool,
    /// Whether no other frame is made from this one.
    pub unreferenced: bool,
}

/// Why a sync header is refused, on reading or on writing: each fault by the number of its question.
#[derive(Clone, Copy, PartialEq, Eq, Debug)]
pub enum HeaderFault {
    /// The packet has no byte at all.
    Empty = 30,
    /// Bit 7 or bit 8 of the map is set.
    ReservedBits = 31,
    /// A frame id is there for adaptation, or missing for another kind.
    FrameIdPresence = 32,
    /// A flag is set for a kind that cannot have it.
    FlagForKind = 33,
    /// The named fields are not all there, or no payload follows.
    NoPayload = 34,
    /// The frame id of a video packet is above 59.
    FrameIdRange = 35,
    /// The buffer is too short for header and payload.
    BufferLength = 36,
}

impl SyncHeader {
    /// Puts the question on the fields.
    pub(crate) fn check_fields(self) -> Result<(), HeaderFault>
        ensures { refusing result ≡ ask (field_questions self) tt }
    {
        match (self.kind, self.frame_id) {
            (Kind::Video, Some(id)) if id > 59 => Err(HeaderFault::FrameIdRange),
            _ => Ok(()),
        }
    }
}

impl Kind {
    /// The word for the kind, in scripts, names and data.
    pub fn word(self) -> &'static str
        ensures { result.now ≡ word_of_kind self }
    {
        match self {
            Kind::Video => "video",
            Kind::Audio => "audio",
            Kind::TimedData => "data",
            Kind::Adaptation => "adaptation",
        }
    }
}

impl HeaderFault {
    /// The number of the question that was answered no.
    pub fn number(self) -> u8
        ensures { result ≡ fault_number self }
    {
        self as u8
    }
}

/// A number that is none of a question on sync headers.
#[derive(Clone, Copy, PartialEq, Eq, Debug)]
pub struct NotAHeaderFault;

/// The fault of the question with this number.
impl TryFrom<u8> for HeaderFault {
    type Error = NotAHeaderFault;

    ghost try_from_gives = { Numbered };

    fn try_from(number: u8) -> Result<HeaderFault, NotAHeaderFault> {
        match number {
            30 => Ok(HeaderFault::Empty),
            31 => Ok(HeaderFault::ReservedBits),
            32 => Ok(HeaderFault::FrameIdPresence),
            33 => Ok(HeaderFault::FlagForKind),
            34 => Ok(HeaderFault::NoPayload),
            35 => Ok(HeaderFault::FrameIdRange),
            36 => Ok(HeaderFault::BufferLength),
            _ => Err(NotAHeaderFault),
        }
    }
}
