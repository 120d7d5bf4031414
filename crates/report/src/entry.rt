ghost use Rattle.std.specs.Prelude.{◌≡◌, take};
ghost use Rattle.report.specs.Entries.{header_in, packet_shown, entry_of};

use framing::fault::Torn;
use receiver::answer::Reading;
use service::choice::ServiceChoice;
use service::header::SyncHeader;
use service::reading::read_header;

/// What a packet that was handed out is.
#[derive(Clone, Copy, PartialEq, Eq, Debug)]
pub enum Verdict {
    /// Its checksum fits, and the service admits it.
    Sound,
    /// Its checksum does not fit.
    Damaged,
    /// The service refuses it under this number.
    Foreign { number: u8 },
}

/// A packet that was handed out.
#[derive(Clone, Copy, PartialEq, Eq, Debug)]
pub struct Packet {
    pub len: usize,
    pub verdict: Verdict,
    /// What its sync header says, where the service has one and it can be read. That of a damaged packet stands as received.
    pub header: Option<SyncHeader>,
}

/// One thing that the reading of a reel shows.
#[derive(Clone, Copy, PartialEq, Eq, Debug)]
pub enum Entry {
    /// A packet was handed out.
    Packet(Packet),
    /// A packet has no more bytes than its checksum.
    Short,
    /// A frame was lost.
    Lost {
        frame: u16,
        dropped: u16,
    },
    /// A frame is torn.
    Torn {
        frame: u16,
        dropped: u16,
        torn: Torn,
    },
    /// A superframe, or the reel, ended inside a packet of which these bytes were there.
    Unfinished {
        dropped: u16,
    },
}

/// What a sync packet says of itself.
fn header_of(packet: &[u8], service: ServiceChoice) -> Option<SyncHeader>
    ensures { result ≡ header_in service packet.now }
{
    match service {
        ServiceChoice::Plain => None,
        ServiceChoice::Sync => read_header(packet).ok().map(|read| read.header),
    }
}

/// The first `len` bytes of the buffer: the packet that stands at its front.
pub fn front(buffer: &[u8], len: usize) -> &[u8]
    ensures { result.now ≡ take len buffer.now }
{
    buffer.get(..len).unwrap_or(buffer)
}

/// A packet that stands at the front of the buffer.
fn packet_in(buffer: &[u8], len: usize, verdict: Verdict, service: ServiceChoice) -> Entry
    ensures { result ≡ packet_shown verdict len buffer.now service }
{
    Entry::Packet(Packet {
        len,
        verdict,
        header: header_of(front(buffer, len), service),
    })
}

/// What a reading shows, if anything: a mark that drops nothing and the end show nothing.
pub fn shown_by(reading: Reading, buffer: &[u8], service: ServiceChoice) -> Option<Entry>
    ensures { result ≡ entry_of reading buffer.now service }
{
    match reading {
        Reading::Sound { len } => Some(packet_in(buffer, len, Verdict::Sound, service)),
        Reading::Damaged { len } => Some(packet_in(buffer, len, Verdict::Damaged, service)),
        Reading::Foreign { number, len } => {
            Some(packet_in(buffer, len, Verdict::Foreign { number }, service))
        }
        Reading::Short => Some(Entry::Short),
        Reading::Lost { frame, dropped } => Some(Entry::Lost { frame, dropped }),
        Reading::Torn {
            frame,
            dropped,
            torn,
        } => Some(Entry::Torn {
            frame,
            dropped,
            torn,
        }),
        Reading::Mark { dropped } if dropped > 0 => Some(Entry::Unfinished { dropped }),
        Reading::Mark { .. } | Reading::Nothing => None,
    }
}
