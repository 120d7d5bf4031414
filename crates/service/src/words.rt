//! Sync headers in words, for people who look at recordings.
ghost use Rattle.std.specs.Prelude.{Some};
ghost use Rattle.service.specs.Words.{kind_words, header_words, fault_words};

use crate::header::{HeaderFault, Kind, SyncHeader};
use spelling::optional::Optional;
use std::fmt;

impl fmt::Display for Kind {
    ghost output = { λ kind. Some (kind_words kind) };

    fn fmt<W: fmt::Write>(&self, f: &mut fmt::Formatter<W>) -> fmt::Result {
        f.write_str(match self {
            Kind::Video => "video",
            Kind::Audio => "audio",
            Kind::TimedData => "timed data",
            Kind::Adaptation => "adaptation",
        })
    }
}

impl fmt::Display for HeaderFault {
    ghost output = { λ fault. Some (fault_words fault) };

    fn fmt<W: fmt::Write>(&self, f: &mut fmt::Formatter<W>) -> fmt::Result {
        f.write_str(match self {
            HeaderFault::Empty => "the packet is empty, so it has no header",
            HeaderFault::ReservedBits => {
                "bit 7 or 8 of the first byte is set, and neither has a meaning"
            }
            HeaderFault::FrameIdPresence => {
                "video, audio and timed data have a frame id, and adaptation has none"
            }
            HeaderFault::FlagForKind => {
                "only video and audio have random access points, and only video has unreferenced frames"
            }
            HeaderFault::NoPayload => {
                "the header's fields and at least one byte of payload must follow the first byte"
            }
            HeaderFault::FrameIdRange => "the frame id of a video packet is at most 59",
            HeaderFault::BufferLength => "the buffer is too short for the header and the payload",
        })
    }
}

impl fmt::Display for SyncHeader {
    ghost output = { λ header. Some (header_words header) };

    fn fmt<W: fmt::Write>(&self, f: &mut fmt::Formatter<W>) -> fmt::Result {
        let kind = self.kind;
        let frame = Optional {
            before: "frame ",
            value: self.frame_id,
            absent: "no frame",
        };
        let time = Optional {
            before: "timestamp ",
            value: self.timestamp,
            absent: "no timestamp",
        };
        let access = if self.access_point {
            "random access point"
        } else {
            "no random access point"
        };
        let reference = if self.unreferenced {
            "unreferenced"
        } else {
            "referenced"
        };
        write!(f, "{kind}, {frame}, {time}, {access}, {reference}")
    }
}
