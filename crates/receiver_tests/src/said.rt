use channel::channel::Channel;
use checksum::none::NoChecksum;
use framing::fault::{FrameFault, Torn};
use framing::frame::Frame;
use receiver::answer::{BufferTooShort, Reading};
use receiver::reader::Reader;
use receiver::terms::Terms;
use service::plain::Plain;

/// What a reading answered, or that its buffer was too short.
pub(crate) type Answer = Result<Reading, BufferTooShort>;

pub(crate) const NOTHING: Answer = Ok(Reading::Nothing);

pub(crate) fn sound(len: usize) -> Answer {
    Ok(Reading::Sound { len })
}

pub(crate) fn damaged(len: usize) -> Answer {
    Ok(Reading::Damaged { len })
}

pub(crate) fn foreign(number: u8, len: usize) -> Answer {
    Ok(Reading::Foreign { number, len })
}

pub(crate) fn lost(frame: u16, dropped: u16) -> Answer {
    Ok(Reading::Lost { frame, dropped })
}

pub(crate) fn torn(frame: u16, dropped: u16, fault: FrameFault, at: usize) -> Answer {
    let torn = Torn { fault, at };
    Ok(Reading::Torn {
        frame,
        dropped,
        torn,
    })
}

pub(crate) fn mark(dropped: u16) -> Answer {
    Ok(Reading::Mark { dropped })
}

/// A frame with these bytes in front and this last byte, and `fill` between them.
pub(crate) fn frame(front: [u8; 6], fill: u8, last: u8) -> Frame {
    let mut bytes = [fill; 122];
    bytes[0..6].copy_from_slice(&front);
    bytes[121] = last;
    Frame { bytes }
}

/// No checksum and the plain service.
pub(crate) fn plain_terms(fasb: bool) -> Terms<NoChecksum, Plain> {
    Terms {
        checksum: NoChecksum,
        service: Plain,
        fasb,
    }
}

/// One reading on those terms.
pub(crate) fn ask<C: Channel>(reader: &mut Reader, channel: &mut C, fasb: bool) -> Answer {
    reader.read(channel, plain_terms(fasb).as_ref(), &mut [0; 2044])
}
