use crate::said::{Answer, damaged, foreign, frame, sound};
use channel::channel::Channel;
use channel::ring::Ring;
use channel::sending::Outgoing;
use checksum::checksum::Checksum;
use checksum::crc16::Crc16;
use checksum::none::NoChecksum;
use receiver::answer::Reading;
use receiver::reader::Reader;
use receiver::terms::Terms;
use service::plain::Plain;
use service::service::Service;
use service::sync::Sync;
use std::test::Fail;

/// What is answered to a frame that begins so, with padding where its bytes end, and the first byte of the buffer then.
fn verdict<K: Checksum + Drop, S: Service + Drop>(
    checksum: K,
    service: S,
    front: [u8; 6],
) -> Result<(Answer, u8), Fail> {
    let mut memory = [0; 123];
    let mut buffer = [0xee; 2044];
    let mut ring = Ring::new(&mut memory);
    let mut reader = Reader::new();
    let mut packet = frame(front, 0, 0);
    packet.bytes[6] = if front[0] == 0x85 { 0x7f } else { 0 };
    ring.put(&Outgoing::Frame(packet))?;
    let terms = Terms {
        checksum,
        service,
        fasb: false,
    };
    let answer = reader.read(&mut ring, terms.as_ref(), &mut buffer);
    Ok((answer, buffer[0]))
}

/// The value of CRC-16 is 0x5DAC for 0x07 0x00 0xAA and 0x479F for 0x14 0x00 0xAA. The first is refused by the sync service
/// under number 32, the second is admitted.
#[test]
fn damaged_before_foreign(rt: HostRuntime) -> Result<(), Fail> {
    let lawful = [0x85, 0x14, 0x00, 0xaa, 0x47, 0x9f];
    let altered = [0x85, 0x14, 0x00, 0xaa, 0x47, 0x9e];
    let refused = [0x85, 0x07, 0x00, 0xaa, 0x5d, 0xac];
    let both = [0x85, 0x07, 0x00, 0xaa, 0x5d, 0x2c];
    assert_eq!(rt; verdict(Crc16, Sync, lawful)?, (sound(3), 0x14));
    assert_eq!(rt; verdict(Crc16, Sync, altered)?, (damaged(3), 0x14));
    assert_eq!(rt; verdict(Crc16, Sync, refused)?, (foreign(32, 3), 0x07));
    assert_eq!(rt; verdict(Crc16, Sync, both)?, (damaged(3), 0x07));
    assert_eq!(rt; verdict(Crc16, Plain, refused)?, (sound(3), 0x07));
    assert_eq!(rt; verdict(Crc16, Plain, both)?, (damaged(3), 0x07));
    assert_eq!(rt; verdict(NoChecksum, Sync, lawful)?, (sound(5), 0x14));
    assert_eq!(rt; verdict(NoChecksum, Sync, refused)?, (foreign(32, 5), 0x07));
    assert_eq!(rt; verdict(NoChecksum, Plain, both)?, (sound(5), 0x07));
    Ok(())
}

/// No more bytes than the checksum has are short, and touch no buffer. 0xB915 is the value of CRC-16 for 0x41.
#[test]
fn short(rt: HostRuntime) -> Result<(), Fail> {
    let one = [0x81, 0x41, 0x7f, 0, 0, 0];
    let two = [0x82, 0x41, 0xb9, 0x7f, 0, 0];
    let three = [0x83, 0x41, 0xb9, 0x15, 0x7f, 0];
    assert_eq!(rt; verdict(Crc16, Plain, one)?, (Ok(Reading::Short), 0xee));
    assert_eq!(rt; verdict(Crc16, Plain, two)?, (Ok(Reading::Short), 0xee));
    assert_eq!(rt; verdict(Crc16, Plain, three)?, (sound(1), 0x41));
    assert_eq!(rt; verdict(NoChecksum, Plain, one)?, (sound(1), 0x41));
    assert_eq!(rt; verdict(Crc16, Sync, three)?, (foreign(31, 1), 0x41));
    Ok(())
}
