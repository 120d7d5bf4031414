use crate::said::{Answer, damaged, sound, torn};
use channel::channel::Channel;
use channel::ring::Ring;
use channel::sending::Outgoing;
use checksum::checksum::Checksum;
use checksum::crc16::Crc16;
use checksum::none::NoChecksum;
use framing::fault::FrameFault;
use framing::frame::Frame;
use receiver::reader::Reader;
use receiver::terms::Terms;
use service::plain::Plain;
use std::test::Fail;

/// A frame that ends a packet with a body of so many bytes 0x55, and has padding behind it.
fn ending(count: u8) -> Frame {
    let mut bytes = [0; 122];
    let behind = (count as usize + 1).min(121);
    bytes[1..behind].fill(0x55);
    bytes[0] = count | 0x80;
    bytes[behind] = 0x7f;
    Frame { bytes }
}

/// What a reader answers that has gathered 16 frames of 121 bytes, 1,936 in all, and then takes this one.
fn after_sixteen<K: Checksum + Drop>(checksum: K, last: Frame) -> Result<Answer, Fail> {
    let mut memory = [0; 2460];
    let mut ring = Ring::new(&mut memory);
    let mut reader = Reader::new();
    let mut full = Frame { bytes: [0x55; 122] };
    full.bytes[0] = 0x79;
    for _ in 0..16 {
        ring.put(&Outgoing::Frame(full))?;
    }
    ring.put(&Outgoing::Frame(last))?;
    let terms = Terms {
        checksum,
        service: Plain,
        fasb: true,
    };
    Ok(reader.read(&mut ring, terms.as_ref(), &mut [0; 2044]))
}

/// A packet of 2,044 bytes and the checksum's width is gathered, and one of a byte more is torn by question 19.
#[test]
fn one_byte_past(rt: HostRuntime) -> Result<(), Fail> {
    assert_eq!(rt; FrameFault::PacketTooLong.number(), 19);
    let too_long = torn(17, 1936, FrameFault::PacketTooLong, 1);
    assert_eq!(rt; after_sixteen(NoChecksum, ending(107))?, sound(2043));
    assert_eq!(rt; after_sixteen(NoChecksum, ending(108))?, sound(2044));
    assert_eq!(rt; after_sixteen(NoChecksum, ending(109))?, too_long);
    assert_eq!(rt; after_sixteen(Crc16, ending(109))?, damaged(2043));
    assert_eq!(rt; after_sixteen(Crc16, ending(110))?, damaged(2044));
    assert_eq!(rt; after_sixteen(Crc16, ending(111))?, too_long);
    let goes_on = Frame { bytes: [0x79; 122] };
    assert_eq!(rt; after_sixteen(NoChecksum, goes_on)?, too_long);
    assert_eq!(rt; after_sixteen(Crc16, goes_on)?, too_long);
    Ok(())
}
