use crate::header::{HeaderFault, Kind, SyncHeader};
use crate::reading::read_header;
use crate::service::Service;
use crate::sync::Sync;
use crate::writing::write_header;
use std::test::Fail;

const FULL: SyncHeader = SyncHeader {
    kind: Kind::Video,
    frame_id: Some(59),
    timestamp: Some(0x0403_0201),
    access_point: true,
    unreferenced: true,
};

/// The number of the refusal, if there is one.
fn number(packet: &[u8]) -> Option<u8> {
    Sync.admit(packet).err().map(|refusal| refusal.number)
}

#[test]
fn admits_and_refuses(rt: HostRuntime) {
    assert_eq!(rt; number(&[0x14, 0x00, 0xAA]), None);
    assert_eq!(rt; number(&[]), Some(30));
    assert_eq!(rt; number(&[0x54, 0x00, 0xAA]), Some(31));
    assert_eq!(rt; number(&[0x94, 0x00, 0xAA]), Some(31));
    assert_eq!(rt; number(&[0x00, 0xAA]), Some(32));
    assert_eq!(rt; number(&[0x07]), Some(32));
    assert_eq!(rt; number(&[0x16, 0x00, 0xAA]), Some(33));
    assert_eq!(rt; number(&[0x25, 0x00, 0xAA]), Some(33));
    assert_eq!(rt; number(&[0x0C, 0x00, 1, 2, 3, 4]), Some(34));
    assert_eq!(rt; number(&[0x04, 60, 0xAA]), Some(35));
    assert_eq!(rt; number(&[0x05, 60, 0xAA]), None);
}

#[test]
fn writes_and_reads_back(rt: HostRuntime) -> Result<(), Fail> {
    let mut out = [0xEE; 9];
    let short = write_header(&FULL, &[7, 8], &mut out[0..7]);
    assert_eq!(rt; short, Err(HeaderFault::BufferLength));
    assert_eq!(rt; out, [0xEE; 9]);
    assert_eq!(rt; write_header(&FULL, &[7, 8], &mut out)?, 8);
    assert_eq!(rt; out, [0x3C, 59, 1, 2, 3, 4, 7, 8, 0xEE]);
    let packet = read_header(&out[0..8])?;
    assert_eq!(rt; packet.header, FULL);
    assert!(rt; packet.payload == [7, 8].as_slice());
    Ok(())
}

#[test]
fn says_it_in_words(rt: HostRuntime) -> Result<(), Fail> {
    let packet = read_header(&[0x14, 0x00, 0xAA])?;
    let header = packet.header;
    let words = format!(in rt.alloc(); "{header}")?;
    assert_eq!(rt;
        words.as_str(),
        "video, frame 0, no timestamp, random access point, referenced"
    );
    Ok(())
}
