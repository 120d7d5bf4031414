use checksum::choice::ChecksumChoice;
use std::alloc::{AllocError, Global};

/// The value of CRC-16, bit by bit: x^16 + x^12 + x^5 + 1, from 0xFFFF, the highest bit of a byte first. It is written out here, and
/// not taken from the crate `checksum`, so that the simulation compares with another hand's values.
fn crc16(bytes: &[u8]) -> [u8; 2] {
    let mut register = 0xffffu16;
    for b in bytes {
        for bit in (0..8u32).rev() {
            let enters = (b >> bit) & 1 == 1;
            let leaves = register >> 15 == 1;
            register <<= 1;
            if enters != leaves {
                register ^= 0x1021;
            }
        }
    }
    register.to_be_bytes()
}

/// A packet with its checksum behind it, or alone.
pub(crate) fn with_checksum(
    heap: Global,
    packet: &[u8],
    checksum: ChecksumChoice,
) -> Result<Vec<u8>, AllocError> {
    let mut bytes = packet.to_vec(heap)?;
    match checksum {
        ChecksumChoice::Without => {}
        ChecksumChoice::Crc16 => bytes.extend_from_slice(&crc16(packet))?,
    }
    Ok(bytes)
}
