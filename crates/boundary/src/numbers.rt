//! Places and lengths as C has them, in fewer bits. All that are told fit, and the low bits of them are the whole.

/// A place in a frame, which has 122 bytes, or in the header of a packet, which has fewer.
pub(crate) fn low_byte(place: usize) -> u8 {
    (place & 0xff) as u8
}

/// The length of a packet: at most 2,044.
pub(crate) fn low_half(len: usize) -> u16 {
    (len & 0xffff) as u16
}
