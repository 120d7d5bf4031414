use crate::checksum::Checksum;
use crate::crc16::Crc16;
use crate::none::NoChecksum;

#[test]
fn crc16_fits_its_value_alone(rt: HostRuntime) {
    let digits = b"123456789";
    assert!(rt; Crc16.fits(digits, &Crc16::check_value()), "its own value");
    assert!(rt;
        !Crc16.fits(digits, &[0x29, 0xb0]),
        "one bit of the value changed"
    );
    assert!(rt;
        !Crc16.fits(b"123456788", &[0x29, 0xb1]),
        "one bit of the message changed"
    );
    assert!(rt; !Crc16.fits(digits, &[0x29]), "too short");
    assert!(rt; !Crc16.fits(digits, &[0x29, 0xb1, 0]), "too long");
}

#[test]
fn seventeen_bits_may_pass(rt: HostRuntime) {
    let (one, other) = Crc16::undetected_pair();
    assert_eq!(rt; Crc16.value_of(&one), Crc16.value_of(&other));
}

#[test]
fn no_checksum_fits_every_message(rt: HostRuntime) {
    let (one, other) = NoChecksum::undetected_pair();
    assert!(rt; NoChecksum.fits(&one, &[]));
    assert!(rt; NoChecksum.fits(&other, &[]));
    assert!(rt;
        !NoChecksum.fits(&one, &[0]),
        "a value of no checksum has no bytes"
    );
}
