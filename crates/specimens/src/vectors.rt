ghost use Rattle.std.specs.Prelude.{◌≡◌, Decides};
ghost use Rattle.checksum.specs.Crc16.{crc16};
ghost use Rattle.specimens.specs.Published.{AllRight};

use checksum::checksum::Checksum;
use checksum::crc16::Crc16;
use std::fmt;

/// A message with the value that is published for it, high byte first.
#[derive(Clone, Copy, PartialEq, Eq, Debug)]
pub struct Vector<'a> {
    pub name: &'a str,
    pub message: &'a [u8],
    pub expected: [u8; 2],
}

impl Vector<'_> {
    /// The value that the code computes.
    pub fn value(&self) -> [u8; 2]
        ensures { result ≡ crc16 self.now.message.now }
    {
        let [high, low, _, _] = Crc16.value_of(self.message);
        [high, low]
    }

    /// Whether the code takes the published value for that of the message.
    pub fn agrees(&self) -> bool
        ensures { Decides result (crc16 self.now.message.now ≡ self.now.expected) }
    {
        Crc16.fits(self.message, &self.expected)
    }
}

/// One line: the vector, what the code computes, and whether it agrees.
impl fmt::Display for Vector<'_> {
    fn fmt<W: fmt::Write>(&self, f: &mut fmt::Formatter<W>) -> fmt::Result {
        let name = self.name;
        let length = self.message.len();
        let [high, low] = self.expected;
        let [computed_high, computed_low] = self.value();
        let verdict = if self.agrees() { "ok" } else { "DIFFERS" };
        write!(
            f,
            "{name}: length {length}, expected {high:02X}{low:02X}, computed {computed_high:02X}{computed_low:02X}, {verdict}"
        )
    }
}

/// The published vectors.
#[tactic(auto, unfolding(checksum::specs::Crc16::step_by, checksum::specs::Crc16::feed_by))]
pub fn published() -> &'static [Vector<'static>; 19]
    ensures { AllRight result.now }
{
    &PUBLISHED
}

// From where such values are printed: catalogues and tutorials of CRCs, the car makers' and the space agencies'
// standards, and codes for payments by telephone, which end in their own value.
static PUBLISHED: [Vector<'static>; 19] = [
    Vector {
        name: "catalogues, the digits 1 to 9",
        message: b"123456789",
        expected: [0x29, 0xb1],
    },
    Vector {
        name: "tutorials, the empty message",
        message: b"",
        expected: [0xff, 0xff],
    },
    Vector {
        name: "tutorials, one A",
        message: b"A",
        expected: [0xb9, 0x15],
    },
    Vector {
        name: "tutorials, 256 times A",
        message: &[b'A'; 256],
        expected: [0xea, 0x0b],
    },
    Vector {
        name: "AUTOSAR, example 1",
        message: &[0x00, 0x00, 0x00, 0x00],
        expected: [0x84, 0xc0],
    },
    Vector {
        name: "AUTOSAR, example 2",
        message: &[0xf2, 0x01, 0x83],
        expected: [0xd3, 0x74],
    },
    Vector {
        name: "AUTOSAR, example 3",
        message: &[0x0f, 0xaa, 0x00, 0x55],
        expected: [0x20, 0x23],
    },
    Vector {
        name: "AUTOSAR, example 4",
        message: &[0x00, 0xff, 0x55, 0x11],
        expected: [0xb8, 0xf9],
    },
    Vector {
        name: "AUTOSAR, example 5",
        message: &[0x33, 0x22, 0x55, 0xaa, 0xbb, 0xcc, 0xdd, 0xee, 0xff],
        expected: [0xf5, 0x3f],
    },
    Vector {
        name: "AUTOSAR, example 6",
        message: &[0x92, 0x6b, 0x55],
        expected: [0x07, 0x45],
    },
    Vector {
        name: "AUTOSAR, example 7",
        message: &[0xff, 0xff, 0xff, 0xff],
        expected: [0x1d, 0x0f],
    },
    Vector {
        name: "ECSS, example 1",
        message: &[0x00, 0x00],
        expected: [0x1d, 0x0f],
    },
    Vector {
        name: "ECSS, example 2",
        message: &[0x00, 0x00, 0x00],
        expected: [0xcc, 0x9c],
    },
    Vector {
        name: "ECSS, example 3",
        message: &[0xab, 0xcd, 0xef, 0x01],
        expected: [0x04, 0xa2],
    },
    Vector {
        name: "ECSS, example 4",
        message: &[0x14, 0x56, 0xf8, 0x9a, 0x00, 0x01],
        expected: [0x7f, 0xd5],
    },
    Vector {
        name: "EMVCo payment code",
        message: b"00020101021229300012D156000000000510A93FO3230Q31280012D15600000001030812345678520441115802CN5914BEST TRANSPORT6007BEIJING64200002ZH0104\xe6\x9c\x80\xe4\xbd\xb3\xe8\xbf\x90\xe8\xbe\x930202\xe5\x8c\x97\xe4\xba\xac540523.7253031565502016233030412340603***0708A60086670902ME91320016A0112233449988770708123456786304",
        expected: [0xa1, 0x3a],
    },
    Vector {
        name: "Pix payment code, fixed key",
        message: b"00020126580014br.gov.bcb.pix0136123e4567-e12b-12d1-a456-4266554400005204000053039865802BR5913Fulano de Tal6008BRASILIA62070503***6304",
        expected: [0x1d, 0x3d],
    },
    Vector {
        name: "Pix payment code, by address",
        message: b"00020101021226700014br.gov.bcb.pix2548pix.example.com/8b3da2f39a4140d1a91abd93113bd4415204000053039865802BR5913Fulano de Tal6008BRASILIA62070503***6304",
        expected: [0x64, 0xe4],
    },
    Vector {
        name: "PromptPay payment code",
        message: b"00020101021129370016A000000677010111011300660000000005802TH53037646304",
        expected: [0x89, 0x56],
    },
];
