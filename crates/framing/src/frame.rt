ghost use Rattle.std.specs.Prelude.{◌≡◌, length, OkIff};

/// One frame: 122 bytes, a row of fragments.
#[derive(Clone, Copy, PartialEq, Eq, Debug)]
pub struct Frame {
    pub bytes: [u8; 122],
}

/// The question whether the bytes are 122.
const IS_A_FRAME: u8 = 10;

/// The refusal of bytes that are more or fewer than a frame's 122.
#[derive(Clone, Copy, PartialEq, Eq, Debug)]
pub struct NotAFrame;

impl NotAFrame {
    /// The number of the question that was answered no.
    pub fn number(self) -> u8
        ensures { result ≡ 10 }
    {
        IS_A_FRAME
    }
}

impl TryFrom<&[u8]> for Frame {
    type Error = NotAFrame;

    ghost try_from_gives = { λ bytes r. OkIff r (length bytes.now ≡ 122) (record { bytes = bytes.now }) };

    fn try_from(bytes: &[u8]) -> Result<Frame, NotAFrame> {
        let bytes = <[u8; 122]>::try_from(bytes).map_err(|_| NotAFrame)?;
        Ok(Frame { bytes })
    }
}
