ghost use Rattle.std.specs.Prelude.{◌≡◌};
ghost use Rattle.checksum.specs.Choosing.{word_of_checksum, NamesChecksum};

/// The checksums that a word can name.
// The services that a word can name have the same two methods, each with the words of its own; a trait for two would be longer.
#[derive(Clone, Copy, PartialEq, Eq, Debug)]
pub enum ChecksumChoice {
    /// No checksum.
    Without,
    /// CRC-16.
    Crc16,
}

impl ChecksumChoice {
    /// The word that names the checksum.
    pub fn word(self) -> &'static str
        ensures { result.now ≡ word_of_checksum self }
    {
        match self {
            ChecksumChoice::Without => "none",
            ChecksumChoice::Crc16 => "crc16",
        }
    }

    /// The checksum that this word names, if it names one.
    pub fn named(word: &[u8]) -> Option<ChecksumChoice>
        ensures { NamesChecksum word.now result }
    {
        match word {
            b"none" => Some(ChecksumChoice::Without),
            b"crc16" => Some(ChecksumChoice::Crc16),
            _ => None,
        }
    }
}
