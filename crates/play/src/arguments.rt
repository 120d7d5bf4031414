use checksum::choice::ChecksumChoice;
use service::choice::ServiceChoice;
use service::header::Kind;
use spelling::decimal::number;
use spelling::fault::LineFault;
use spelling::hex::{decode, is_dash};
use spelling::words::Words;
use std::alloc::Global;

/// The words behind the name of a command, each of which tells something by its place.
#[derive(Clone, Copy)]
pub(crate) struct Arguments<'a> {
    pub(crate) words: Words<'a>,
}

impl<'a> Arguments<'a> {
    /// The next word, which has to be there.
    pub(crate) fn word(&mut self) -> Result<&'a [u8], LineFault> {
        self.words.next().ok_or(LineFault::MissingWord)
    }

    /// There is no word left.
    pub(crate) fn end(&mut self) -> Result<(), LineFault> {
        match self.words.next() {
            Some(_) => Err(LineFault::ExtraWord),
            None => Ok(()),
        }
    }

    /// The next word, which has to be this one.
    pub(crate) fn keyword(&mut self, keyword: &[u8]) -> Result<(), LineFault> {
        if self.word()? == keyword {
            Ok(())
        } else {
            Err(LineFault::UnknownWord)
        }
    }

    /// What the next word names, where `named` knows it.
    fn choice<T, F: Fn(&[u8]) -> Option<T>>(&mut self, named: F) -> Result<T, LineFault>
        requires { F.IsAlwaysCallable named }
    {
        named(self.word()?).ok_or(LineFault::UnknownWord)
    }

    /// The bytes that the next word spells.
    pub(crate) fn bytes(&mut self, heap: Global) -> Result<Vec<u8>, LineFault> {
        decode(heap, self.word()?)
    }

    /// The number that the next word spells.
    pub(crate) fn number<T: TryFrom<usize>>(&mut self) -> Result<T, LineFault>
    where
        T::Error: Drop,
    {
        fitting(self.word()?)
    }

    /// The number that the next word spells, or nothing for `-`.
    pub(crate) fn number_or_none<T: TryFrom<usize>>(&mut self) -> Result<Option<T>, LineFault>
    where
        T::Error: Drop,
    {
        let word = self.word()?;
        if is_dash(word) {
            return Ok(None);
        }
        Ok(Some(fitting(word)?))
    }

    /// The number that the next word spells, where there is a word left.
    pub(crate) fn number_if_any(&mut self) -> Result<Option<usize>, LineFault> {
        self.words.next().map(fitting).transpose()
    }

    /// `yes` or `no`. (spelling gives the words for an answer, and only a script reads them.)
    pub(crate) fn yes_or_no(&mut self) -> Result<bool, LineFault> {
        self.choice(|word| match word {
            b"yes" => Some(true),
            b"no" => Some(false),
            _ => None,
        })
    }

    /// `on` or `off`. (The program's own arguments are read in the crate `console`, from text and not from bytes.)
    pub(crate) fn on_or_off(&mut self) -> Result<bool, LineFault> {
        self.choice(|word| match word {
            b"on" => Some(true),
            b"off" => Some(false),
            _ => None,
        })
    }

    /// `crc16` or `none`.
    pub(crate) fn checksum(&mut self) -> Result<ChecksumChoice, LineFault> {
        self.choice(ChecksumChoice::named)
    }

    /// `sync` or `plain`.
    pub(crate) fn service(&mut self) -> Result<ServiceChoice, LineFault> {
        self.choice(ServiceChoice::named)
    }

    /// What a sync packet carries. (service gives each kind its word, and only a script reads them.)
    pub(crate) fn kind(&mut self) -> Result<Kind, LineFault> {
        self.choice(|word| match word {
            b"video" => Some(Kind::Video),
            b"audio" => Some(Kind::Audio),
            b"data" => Some(Kind::TimedData),
            b"adaptation" => Some(Kind::Adaptation),
            _ => None,
        })
    }
}

/// The number that a word spells, in the type that it is for.
fn fitting<T: TryFrom<usize>>(word: &[u8]) -> Result<T, LineFault>
where
    T::Error: Drop,
{
    let number = number(word).ok_or(LineFault::NotANumber)?;
    T::try_from(number).map_err(|_| LineFault::NumberTooLarge)
}
