ghost use Rattle.std.specs.Prelude.{◌≡◌};
ghost use Rattle.service.specs.Choosing.{word_of_service, NamesService, refuses_by};

use crate::plain::Plain;
use crate::service::{NotAdmitted, Service};
use crate::sync::Sync;

/// The services that a word can name.
// Checksums are chosen alike. A trait for the two would only add to them, since nothing asks for either of both.
#[derive(Clone, Copy, PartialEq, Eq, Debug)]
pub enum ServiceChoice {
    /// Every packet is admitted.
    Plain,
    /// Packets that begin with a lawful sync header are admitted.
    Sync,
}

impl ServiceChoice {
    /// The word that names the service.
    pub fn word(self) -> &'static str
        ensures { result.now ≡ word_of_service self }
    {
        match self {
            ServiceChoice::Plain => "plain",
            ServiceChoice::Sync => "sync",
        }
    }

    /// The service that this word names, if it names one.
    pub fn named(word: &[u8]) -> Option<ServiceChoice>
        ensures { NamesService word.now result }
    {
        match word {
            b"plain" => Some(ServiceChoice::Plain),
            b"sync" => Some(ServiceChoice::Sync),
            _ => None,
        }
    }
}

/// The service that is chosen judges.
impl Service for ServiceChoice {
    ghost verdict = { refuses_by };

    fn admit(&self, packet: &[u8]) -> Result<(), NotAdmitted> {
        match self {
            ServiceChoice::Plain => Plain.admit(packet),
            ServiceChoice::Sync => Sync.admit(packet),
        }
    }
}
