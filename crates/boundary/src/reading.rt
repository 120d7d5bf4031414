ghost use Rattle.std.specs.Prelude.{ℕ, ◌≡◌, ◌<◌, IfOk, ◌≢◌, Option, None};
ghost use Rattle.flow.specs.declared.token.SuperframeToken.{SuperframeToken};
ghost use Rattle.receiver.specs.declared.answer.Reading.TheVariants.{Nothing};
ghost use Rattle.boundary.specs.Untold.{untold_of_receiver};

use channel::channel::Channel;
use checksum::checksum::Checksum;
use receiver::answer::{BufferTooShort, Reading};
use receiver::receiver::Receiver;
use service::service::Service;

/// What can be read to its end.
pub(crate) trait Source {
    /// How many answers it still owes.
    ghost untold: { Self → ℕ };

    /// The token that it has in hand, if any.
    ghost held: { Self → Option SuperframeToken };

    /// One reading. It leaves less to be told, where it does not answer nothing, and the token in hand where it is.
    fn reading(&mut self, buffer: &mut [u8]) -> Result<Reading, BufferTooShort>
        ensures less { IfOk result (λ answer. answer ≢ Nothing → untold self.new < untold self.old) }
        ensures keeps { held self.new ≡ held self.old };
}

impl<C: Channel, K: Checksum, S: Service> Source for Receiver<C, K, S> {
    ghost untold = { untold_of_receiver C.slots K.width };

    ghost held = { λ _. None };

    #[inline(always)]
    fn reading(&mut self, buffer: &mut [u8]) -> Result<Reading, BufferTooShort> {
        self.read(buffer)
    }
}

/// Reads on through the first reading that answers nothing, or that is refused, and hands each answer on with the buffer.
pub(crate) fn read_on<R: Source, F: FnMut(Reading, &[u8])>(
    source: &mut R,
    buffer: &mut [u8],
    mut tell: F,
) -> Result<(), BufferTooShort>
where
    F: Drop,
    requires { F.IsAlwaysCallable tell }
    ensures { R.held source.new ≡ R.held source.old }
{
    loop {
        let answer = source.reading(buffer)?;
        tell(answer, buffer);
        if answer == Reading::Nothing {
            return Ok(());
        }
    }
}
