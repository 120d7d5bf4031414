ghost use Rattle.std.specs.Prelude.{◌≡◌, ℕ, List, Option};
ghost use Rattle.service.specs.Serving.{verdict_of};

/// The number under which a service refuses a packet.
// A number and not an enum: services are open, and each refuses by numbers of its own.
#[derive(Clone, Copy, PartialEq, Eq, Debug)]
pub struct NotAdmitted {
    pub number: u8,
}

/// What a flow's packets have to be. Its meaning is, for every byte string, admitted or a number; a service is lent and
/// not changed when it is asked, so it answers the same whenever it is asked.
pub trait Service {
    /// For each byte string nothing where it is admitted, else the number of the refusal.
    ghost verdict: { Self → List ℕ → Option ℕ };

    /// Whether `packet` is admitted.
    fn admit(&self, packet: &[u8]) -> Result<(), NotAdmitted>
        ensures { verdict_of result ≡ verdict self.now packet.now };
}
