ghost use Rattle.runlaw.specs.Theorem.{ReadsTheClear, RunLawHolds};

/// The pure core of the run law, proved for every history. What a reader tells of all that was put in a fair run is the
/// clear packets as received, in order, and each gap; and a history of which a flow shows what it owes keeps the run law.
pub fn run_law_stands()
    ensures reads { ReadsTheClear }
    ensures holds { RunLawHolds }
{}
