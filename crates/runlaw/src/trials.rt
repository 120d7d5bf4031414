ghost use Rattle.std.specs.Prelude.{true, false};
ghost use Rattle.runlaw.specs.Trials.{Allows, CanBeShown, TurnsDown, goes_well, passes_round, cuts_first_only, puts_another, finds_nothing, gives_one_a_frame, calls_all_sound, calls_all_damaged, trusts_after_gap, trusts_a_mark};

/// The law tried on runs of wrong programs, which it turns down, and on a right one, which it allows: of that run a flow
/// can show all that the law is proved from.
pub fn wrong_runs_are_turned_down()
    ensures shows_a_right_run { CanBeShown false 0 goes_well }
    ensures allows_a_right_run { Allows false 0 goes_well }
    ensures packets_round_the_channel { TurnsDown false 0 passes_round }
    ensures only_the_first_offer { TurnsDown false 0 cuts_first_only }
    ensures another_frame { TurnsDown false 0 puts_another }
    ensures always_nothing { TurnsDown false 0 finds_nothing }
    ensures one_packet_a_frame { TurnsDown false 0 gives_one_a_frame }
    ensures all_sound { TurnsDown false 1 calls_all_sound }
    ensures all_damaged { TurnsDown false 0 calls_all_damaged }
    ensures after_a_gap { TurnsDown false 0 trusts_after_gap }
    ensures over_a_mark { TurnsDown true 0 trusts_a_mark }
{}
