ghost use Rattle.std.specs.Prelude.{true, false, [], ◌∷◌};
ghost use Rattle.runlaw.specs.Examples.{comes, goes, ComesOut, long_and_short, of_200, of_100, in_one, in_two, of_121};

/// What lost frames cost, worked out on examples: packets of 200 and of 100 bytes in a superframe of three frames; two
/// packets of 121 bytes, in one superframe of two frames and in two superframes of one frame, where packets may not cross
/// superframes, and where they may.
pub fn worked_losses()
    ensures first_of_three { ComesOut false (long_and_short goes comes comes) (of_100 ∷ []) }
    ensures second_of_three { ComesOut false (long_and_short comes goes comes) [] }
    ensures third_of_three { ComesOut false (long_and_short comes comes goes) (of_200 ∷ []) }
    ensures none_of_three { ComesOut false (long_and_short comes comes comes) (of_200 ∷ of_100 ∷ []) }
    ensures in_one_superframe { ComesOut false (in_one goes comes) [] }
    ensures in_two_superframes { ComesOut false (in_two goes comes) (of_121 ∷ []) }
    ensures where_packets_cross { ComesOut true (in_two goes comes) [] }
{}
