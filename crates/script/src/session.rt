ghost use Rattle.std.specs.Prelude.{◌≡◌};
ghost use Rattle.std.specs.Option.{is_some};
ghost use Rattle.flow.specs.Writing.{state_of};
ghost use Rattle.script.specs.Hands.{id_in_hand};

use flow::flow::Flow;
use flow::token::SuperframeToken;

/// A flow, and the token in hand while a superframe is open. It cannot be let go: `end` gives the token back.
pub struct Session<C, K, S> {
    pub(crate) flow: Flow<C, K, S>,
    pub(crate) hand: Option<SuperframeToken>,
    ghost open_in_hand: { is_some hand ≡ (state_of flow.writer).opened },
    ghost own: { id_in_hand hand flow.id ≡ flow.id },
}
