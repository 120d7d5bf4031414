ghost use Rattle.std.specs.Prelude.{◌≡◌, None, Some, is_some};
ghost use Rattle.flow.specs.Writing.{state_of};
ghost use Rattle.boundary.specs.Hands.{id_in_hand};
ghost use Rattle.boundary.specs.Untold.{untold_of_flow};

use crate::reading::Source;
use channel::channel::Channel;
use checksum::checksum::Checksum;
use flow::faults::{CloseFault, OfferFault, OpenFault};
use flow::flow::Flow;
use flow::token::SuperframeToken;
use receiver::answer::{BufferTooShort, Reading};
use receiver::terms::Terms;
use service::service::Service;

/// Why a call on a flow came to nothing.
#[derive(Clone, Copy, PartialEq, Eq, Debug)]
pub(crate) enum Refusal {
    /// It was not made: there was no token to make it with.
    NoToken,
    Opening(OpenFault),
    Offer(OfferFault),
    /// A closing was refused by the question of this number. (Its fault has the token in it, which goes back into the hand.)
    Closing(u8),
}

impl Refusal {
    /// The number of the question that was answered no, and the service's own; 255 where no question was put.
    pub(crate) fn numbers(self) -> [u8; 2] {
        match self {
            Refusal::NoToken => [255, 0],
            Refusal::Opening(fault) => [fault.number(), 0],
            Refusal::Offer(fault) => match fault {
                OfferFault::NotServed(refusal) => [fault.number(), refusal.number],
                _ => [fault.number(), 0],
            },
            Refusal::Closing(number) => [number, 0],
        }
    }
}

/// A flow, with the token of its superframe in hand while one is open. The sessions of the crate `script` are others: they read into
/// memory from the heap, and answer in replies that hold it. Here nothing takes memory, and answers are numbers; and a token is
/// tried on another flow, which those sessions never do.
pub(crate) struct Session<C, K, S> {
    flow: Flow<C, K, S>,
    hand: Option<SuperframeToken>,
    ghost open_in_hand: { is_some hand ≡ (state_of flow.writer).opened },
    ghost own: { id_in_hand hand flow.id ≡ flow.id },
}

/// Puts a token into an empty hand. (The crate `script` has the same for its own hands. Both are private: who held a flow by such a
/// function of the interface would have to ask of all callers that the hand be empty.)
fn hold(hand: &mut Option<SuperframeToken>, token: SuperframeToken)
    requires { hand.old ≡ None }
    ensures { hand.new ≡ Some token }
{
    match hand.replace(token) {
        None => {}
        Some(_held) => unreachable!(),
    }
}

/// Offers a packet to a flow with the token in hand, be it the flow's own or not. It stays in hand.
fn offer_with<C: Channel, K: Checksum, S: Service>(
    hand: &mut Option<SuperframeToken>,
    flow: &mut Flow<C, K, S>,
    packet: &[u8],
) -> Result<(), Refusal>
    ensures hand { hand.new ≡ hand.old }
    ensures id { flow.new.id ≡ flow.old.id }
    ensures opened { (state_of flow.new.writer).opened ≡ (state_of flow.old.writer).opened }
{
    let token = hand.take().ok_or(Refusal::NoToken)?;
    let (token, answer) = flow.offer(token, packet);
    hold(hand, token);
    answer.map_err(Refusal::Offer)
}

impl<C: Channel, K: Checksum, S: Service> Session<C, K, S> {
    /// A session on a new flow, with no token in hand.
    pub(crate) fn begin(channel: C, terms: Terms<K, S>, id: u16) -> Session<C, K, S> {
        Session {
            flow: Flow::new(channel, terms, id),
            hand: None,
        }
    }

    /// Opens a superframe of so many frames.
    pub(crate) fn open(&mut self, frames: usize) -> Result<(), Refusal> {
        let token = self.flow.opening(frames).map_err(Refusal::Opening)?;
        hold(&mut self.hand, token);
        Ok(())
    }

    /// Offers a packet with the token in hand.
    pub(crate) fn offer(&mut self, packet: &[u8]) -> Result<(), Refusal> {
        offer_with(&mut self.hand, &mut self.flow, packet)
    }

    /// Closes the open superframe. Its own token is never refused.
    pub(crate) fn close(&mut self) -> Result<(), Refusal>
        ensures { self.new.hand ≡ None }
    {
        let token = self.hand.take().ok_or(Refusal::NoToken)?;
        match self.flow.closing(token) {
            Ok(()) => Ok(()),
            Err(_fault) => unreachable!(),
        }
    }

    /// Offers a packet to another flow with the token in hand here.
    pub(crate) fn offer_astray<D: Channel, L: Checksum, T: Service>(
        &mut self,
        other: &mut Session<D, L, T>,
        packet: &[u8],
    ) -> Result<(), Refusal>
        ensures { self.new.hand ≡ self.old.hand }
    {
        offer_with(&mut self.hand, &mut other.flow, packet)
    }

    /// Tries to close another flow with the token in hand here. (Were it that flow's, it would not be tried.)
    pub(crate) fn close_astray<D: Channel, L: Checksum, T: Service>(
        &mut self,
        other: &mut Session<D, L, T>,
    ) -> Result<(), Refusal>
        ensures { self.new.hand ≡ self.old.hand }
    {
        let token = self.hand.take().ok_or(Refusal::NoToken)?;
        if other.flow.holds(&token) {
            hold(&mut self.hand, token);
            return Err(Refusal::NoToken);
        }
        match other.flow.closing(token) {
            Ok(()) => unreachable!(),
            Err(fault) => {
                let number = fault.number();
                let CloseFault::WrongToken(token) = fault;
                hold(&mut self.hand, token);
                Err(Refusal::Closing(number))
            }
        }
    }

    /// The room of the channel.
    pub(crate) fn room(&self) -> usize {
        self.flow.room()
    }

    /// Whether a slot waits on the channel.
    pub(crate) fn waits(&self) -> bool {
        self.flow.waits()
    }
}

impl<C: Channel, K: Checksum, S: Service> Source for Session<C, K, S> {
    ghost untold = { λ s. untold_of_flow C.slots K.width s.flow };

    ghost held = { λ s. s.hand };

    fn reading(&mut self, buffer: &mut [u8]) -> Result<Reading, BufferTooShort> {
        self.flow.reading(buffer)
    }
}

impl<C: Channel + Drop, K: Checksum + Drop, S: Service + Drop> Session<C, K, S> {
    /// Closes what is open, and lets the flow go.
    pub(crate) fn end(mut self) {
        // It is refused only where nothing is open.
        let _ = self.close();
        let Session { flow, hand } = self;
        match hand {
            None => {}
            Some(_held) => unreachable!(),
        }
        let _ = flow.into_channel();
    }
}
