ghost use Rattle.std.specs.Prelude.{◌≡◌, ◌<◌, true, false, replicate, IfOk, Ok, None, Some, vec_len, vec_capacity, ◌≢◌};
ghost use Rattle.receiver.specs.declared.answer.Reading.TheVariants.{Nothing};
ghost use Rattle.flow.specs.Calls.{SetUp};
ghost use Rattle.script.specs.declared.reply.Reply.TheVariants.{Opening};
ghost use Rattle.script.specs.declared.step.Step.TheVariants.{Drain};
ghost use Rattle.script.specs.Answers.{handed_out};
ghost use Rattle.script.specs.Steps.{Opens, OffersFrom, ClosesFrom, ReadInto, Took, Ended};

use crate::reply::{Answered, Reply};
use crate::session::Session;
use crate::step::Step;
use crate::stopped::Stopped;
use channel::channel::Channel;
use checksum::checksum::Checksum;
use flow::faults::{CloseFault, OpenFault};
use flow::flow::Flow;
use flow::token::SuperframeToken;
use framing::judging::PACKET_MAX;
use receiver::answer::{BufferTooShort, Reading};
use receiver::terms::Terms;
use service::service::Service;
use std::alloc::{AllocError, Global};

/// A buffer of so many zeros. (`vec!` makes no less, but this clause is what both calls are proved by.)
fn zeros(heap: Global, len: usize) -> Result<Vec<u8>, AllocError>
    ensures { IfOk result (λ v. v.items ≡ replicate len 0) }
{
    Vec::from_elem(heap, 0, len)
}

/// Makes ready for one more reading of a drain: a buffer, and a place for its answer.
fn ready(heap: Global, answers: &mut Vec<Answered>) -> Result<Vec<u8>, AllocError>
    ensures items { answers.new.items ≡ answers.old.items }
    ensures made { IfOk result (λ v. (v.items ≡ replicate 2044 0) × (vec_len answers.new < vec_capacity answers.new)) }
{
    answers.reserve(1)?;
    zeros(heap, PACKET_MAX)
}

/// Whether a reading answered nothing. (A call, since the end of a drain is proved by this clause.)
fn is_nothing(answer: Result<Reading, BufferTooShort>) -> bool
    ensures { (result ≡ true → answer ≡ Ok Nothing) × (result ≡ false → answer ≢ Ok Nothing) }
{
    matches!(answer, Ok(Reading::Nothing))
}

/// How many bytes of the buffer are a packet that was handed out. (It takes a refusal too, which the receiver's answer does not hold.)
fn packet_len(answer: Result<Reading, BufferTooShort>) -> usize
    ensures { result ≡ handed_out answer }
{
    match answer {
        Ok(
            Reading::Sound { len } | Reading::Damaged { len } | Reading::Foreign { number: _, len },
        ) => len,
        _ => 0,
    }
}

/// Puts a token into a hand that is empty. (The crate `boundary` has the same: the flow, which both are over, knows of no hand.)
fn take_up(hand: &mut Option<SuperframeToken>, token: SuperframeToken)
    requires { hand.old ≡ None }
    ensures { hand.new ≡ Some token }
{
    match hand.replace(token) {
        None => {}
        Some(_held) => unreachable!(),
    }
}

impl<C: Channel, K: Checksum, S: Service> Session<C, K, S> {
    /// A session on a new flow, with no token in hand.
    pub(crate) fn begin(channel: C, terms: Terms<K, S>, id: u16) -> Session<C, K, S>
        ensures flow { SetUp C.space C.tied channel terms id result.flow }
        ensures hand { result.hand ≡ None }
    {
        Session {
            flow: Flow::new(channel, terms, id),
            hand: None,
        }
    }

    /// An opening. The token comes into the hand.
    pub(crate) fn open(&mut self, frames: usize) -> Result<(), OpenFault>
        ensures { Opens C.slots C.space C.made C.tied K.width K.value S.verdict frames (Opening result) self.old self.new }
    {
        let token = self.flow.opening(frames)?;
        take_up(&mut self.hand, token);
        Ok(())
    }

    /// An offer, with the token in hand.
    pub(crate) fn offer(&mut self, packet: &[u8]) -> Reply
        ensures { OffersFrom C.slots C.space C.made C.tied K.width K.value S.verdict self.old.hand packet.now result self.old self.new }
    {
        let Some(token) = self.hand.take() else {
            return Reply::NoToken;
        };
        let (token, answer) = self.flow.offer(token, packet);
        take_up(&mut self.hand, token);
        Reply::Offer(answer)
    }

    /// A closing, with the token in hand. It is never refused.
    pub(crate) fn close(&mut self) -> Reply
        ensures { ClosesFrom C.slots C.space C.made C.tied K.width K.value S.verdict self.old.hand result self.old self.new }
    {
        let Some(token) = self.hand.take() else {
            return Reply::NoToken;
        };
        match self.flow.closing(token) {
            Ok(()) => Reply::Closed,
            // It never comes, but a token cannot be dropped unseen.
            Err(CloseFault::WrongToken(_held)) => unreachable!(),
        }
    }

    /// One reading into this buffer, of which only a packet that was handed out is kept.
    pub(crate) fn read(&mut self, mut buffer: Vec<u8>) -> Answered
        ensures { ReadInto C.slots C.space C.made C.tied K.width K.value S.verdict buffer.items result self.old self.new }
    {
        let answer = self.flow.reading(buffer.as_mut_slice());
        buffer.truncate(packet_len(answer));
        buffer.shrink_to_fit();
        Answered {
            answer,
            packet: buffer,
        }
    }

    /// Readings, each into a buffer of 2,044 bytes, through the first that answers nothing. Memory is asked for before each.
    pub(crate) fn drain(&mut self, heap: Global) -> Result<Reply, Stopped>
        ensures { Took C.slots C.space C.made C.tied K.width K.value S.verdict Drain result self.old self.new }
    {
        let mut answers = Vec::new(heap);
        loop {
            let buffer = match ready(heap, &mut answers) {
                Ok(buffer) => buffer,
                Err(error) => return Err(Stopped::InDrain(answers, error)),
            };
            let answered = self.read(buffer);
            let last = is_nothing(answered.answer);
            answers.push_reserved(answered);
            if last {
                return Ok(Reply::Drained(answers));
            }
        }
    }

    /// One step. Memory is asked for before anything is done, so that no answer is lost.
    pub(crate) fn take_step(&mut self, heap: Global, step: &Step) -> Result<Reply, Stopped>
        ensures { Took C.slots C.space C.made C.tied K.width K.value S.verdict step.now result self.old self.new }
    {
        match step {
            Step::Open { frames } => Ok(Reply::Opening(self.open(*frames))),
            Step::Offer { packet } => Ok(self.offer(packet.as_slice())),
            Step::Close => Ok(self.close()),
            Step::Read { buffer_len } => {
                let buffer = zeros(heap, *buffer_len)?;
                Ok(Reply::Read(self.read(buffer)))
            }
            Step::Drain => self.drain(heap),
            Step::Room => Ok(Reply::Room(self.flow.room())),
            Step::Waits => Ok(Reply::Waits(self.flow.waits())),
        }
    }

    /// Closes the superframe that is open, if any, and gives the flow.
    #[tactic(auto, using(crate::proofs::Tokens::empties, crate::proofs::Tokens::ended))]
    pub fn end(mut self) -> Flow<C, K, S>
        ensures { Ended C.slots C.space C.made C.tied K.width K.value S.verdict self.hand self.flow result }
    {
        let _ = self.close();
        let Session { flow, hand } = self;
        match hand {
            None => flow,
            // It never comes, but a token cannot be dropped unseen.
            Some(_held) => unreachable!(),
        }
    }
}
