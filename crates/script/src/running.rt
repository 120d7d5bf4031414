ghost use Rattle.std.specs.Prelude.{◌≡◌, []};
ghost use Rattle.script.specs.Scripts.{RanScript, TookSteps};

use crate::reply::Reply;
use crate::session::Session;
use crate::step::Step;
use crate::stopped::Stopped;
use channel::channel::Channel;
use checksum::checksum::Checksum;
use receiver::terms::Terms;
use service::service::Service;
use std::alloc::{AllocError, Global};

/// What became of a script.
pub struct Outcome<C, K, S> {
    /// The flow, and the token where a superframe is still open.
    pub session: Session<C, K, S>,
    /// One for each step done, in order. Where want of memory stopped a drain midway, the last has what it had read.
    pub replies: Vec<Reply>,
    /// An error where want of memory stopped the run. What was done stands.
    pub done: Result<(), AllocError>,
}

/// Runs a list of steps on a new flow over `channel`.
pub fn run_steps<C: Channel, K: Checksum, S: Service>(
    heap: Global,
    channel: C,
    terms: Terms<K, S>,
    id: u16,
    steps: &[Step],
) -> Outcome<C, K, S>
    ensures { RanScript C.slots C.space C.made C.tied K.width K.value S.verdict K.reach channel terms id steps.now result }
{
    let mut session = Session::begin(channel, terms, id);
    let mut replies = Vec::new(heap);
    let done = take_steps(heap, &mut session, steps, &mut replies);
    Outcome {
        session,
        replies,
        done,
    }
}

/// Takes the steps one after another, and adds what each answered to the replies, of which there are none yet.
fn take_steps<C: Channel, K: Checksum, S: Service>(
    heap: Global,
    session: &mut Session<C, K, S>,
    steps: &[Step],
    replies: &mut Vec<Reply>,
) -> Result<(), AllocError>
    requires { replies.old.items ≡ [] }
    ensures { TookSteps C.slots C.space C.made C.tied K.width K.value S.verdict steps.now replies.new.items result session.old session.new }
{
    for step in steps {
        replies.reserve(1)?;
        match session.take_step(heap, step) {
            Ok(reply) => replies.push_reserved(reply),
            Err(Stopped::BeforeIt(error)) => return Err(error),
            Err(Stopped::InDrain(answers, error)) => {
                replies.push_reserved(Reply::Drained(answers));
                return Err(error);
            }
        }
    }
    Ok(())
}
