use crate::command::{FlowSetup, Source};
use channel::channel::Channel;
use channel::fade::Fade;
use channel::pattern::FadePattern;
use channel::ring::Ring;
use checksum::checksum::Checksum;
use checksum::choice::ChecksumChoice;
use checksum::crc16::Crc16;
use checksum::none::NoChecksum;
use receiver::terms::Terms;
use reel::playing::ReelChannel;
use script::reply::Reply;
use script::running::{Outcome, run_steps};
use script::step::Step;
use service::choice::ServiceChoice;
use spelling::fault::LineFault;
use std::alloc::Global;

/// The largest ring that is set up: its memory is written before the flow begins.
const RING_MAX: usize = 1 << 30;

/// A flow that is to be set up, with the memory of its channel.
#[derive(Drop)]
pub struct Stage {
    setup: FlowSetup<Vec<u8>>,
    fade: FadePattern,
}

impl Stage {
    /// Makes the memory of the channel.
    pub(crate) fn new(
        heap: Global,
        setup: FlowSetup<usize>,
        fade: FadePattern,
    ) -> Result<Stage, LineFault> {
        let FlowSetup { id, terms, source } = setup;
        let source = match source {
            Source::Ring(size) if size > RING_MAX => return Err(LineFault::RingTooLarge),
            Source::Ring(size) => Source::Ring(vec![in heap; 0u8; size]?),
            Source::Reel(reel) => Source::Reel(reel),
        };
        Ok(Stage {
            setup: FlowSetup { id, terms, source },
            fade,
        })
    }

    /// The id of the flow.
    pub(crate) fn id(&self) -> u16 {
        self.setup.id
    }

    /// Sets the flow up, does the steps, and gives what they answered. There are fewer answers than steps only where memory
    /// ran out.
    pub(crate) fn run(self, heap: Global, steps: &[Step]) -> Vec<Reply> {
        let Stage { setup, fade } = self;
        let FlowSetup { id, terms, source } = setup;
        match source {
            Source::Ring(mut memory) => {
                let ring = Ring::new(memory.as_mut_slice());
                run_over(heap, Fade::over(ring, fade), terms, id, steps)
            }
            Source::Reel(bytes) => {
                let reel = ReelChannel::over(bytes.as_slice());
                run_over(heap, Fade::over(reel, fade), terms, id, steps)
            }
        }
    }
}

/// The checksum is chosen: which one it is belongs to a flow's type.
fn run_over<C: Channel + Drop>(
    heap: Global,
    channel: C,
    terms: Terms<ChecksumChoice, ServiceChoice>,
    id: u16,
    steps: &[Step],
) -> Vec<Reply> {
    match terms.checksum {
        ChecksumChoice::Without => {
            run_flow(heap, channel, with_checksum(terms, NoChecksum), id, steps)
        }
        ChecksumChoice::Crc16 => run_flow(heap, channel, with_checksum(terms, Crc16), id, steps),
    }
}

/// The same terms, with this checksum. (Terms cannot be changed in place, since another checksum is another type.)
fn with_checksum<K>(
    terms: Terms<ChecksumChoice, ServiceChoice>,
    checksum: K,
) -> Terms<K, ServiceChoice> {
    Terms {
        checksum,
        service: terms.service,
        fasb: terms.fasb,
    }
}

/// The flow runs, by the call that runs a script: the answers are those of its outcome. At its end a superframe that is still open is closed.
fn run_flow<C: Channel + Drop, K: Checksum + Drop>(
    heap: Global,
    channel: C,
    terms: Terms<K, ServiceChoice>,
    id: u16,
    steps: &[Step],
) -> Vec<Reply> {
    let Outcome {
        session,
        replies,
        done: _,
    } = run_steps(heap, channel, terms, id, steps);
    let _channel = session.end().into_channel();
    replies
}
