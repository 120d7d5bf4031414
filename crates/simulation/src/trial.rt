use crate::carried::Carriage;
use crate::counts::{Counts, Planted};
use crate::law::{Broken, check_law};
use crate::noise::Noise;
use crate::noting::run_of;
use crate::planting::Mistake;
use crate::random::Random;
use crate::run::{Agreed, Run};
use crate::scripts::random_script;
use crate::tape::{Passage, Tape};
use channel::channel::Channel;
use checksum::checksum::Checksum;
use checksum::choice::ChecksumChoice;
use checksum::crc16::Crc16;
use checksum::none::NoChecksum;
use receiver::terms::Terms;
use script::reply::Reply;
use script::running::{Outcome, run_steps};
use script::step::Step;
use service::choice::ServiceChoice;
use std::alloc::{AllocError, Global};

/// What the trials of one or more scripts came to.
#[derive(Clone, Copy)]
pub(crate) struct Findings {
    pub(crate) counts: Counts,
    pub(crate) broken: Broken,
    /// What came of each mistake.
    pub(crate) planted: [Planted; 5],
}

/// A script that was run: its replies, what was put with what came of it, and the room that there was for that.
#[derive(Drop)]
struct Played {
    replies: Vec<Reply>,
    passages: Vec<Passage>,
    room: usize,
}

/// Runs the steps on a new flow over this tape, with this checksum and the rest of the terms.
fn play<K: Checksum + Drop>(
    heap: Global,
    tape: Tape,
    checksum: K,
    agreed: Agreed,
    steps: &[Step],
) -> Result<Played, AllocError> {
    let terms = Terms {
        checksum,
        service: agreed.service,
        fasb: agreed.fasb,
    };
    let room = tape.room();
    let Outcome {
        session,
        replies,
        done,
    } = run_steps(heap, tape, terms, 1, steps);
    let passages = session.end().into_channel().into_passages();
    done?;
    Ok(Played {
        replies,
        passages,
        room,
    })
}

/// What one script is run with.
#[derive(Clone, Copy)]
struct Setting {
    terms: Agreed,
    noise: Noise,
}

impl Setting {
    fn random(random: &mut Random) -> Setting {
        let quiet = random.happens(40);
        let lossless = random.happens(40);
        let fasb = random.happens(128);
        let checksum = if random.happens(160) {
            ChecksumChoice::Crc16
        } else {
            ChecksumChoice::Without
        };
        let service = if random.happens(100) {
            ServiceChoice::Sync
        } else {
            ServiceChoice::Plain
        };
        Setting {
            terms: Terms {
                checksum,
                service,
                fasb,
            },
            noise: Noise {
                random: Random::new(random.next()),
                losses: if lossless { 0 } else { random.byte() / 3 },
                changes: if quiet { 0 } else { random.byte() },
                goes_on: [0; 3],
            },
        }
    }

    /// Plays the steps. Which checksum it is belongs to the type of the flow, so that there is one call for each.
    fn play(self, heap: Global, room: usize, steps: &[Step]) -> Result<Played, AllocError> {
        let tape = Tape::new(heap, room, self.noise)?;
        match self.terms.checksum {
            ChecksumChoice::Without => play(heap, tape, NoChecksum, self.terms, steps),
            ChecksumChoice::Crc16 => play(heap, tape, Crc16, self.terms, steps),
        }
    }
}

/// All that is known of a script that was run.
#[derive(Clone, Copy)]
struct Scene<'a> {
    heap: Global,
    steps: &'a [Step],
    replies: &'a [Reply],
    carriage: &'a Carriage,
    /// The room of the channel when it was empty.
    room: usize,
}

impl Scene<'_> {
    fn run(&self) -> Result<Run, AllocError> {
        run_of(self.heap, self.steps, self.replies, self.room)
    }

    fn check(&self, run: &Run) -> Result<Broken, AllocError> {
        check_law(self.heap, run, self.carriage)
    }

    /// Plants a mistake, where the law forbids it, and notes whether the law is then found broken.
    fn plant(&self, planted: &mut Planted) -> Result<(), AllocError> {
        let mistake = planted.mistake;
        if mistake.is_forbidden(self.carriage)
            && let Some(wrong) = mistake.make(self.heap, self.run()?)?
        {
            planted.note(&self.check(&wrong)?);
        }
        Ok(())
    }
}

impl Default for Findings {
    /// Those of no script.
    fn default() -> Findings {
        Findings {
            counts: Counts::default(),
            broken: Broken::default(),
            planted: Mistake::ALL.map(|mistake| Planted::never(mistake)),
        }
    }
}

impl Findings {
    /// Counts what happened in a script, and checks the law on it.
    fn add(&mut self, scene: &Scene<'_>) -> Result<(), AllocError> {
        let run = scene.run()?;
        self.counts.count(scene.replies, &run, scene.carriage);
        self.broken += scene.check(&run)?;
        for planted in self.planted.iter_mut() {
            scene.plant(planted)?;
        }
        Ok(())
    }

    /// Makes up a script, runs it, and checks the law.
    pub(crate) fn try_script(&mut self, heap: Global, seed: u64) -> Result<(), AllocError> {
        let mut random = Random::new(seed);
        let setting = Setting::random(&mut random);
        let steps = random_script(heap, &mut random, setting.terms.service)?;
        let room = 20 + random.below(250);
        let played = setting.play(heap, room, steps.as_slice())?;
        let Played {
            replies,
            passages,
            room,
        } = played;
        let carriage = Carriage::of(heap, passages, setting.terms)?;
        self.add(&Scene {
            heap,
            steps: steps.as_slice(),
            replies: replies.as_slice(),
            carriage: &carriage,
            room,
        })
    }
}
