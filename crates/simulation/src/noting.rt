use crate::run::{Heard, Note, Run, Verdict};
use receiver::answer::Reading;
use script::reply::{Answered, Reply};
use script::step::Step;
use std::alloc::{AllocError, Global};

/// What the law hears of a reading, with the packet that it may have handed out.
fn heard(reading: Reading, packet: &Vec<u8>) -> Result<Heard, AllocError> {
    let verdict = match reading {
        Reading::Sound { .. } => Verdict::Sound,
        Reading::Damaged { .. } => Verdict::Damaged,
        Reading::Foreign { .. } => Verdict::Foreign,
        Reading::Lost { .. } => return Ok(Heard::Lost),
        Reading::Torn { .. } => return Ok(Heard::Torn),
        Reading::Short => return Ok(Heard::Short),
        Reading::Mark { .. } => return Ok(Heard::Mark),
        Reading::Nothing => return Ok(Heard::Nothing),
    };
    let packet = packet.clone()?;
    Ok(Heard::HandedOut { verdict, packet })
}

impl Run {
    /// Notes what a reading answered when so much had been put. A refused one is none.
    fn hear(&mut self, answered: &Answered, put: usize) -> Result<(), AllocError> {
        if let Ok(reading) = answered.answer {
            let accepted = self.accepted.len();
            let heard = heard(reading, &answered.packet)?;
            self.notes.push(Note {
                accepted,
                put,
                heard,
            })?;
        }
        Ok(())
    }
}

/// What a caller sees of a script over a channel that had so much room when it was empty.
pub(crate) fn run_of(
    heap: Global,
    steps: &[Step],
    replies: &[Reply],
    room: usize,
) -> Result<Run, AllocError> {
    let mut run = Run {
        accepted: Vec::new(heap),
        notes: Vec::new(heap),
    };
    let mut put = 0usize;
    for (step, reply) in steps.iter().zip(replies.iter()) {
        match (step, reply) {
            (Step::Offer { packet }, Reply::Offer(Ok(()))) => run.accepted.push(packet.clone()?)?,
            (_, Reply::Room(left)) => put = room.saturating_sub(*left),
            (_, Reply::Read(answered)) => run.hear(answered, put)?,
            (_, Reply::Drained(all)) => {
                for answered in all.iter() {
                    run.hear(answered, put)?;
                }
            }
            _ => {}
        }
    }
    Ok(run)
}
