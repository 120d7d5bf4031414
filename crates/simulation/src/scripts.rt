use crate::random::Random;
use script::step::Step;
use service::choice::ServiceChoice;
use std::alloc::{AllocError, Global};

/// A length of which the edges are not the rarest.
fn length(random: &mut Random) -> usize {
    match random.below(12) {
        0..=4 => 1 + random.below(40),
        5 | 6 => 116 + random.below(8),
        7 => 236 + random.below(10),
        8 | 9 => 1 + random.below(700),
        10 => 2040 + random.below(6),
        _ => random.below(3),
    }
}

/// The front of a lawful sync header: video with a frame id, audio likewise with a time stamp, or adaptation.
fn header(random: &mut Random) -> [u8; 2] {
    match random.below(3) {
        0 => [0x04, random.below(60) as u8],
        1 => [0x0d, random.byte()],
        _ => [0x03, random.byte()],
    }
}

/// How many frames to open, now and then too few or too many.
fn frames(random: &mut Random) -> usize {
    match random.below(20) {
        0 => 0,
        1 => 199 + random.below(3),
        2 => random.below(100_000),
        3 | 4 => 10 + random.below(20),
        _ => 1 + random.below(5),
    }
}

fn buffer_len(random: &mut Random) -> usize {
    match random.below(5) {
        0 => random.below(2044),
        1 => 2043,
        2 => 2045 + random.below(500),
        _ => 2044,
    }
}

/// Who makes up a script: the numbers at random that it is made of, and the service that its packets are for.
#[derive(Drop)]
struct Author<'a> {
    heap: Global,
    random: &'a mut Random,
    service: ServiceChoice,
}

impl Author<'_> {
    /// A packet of random bytes. For the sync service it mostly begins with a sync header.
    fn packet(&mut self) -> Result<Vec<u8>, AllocError> {
        let len = length(self.random);
        let front = header(self.random);
        let lawful = self.service == ServiceChoice::Sync && self.random.happens(220);
        let mut bytes = Vec::new(self.heap);
        if lawful {
            bytes.extend_from_slice(&front[..len.min(2)])?;
        }
        for _ in bytes.len()..len {
            bytes.push(self.random.byte())?;
        }
        Ok(bytes)
    }

    /// One step. Where the script believes that no superframe is open, it mostly opens one.
    fn step(&mut self, believes_open: bool) -> Result<Step, AllocError> {
        let opens = if believes_open { 10 } else { 150 };
        if self.random.happens(opens) {
            return Ok(Step::Open {
                frames: frames(self.random),
            });
        }
        Ok(match self.random.below(16) {
            0 | 1 => Step::Close,
            2 | 3 => Step::Read {
                buffer_len: buffer_len(self.random),
            },
            4 => Step::Drain,
            5 => Step::Waits,
            _ => Step::Offer {
                packet: self.packet()?,
            },
        })
    }
}

/// A random script. It asks for the room before each reading, so that the moment of each answer is known, and ends with a
/// closing and readings through the first that answers nothing.
pub(crate) fn random_script(
    heap: Global,
    random: &mut Random,
    service: ServiceChoice,
) -> Result<Vec<Step>, AllocError> {
    let mut steps = Vec::new(heap);
    let mut believes_open = false;
    let count = 4 + random.below(50);
    let mut author = Author {
        heap,
        random,
        service,
    };
    for _ in 0..count {
        let next = author.step(believes_open)?;
        match &next {
            Step::Open { .. } => believes_open = true,
            Step::Close => believes_open = false,
            Step::Read { .. } | Step::Drain => steps.push(Step::Room)?,
            _ => {}
        }
        steps.push(next)?;
    }
    steps.push(Step::Close)?;
    steps.push(Step::Room)?;
    steps.push(Step::Drain)?;
    Ok(steps)
}
