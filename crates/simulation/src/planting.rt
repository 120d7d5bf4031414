use crate::carried::{Carriage, Change};
use crate::run::{Heard, Note, Run, Verdict};
use std::alloc::{AllocError, Global};
use std::fmt;

/// A wrong program, by the mistake that a caller sees. The law has to be broken wherever it is made.
#[derive(Clone, Copy, PartialEq, Eq, Debug)]
pub(crate) enum Mistake {
    /// A packet is not handed out.
    Swallows,
    /// A gap is not told.
    Conceals,
    /// A packet comes with a bit changed that was received otherwise.
    Garbles,
    /// All packets are called damaged.
    CallsDamaged,
    /// All packets are called sound.
    CallsSound,
}

impl fmt::Display for Mistake {
    fn fmt<W: fmt::Write>(&self, f: &mut fmt::Formatter<W>) -> fmt::Result {
        f.write_str(match self {
            Mistake::Swallows => "a packet is swallowed",
            Mistake::Conceals => "a gap is concealed",
            Mistake::Garbles => "a packet is garbled",
            Mistake::CallsDamaged => "all is called damaged",
            Mistake::CallsSound => "all is called sound",
        })
    }
}

fn garbled(mut packet: Vec<u8>) -> Vec<u8> {
    if let Some(first) = packet.first_mut() {
        *first ^= 1;
    }
    packet
}

impl Mistake {
    pub(crate) const ALL: [Mistake; 5] = [
        Mistake::Swallows,
        Mistake::Conceals,
        Mistake::Garbles,
        Mistake::CallsDamaged,
        Mistake::CallsSound,
    ];

    /// Whether the law forbids it in this run. A packet may be called damaged that was changed, and sound where it was changed
    /// beyond the reach.
    pub(crate) fn is_forbidden(self, carriage: &Carriage) -> bool {
        match self {
            Mistake::Swallows | Mistake::Conceals | Mistake::Garbles => true,
            Mistake::CallsDamaged => carriage.has(Change::Unchanged),
            Mistake::CallsSound => carriage.has(Change::WithinReach),
        }
    }

    /// Whether it can be made of this answer.
    fn concerns(self, heard: &Heard) -> bool {
        match heard {
            Heard::HandedOut { .. } => self != Mistake::Conceals,
            Heard::Lost => self == Mistake::Conceals,
            _ => false,
        }
    }

    /// What the caller hears in place of an answer that it is made of, if anything.
    fn misheard(self, heard: Heard) -> Option<Heard> {
        let Heard::HandedOut { verdict, packet } = heard else {
            return None;
        };
        let (verdict, packet) = match self {
            Mistake::Swallows | Mistake::Conceals => return None,
            Mistake::Garbles => (verdict, garbled(packet)),
            Mistake::CallsDamaged => (Verdict::Damaged, packet),
            Mistake::CallsSound => (Verdict::Sound, packet),
        };
        Some(Heard::HandedOut { verdict, packet })
    }

    /// The verdicts are changed wherever packets are handed out; the other mistakes are made once.
    fn is_made_always(self) -> bool {
        matches!(self, Mistake::CallsDamaged | Mistake::CallsSound)
    }

    /// The run as the wrong program has it; none where it has no answer to make the mistake of.
    pub(crate) fn make(self, heap: Global, run: Run) -> Result<Option<Run>, AllocError> {
        let Run { accepted, notes } = run;
        let mut wrong = Vec::new(heap);
        let mut made = false;
        for note in notes {
            if self.concerns(&note.heard) && (self.is_made_always() || !made) {
                made = true;
                let Note {
                    accepted,
                    put,
                    heard,
                } = note;
                if let Some(heard) = self.misheard(heard) {
                    wrong.push(Note {
                        accepted,
                        put,
                        heard,
                    })?;
                }
            } else {
                wrong.push(note)?;
            }
        }
        Ok(made.then_some(Run {
            accepted,
            notes: wrong,
        }))
    }
}
