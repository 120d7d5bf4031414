use crate::carried::{Carriage, Change};
use crate::law::Broken;
use crate::planting::Mistake;
use crate::run::{Heard, Run, Verdict};
use script::reply::{Answered, Reply};
use std::num::Saturating;

/// A number that stays at the largest where it would pass it.
pub(crate) type Counter = Saturating<u64>;

/// How often a mistake was planted in a run, and how often the law was then found broken.
#[derive(Clone, Copy)]
pub(crate) struct Planted {
    pub(crate) mistake: Mistake,
    pub(crate) made: Counter,
    pub(crate) found: Counter,
}

impl Planted {
    /// Not yet planted.
    pub(crate) fn never(mistake: Mistake) -> Planted {
        Planted {
            mistake,
            made: Counter::default(),
            found: Counter::default(),
        }
    }

    pub(crate) fn note(&mut self, broken: &Broken) {
        self.made += 1;
        self.found += u64::from(broken.any());
    }
}

/// What happened in the scripts so far.
#[derive(Clone, Copy, Default)]
pub(crate) struct Counts {
    /// Openings, offers, closings and readings, the refused ones among them.
    pub(crate) calls: Counter,
    /// Those refused, by number: index 0 is number 1. (Numbers, and no enum: they are those of the faults of four types.)
    pub(crate) refused: [Counter; 8],
    /// Offers and closings asked for with no token in hand, which are no calls.
    pub(crate) no_token: Counter,
    pub(crate) offered: Counter,
    pub(crate) accepted: Counter,
    pub(crate) put: Counter,
    pub(crate) clear: Counter,
    pub(crate) sound: Counter,
    pub(crate) damaged: Counter,
    pub(crate) foreign: Counter,
    /// Frames and marks put, and how many of them became gaps.
    pub(crate) passages: Counter,
    pub(crate) gaps: Counter,
    pub(crate) lost: Counter,
    /// Clear packets that came unchanged, changed, and changed within one stretch no longer than the reach.
    pub(crate) unchanged: Counter,
    pub(crate) changed: Counter,
    pub(crate) within_reach: Counter,
}

impl Counts {
    fn refuse(&mut self, number: u8) {
        let index = usize::from(number).saturating_sub(1);
        if let Some(refused) = self.refused.get_mut(index) {
            *refused += 1;
        }
    }

    fn count_reading(&mut self, answered: &Answered) {
        self.calls += 1;
        if let Err(short) = answered.answer {
            self.refuse(short.number());
        }
    }

    /// Counts a step by its reply.
    fn count_reply(&mut self, reply: &Reply) {
        match reply {
            Reply::Opening(answer) => {
                self.calls += 1;
                if let Err(fault) = answer {
                    self.refuse(fault.number());
                }
            }
            Reply::Offer(answer) => {
                self.calls += 1;
                self.offered += 1;
                match answer {
                    Ok(()) => self.accepted += 1,
                    Err(fault) => self.refuse(fault.number()),
                }
            }
            Reply::Closed => self.calls += 1,
            Reply::NoToken => self.no_token += 1,
            Reply::Read(answered) => self.count_reading(answered),
            Reply::Drained(all) => {
                for answered in all.iter() {
                    self.count_reading(answered);
                }
            }
            Reply::Room(_) | Reply::Waits(_) => {}
        }
    }

    /// Counts a clear packet by what came of it.
    fn count_clear(&mut self, change: Change) {
        self.clear += 1;
        match change {
            Change::Unchanged => self.unchanged += 1,
            Change::WithinReach => {
                self.changed += 1;
                self.within_reach += 1;
            }
            Change::BeyondReach => self.changed += 1,
        }
    }

    fn count_heard(&mut self, heard: &Heard) {
        match heard {
            Heard::HandedOut { verdict, .. } => match verdict {
                Verdict::Sound => self.sound += 1,
                Verdict::Damaged => self.damaged += 1,
                Verdict::Foreign => self.foreign += 1,
            },
            Heard::Lost => self.lost += 1,
            _ => {}
        }
    }

    /// Counts what happened in one more script.
    pub(crate) fn count(&mut self, replies: &[Reply], run: &Run, carriage: &Carriage) {
        for reply in replies {
            self.count_reply(reply);
        }
        for packet in carriage.packets.whole.iter() {
            self.put += 1;
            if let Some(clear) = packet.clear() {
                self.count_clear(clear.change(carriage.terms.checksum));
            }
        }
        for note in run.notes.iter() {
            self.count_heard(&note.heard);
        }
        let passages = carriage.passages.len();
        self.passages += passages as u64;
        self.gaps += carriage.gaps(passages) as u64;
    }
}
