use crate::carried::{Carriage, Change};
use crate::counts::Counter;
use crate::crc::with_checksum;
use crate::run::{Heard, Note, Run, Verdict, width_of};
use crate::tape::Passage;
use channel::sending::Outgoing;
use framing::fragments::{Fragment, Fragments};
use framing::frame::Frame;
use framing::slot::Slot;
use std::alloc::{AllocError, Global};
use std::ops::AddAssign;

/// How often each sentence of the law was broken.
#[derive(Clone, Copy, Default, PartialEq, Eq)]
pub(crate) struct Broken {
    /// Packets are carried.
    pub(crate) carried: Counter,
    /// Handed out in order.
    pub(crate) order: Counter,
    /// Nothing is held back where nothing waits, and gaps are told.
    pub(crate) complete: Counter,
    /// Judged rightly.
    pub(crate) judged: Counter,
    /// No false alarm.
    pub(crate) alarm: Counter,
    /// The channel was not fair, so that the law says nothing.
    pub(crate) unfair: Counter,
}

impl Broken {
    /// Whether any sentence was.
    pub(crate) fn any(&self) -> bool {
        *self != Broken::default()
    }
}

impl AddAssign for Broken {
    fn add_assign(&mut self, other: Broken) {
        self.carried += other.carried;
        self.order += other.order;
        self.complete += other.complete;
        self.judged += other.judged;
        self.alarm += other.alarm;
        self.unfair += other.unfair;
    }
}

/// Counts one more where this sentence is broken.
fn count(counter: &mut Counter, broken: bool) {
    *counter += u64::from(broken);
}

/// Whether the two frames agree outside the fragment bodies of the first.
fn agree(put: &Frame, came: &Frame) -> bool {
    let mut rest = came.bytes;
    let Ok(fragments) = Fragments::of(&put.bytes) else {
        return false;
    };
    for fragment in fragments {
        if let Fragment::Body { at, body, .. } = fragment {
            if let Some(place) = rest.get_mut(at..at.saturating_add(body.len())) {
                place.copy_from_slice(body);
            }
        }
    }
    rest == put.bytes
}

/// Whether a mark came as one, or a frame as a gap or as a frame changed in its bodies alone.
fn is_fair(passage: &Passage) -> bool {
    match (passage.put, passage.slot) {
        (Outgoing::Mark, Slot::Mark) | (Outgoing::Frame(_), Slot::Gap) => true,
        (Outgoing::Frame(put), Slot::Frame(came)) => agree(&put, &came),
        _ => false,
    }
}

/// Whether a packet may be handed out as that.
fn rightly(verdict: Verdict, change: Change) -> bool {
    match change {
        Change::Unchanged => verdict == Verdict::Sound,
        Change::WithinReach => verdict != Verdict::Sound,
        Change::BeyondReach => true,
    }
}

/// Packets are carried: the groups are the accepted packets in turn, each with its checksum; what has begun is a first part of
/// the next one; and no more is left out than the one packet that may cross superframes.
fn are_carried(heap: Global, run: &Run, carriage: &Carriage) -> Result<bool, AllocError> {
    let Carriage { terms, packets, .. } = carriage;
    let mut rest = run.accepted.iter();
    for whole in packets.whole.iter() {
        let Some(packet) = rest.next() else {
            return Ok(false);
        };
        let bytes = with_checksum(heap, packet.as_slice(), terms.checksum)?;
        if bytes != whole.cut {
            return Ok(false);
        }
    }
    let begun = packets.begun.cut.as_slice();
    let Some(packet) = rest.next() else {
        return Ok(begun.is_empty());
    };
    let bytes = with_checksum(heap, packet.as_slice(), terms.checksum)?;
    let first_part = bytes.as_slice().starts_with(begun);
    Ok(terms.fasb && first_part && rest.next().is_none())
}

/// How far the answers have come, and what they broke.
#[derive(Drop)]
struct Hearing<'a> {
    carriage: &'a Carriage,
    handed_out: usize,
    lost: usize,
    broken: Broken,
}

impl Hearing<'_> {
    /// A packet was handed out when so many frames and marks had been put.
    fn hand_out(&mut self, verdict: Verdict, packet: &[u8], put: usize) {
        let checksum = self.carriage.terms.checksum;
        match self.carriage.clear_at(self.handed_out) {
            Some(clear) => {
                let len = clear.came.len().saturating_sub(width_of(checksum));
                let same = clear.came.get(0..len) == Some(packet);
                count(&mut self.broken.order, clear.complete_at > put || !same);
                let judged = rightly(verdict, clear.change(checksum));
                count(&mut self.broken.judged, !judged);
            }
            None => count(&mut self.broken.order, true),
        }
        self.handed_out = self.handed_out.saturating_add(1);
    }

    /// One answer against the law.
    fn hear(&mut self, note: &Note) {
        let carriage = self.carriage;
        let gaps = carriage.gaps(note.put);
        let too_early = carriage.complete(note.put) > note.accepted;
        count(&mut self.broken.carried, too_early);
        match &note.heard {
            Heard::HandedOut { verdict, packet } => {
                self.hand_out(*verdict, packet.as_slice(), note.put);
            }
            Heard::Lost => {
                self.lost = self.lost.saturating_add(1);
                count(&mut self.broken.alarm, self.lost > gaps);
            }
            Heard::Torn | Heard::Short => count(&mut self.broken.alarm, true),
            Heard::Mark => {}
            Heard::Nothing => {
                let all = carriage.clear(note.put) == self.handed_out;
                count(&mut self.broken.complete, !all || self.lost != gaps);
            }
        }
    }
}

/// Checks the law of a run whose last superframe is closed, from what was put, what came of it, and what the caller saw.
pub(crate) fn check_law(
    heap: Global,
    run: &Run,
    carriage: &Carriage,
) -> Result<Broken, AllocError> {
    let mut hearing = Hearing {
        carriage,
        handed_out: 0,
        lost: 0,
        broken: Broken::default(),
    };
    let fair = carriage.passages.iter().all(|passage| is_fair(passage));
    count(&mut hearing.broken.unfair, !fair);
    let carried = are_carried(heap, run, carriage)? && carriage.packets.unlawful == 0;
    count(&mut hearing.broken.carried, !carried);
    for note in run.notes.iter() {
        hearing.hear(note);
    }
    Ok(hearing.broken)
}
