ghost use Rattle.std.specs.Prelude.{◌≡◌, ◌+◌, ◌≤◌, [], ◌++◌, length, MatchOption, if◌then◌else◌, true, false};
ghost use Rattle.arrayvec.specs.ArrayVec.{array_vec_len};
ghost use Rattle.framing.specs.Fragments.{fragments_from};
ghost use Rattle.receiver.specs.Reading.{first_completed};
ghost use Rattle.receiver.specs.Views.{standing_of, found_as, Rests, Within, Stepped};
ghost use Rattle.receiver.specs.declared.state.State.TheVariants.{Aligned, Gathering};

use crate::reader::Reader;
use crate::state::State;
use arrayvec::ArrayVec;
use framing::fragments::{Fragment, fragment_at};

/// Puts a body behind what was gathered. The last body of a packet completes it, and the reader is then aligned at the `next`
/// header; any other leaves it gathering. Gives how the reader stands then, and whether the packet is complete.
// How the reader stands does not say it: behind a packet that it did not see begin, it is aligned too. Hence a pair.
fn gather(gathered: &mut ArrayVec<u8, 2048>, body: &[u8], last: bool, next: usize) -> (State, bool)
    requires { array_vec_len gathered.old + length body.now ≤ 2048 }
    ensures gathers { gathered.new.items ≡ gathered.old.items ++ body.now }
    ensures stands { result ≡ (if last then (Aligned next, true) else (Gathering, false)) }
{
    gathered.try_extend_from_slice(body).unwrap();
    if last {
        (State::Aligned { next }, true)
    } else {
        (State::Gathering, false)
    }
}

impl Reader {
    /// Reads the fragment whose header stands at `at`, if the frame has one there. Gives the index of the next header, and
    /// whether the fragment completes a packet, which is then what was gathered.
    // The walk takes the pair apart at once, and nobody keeps it: a struct would only name it a second time.
    fn step(&mut self, at: usize) -> Option<(usize, bool)>
        requires { Within 2048 (standing_of self.old) (fragments_from self.old.frame.bytes at) }
        ensures { MatchOption result ((fragments_from self.old.frame.bytes at ≡ []) × (self.new ≡ self.old)) (λ r. Stepped self.old at r.1 r.0 self.new) }
    {
        let (fragment, next) = fragment_at(&self.frame.bytes, at)?;
        let (state, completed) = match (self.state, fragment) {
            (State::Aligned { .. }, Fragment::Body { body, last, .. }) => {
                self.gathered.clear();
                gather(&mut self.gathered, body, last, next)
            }
            (State::Gathering, Fragment::Body { body, last, .. }) => {
                gather(&mut self.gathered, body, last, next)
            }
            (State::Gathering, _) => (State::Gathering, false),
            (State::Seeking, Fragment::Body { last: false, .. }) => (State::Seeking, false),
            (State::Seeking, Fragment::Notional { .. }) => (State::Seeking, false),
            _ => (State::Aligned { next }, false),
        };
        self.state = state;
        Some((next, completed))
    }

    /// Reads the frame in hand from the header at `from` on, to the first packet that it completes, and says whether there is
    /// one: it is then what was gathered.
    pub(crate) fn advance(&mut self, from: usize) -> bool
        requires { (Rests self.old.state from) × (Within 2048 (standing_of self.old) (fragments_from self.old.frame.bytes from)) }
        ensures finds { found_as result self.new ≡ first_completed (standing_of self.old) (fragments_from self.old.frame.bytes from) }
        ensures same { (self.new.frame ≡ self.old.frame) × (self.new.number ≡ self.old.number) }
    {
        // Headers lie unevenly, and the index of the next one is what an aligned reader keeps: so the walk is by index.
        let mut at = from;
        while let Some((next, completed)) = self.step(at) {
            if completed {
                return true;
            }
            at = next;
        }
        false
    }
}
