ghost use Rattle.std.specs.Prelude.{◌≡◌, ◌<◌, ◌≤◌, ◌∷◌, length, IfOk, OnOk};
ghost use Rattle.std.specs.List.{flat_map};
ghost use Rattle.framing.specs.Fragments.{fragments, fragments_from, rendered};
ghost use Rattle.framing.specs.Giving.{answer, asked, coming, shown, FoundAt, Gives};
ghost use Rattle.framing.specs.declared.fragments.FragmentsFault.TheVariants.{NotAFrame as not_a_frame, Torn as torn_frame};
ghost use Rattle.std.specs.Iterator.{at_most};

use crate::fault::Torn;
use crate::frame::{Frame, NotAFrame};
use crate::header::{FragmentHeader, PADDING};
use crate::judging::judge;

/// One fragment of a frame, with the place of its header, counted from 1.
#[derive(Clone, Copy, PartialEq, Eq, Debug)]
pub enum Fragment<'a> {
    /// A part of a packet, and whether the packet ends with it.
    Body {
        at: usize,
        body: &'a [u8],
        last: bool,
    },
    /// The single byte at the frame's end that a packet's end left.
    Notional {
        at: usize,
    },
    /// The rest of the frame is empty.
    Padding {
        at: usize,
    },
}

/// The fragment whose header stands at the index `at`, and the index of the next header; nothing where the bytes end before. A
/// body that would run past the end stops there.
#[inline]
pub fn fragment_at(bytes: &[u8], at: usize) -> Option<(Fragment<'_>, usize)>
    ensures { FoundAt bytes.now at result }
{
    if at < bytes.len() {
        Some(fragment_here(bytes, at))
    } else {
        None
    }
}

/// The same, where there is a header.
#[inline]
fn fragment_here(bytes: &[u8], at: usize) -> (Fragment<'_>, usize)
    requires { at < length bytes.now }
    ensures gives { fragments_from bytes.now at ≡ shown result.0 ∷ fragments_from bytes.now result.1 }
    ensures moves { (at < result.1) × (result.1 ≤ length bytes.now) }
{
    let FragmentHeader { count, last } = FragmentHeader::from_byte(bytes[at]);
    let at = at + 1;
    let next = at + usize::from(count).min(bytes.len() - at);
    let fragment = match count {
        PADDING => Fragment::Padding { at },
        0 => Fragment::Notional { at },
        _ => Fragment::Body {
            at,
            body: &bytes[at..next],
            last,
        },
    };
    (fragment, next)
}

/// Why there are no fragments to give.
#[derive(Clone, Copy, PartialEq, Eq, Debug)]
pub enum FragmentsFault {
    /// Not 122 bytes.
    NotAFrame,
    /// The frame is torn.
    Torn(Torn),
}

impl From<NotAFrame> for FragmentsFault {
    ghost from_gives = { λ _ fault. fault ≡ not_a_frame };

    fn from(_refusal: NotAFrame) -> FragmentsFault {
        FragmentsFault::NotAFrame
    }
}

impl From<Torn> for FragmentsFault {
    ghost from_gives = { λ torn fault. fault ≡ torn_frame torn };

    fn from(torn: Torn) -> FragmentsFault {
        FragmentsFault::Torn(torn)
    }
}

/// The fragments of one frame, given one at a time.
// The whole frame with an index in it, and not what is left of the frame: each fragment tells the place of its header.
#[derive(Clone, Copy, PartialEq, Eq, Debug)]
pub struct Fragments<'a> {
    bytes: &'a [u8],
    /// Where the next header stands, counted from 0; the frame's length where none is left.
    at: usize,
}

impl<'a> Fragments<'a> {
    /// The fragments of the frame that is handed in, from the first on.
    pub fn of(bytes: &'a [u8]) -> Result<Fragments<'a>, FragmentsFault>
        ensures asks { answer result ≡ asked bytes.now }
        ensures gives { IfOk result (λ f. coming f ≡ fragments bytes.now) }
        ensures again { OnOk result (flat_map rendered (fragments bytes.now) ≡ bytes.now) }
    {
        judge(&Frame::try_from(bytes)?, None, 0)?;
        Ok(Fragments { bytes, at: 0 })
    }
}

impl<'a> Iterator for Fragments<'a> {
    type Item = Fragment<'a>;

    ghost next_gives = { λ s r t. Gives s r t };

    ghost remaining = { λ s. at_most (length (coming s)) };

    /// The next fragment, as a part of the frame, or nothing after the last.
    fn next(&mut self) -> Option<Fragment<'a>> {
        let (fragment, next) = fragment_at(self.bytes, self.at)?;
        self.at = next;
        Some(fragment)
    }
}
