//! The edges of the questions, each a theorem about the rules' own definitions: a mistake in a bound, a number or an order that
//! was made in a definition and in the code alike would be refused here.
ghost use Rattle.specimens.specs.Edges.{CountEdges, PaddingEdges, BodyEdges, ChannelEdges, ReelEdges, OpeningEdges, OfferEdges, ReadingEdges};
ghost use Rattle.specimens.specs.HeaderEdges.{ReadingHeaders, WritingHeaders};

/// All of them.
pub fn edges()
    ensures frames { CountEdges × PaddingEdges × BodyEdges }
    ensures headers { ReadingHeaders × WritingHeaders }
    ensures channels { ChannelEdges × ReelEdges }
    ensures flows { OpeningEdges × OfferEdges × ReadingEdges }
{
    frames();
    headers();
    channels();
    reels();
    flows();
    readings();
}

/// The questions about a frame's headers.
pub fn frames()
    ensures { CountEdges × PaddingEdges × BodyEdges }
{}

/// The questions about sync headers, read and written.
pub fn headers()
    ensures { ReadingHeaders × WritingHeaders }
{}

/// The questions of channels and fades.
pub fn channels()
    ensures { ChannelEdges }
{}

/// The questions about the blocks of a reel.
#[tactic(auto, using(crate::proofs::Recorded::reel_edges))]
pub fn reels()
    ensures { ReelEdges }
{}

/// The questions that an opening, an offer and a closing put.
pub fn flows()
    ensures { OpeningEdges × OfferEdges }
{}

/// The question that a reading puts, and what it answers.
pub fn readings()
    ensures { ReadingEdges }
{}
