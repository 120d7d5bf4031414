//! The worked examples, each a theorem about the rules' own definitions: those that the contracts of the calls cite.
ghost use Rattle.reel.specs.Laws.{Examples};
ghost use Rattle.specimens.specs.Examples.{WorkedExamples};
ghost use Rattle.specimens.specs.Frames.{PacketsAsFrames, WhatFits};
ghost use Rattle.specimens.specs.Headers.{SyncHeaders};
ghost use Rattle.specimens.specs.Losses.{LostFrames};

/// All of them.
pub fn worked_examples()
    ensures { WorkedExamples }
{
    packets_as_frames();
    what_fits();
    lost_frames();
    sync_headers();
    reels();
}

/// Packets of 1, 119, 120 and 121 bytes as frames, and the nine digits with their checksum.
#[tactic(auto, using(crate::proofs::Framed::packets_as_frames))]
pub fn packets_as_frames()
    ensures { PacketsAsFrames }
{}

/// Packets of 122 bytes, which a superframe of one frame refuses, and one of two frames accepts or refuses.
#[tactic(auto, using(crate::proofs::Framed::what_fits))]
pub fn what_fits()
    ensures { WhatFits }
{}

/// What lost frames cost.
#[tactic(auto, using(crate::proofs::Lost::lost_frames))]
pub fn lost_frames()
    ensures { LostFrames }
{}

/// A sync header that is read, and one that is refused.
pub fn sync_headers()
    ensures { SyncHeaders }
{}

/// A reel that is lawful, and one that is not.
#[tactic(auto, using(reel::proofs::Format::examples))]
pub fn reels()
    ensures { Examples }
{}
