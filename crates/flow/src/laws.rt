ghost use Rattle.flow.specs.Runs.{WritingLaw};

/// The law of the writing side, over every run of accepted calls from set-up on.
///
/// The bodies in the frames put, in order, with those in the unfinished frame and the bytes carried over, are the packets
/// offered, each followed by its checksum, in the order offered, cut nowhere but at the end of a frame. Every frame has
/// 122 bytes and is lawful. A superframe of n frames has exactly n frames and one mark. Where packets may not cross
/// superframes, none crosses a mark.
pub fn cutting_stands()
    ensures { WritingLaw }
{}
