use checksum::choice::ChecksumChoice;
use receiver::terms::Terms;
use script::step::Step;
use service::choice::ServiceChoice;
use service::header::SyncHeader;

/// One command of a script.
#[derive(PartialEq, Eq, Debug, Drop)]
pub enum Command {
    /// What is answered without a flow.
    Request(Request),
    /// A fresh flow.
    Flow(FlowSetup<usize>),
    /// A step of the flow that was set up last.
    Step(Step),
}

/// A command that needs no flow.
#[derive(PartialEq, Eq, Debug, Drop)]
pub enum Request {
    /// The checksum of these bytes.
    Checksum {
        checksum: ChecksumChoice,
        message: Vec<u8>,
    },
    /// The sync header that a packet begins with.
    Header {
        packet: Vec<u8>,
    },
    /// A sync header and a payload, written into a buffer of so many bytes.
    WriteHeader {
        header: SyncHeader,
        payload: Vec<u8>,
        buffer_len: usize,
    },
    /// The fragments of a frame.
    Fragments {
        frame: Vec<u8>,
    },
    /// Is this reel lawful?
    Reel {
        reel: Vec<u8>,
    },
    /// The pattern for the fade of the flows that follow.
    Fade {
        pattern: Vec<u8>,
    },
}

/// What a flow is set up with. In a script its ring is a size; on the stage it is memory.
#[derive(PartialEq, Eq, Debug, Drop)]
pub struct FlowSetup<R> {
    pub id: u16,
    pub terms: Terms<ChecksumChoice, ServiceChoice>,
    pub source: Source<R>,
}

/// The channel below a flow's fade.
#[derive(PartialEq, Eq, Debug, Drop)]
pub enum Source<R> {
    /// A ring.
    Ring(R),
    /// The reel of these bytes.
    Reel(Vec<u8>),
}
