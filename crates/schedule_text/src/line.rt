use crate::event::Event;
use wire_core::{Act, FrameBytes, NodeId, Note, Socket};

/// Why an event did nothing.
#[derive(Clone, Copy, Debug, PartialEq, Eq)]
pub enum Word {
    /// The datagram isn't yet sent; written `none`.
    NotYet,
    Outside,
    Down,
    Up,
    Other,
}

/// A line of a transcript.
#[derive(Debug, Drop)]
pub enum Line {
    Event(Event),
    /// A delivery within a settle.
    Delivery {
        k: u64,
    },
    Word(Word),
    Act(Act),
    Note(Note),
    Sent {
        k: u64,
        from: NodeId,
        to: Socket,
        bytes: FrameBytes,
    },
}
