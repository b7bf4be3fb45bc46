use wire_core::{FrameBytes, Items, NodeId, Socket};

/// An event at one node.
#[derive(Debug, Drop)]
pub enum Single {
    /// The `k`-th datagram ever sent, from 1, arrives.
    Deliver {
        k: u64,
    },
    /// A datagram comes from a socket that isn't a node's.
    Inject {
        node: NodeId,
        from: Socket,
        bytes: FrameBytes,
    },
    /// The node's clock says `now`, in milliseconds.
    Tick {
        node: NodeId,
        now: u64,
    },
    /// The node opens its disk.
    Restart {
        node: NodeId,
    },
}

/// A line of a schedule.
#[derive(Debug, Drop)]
pub enum Event {
    Single(Single),
    /// At most `n` times, the first datagram that no delivery has taken arrives.
    Settle { n: u64 },
    /// The node goes down.
    Crash { node: NodeId },
    /// The node goes down in the middle of a step, whose entry is kept or lost.
    During { node: NodeId, e: Single, keep: bool },
}

pub type EventList = Items<Event>;
