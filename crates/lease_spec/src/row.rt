use wire_core::{Ip4, Range};

/// How far a lease is.
#[derive(Clone, Copy, Debug, PartialEq, Eq)]
pub enum Phase {
    /// It has its range, and no mux is known to have its row.
    BeingLeased,
    /// The muxes have its row: its agent may use the range.
    Leased,
    /// It ends. Its range is kept until no mux has its row.
    Freeing,
}

/// A lease.
#[derive(Clone, Copy, Debug, PartialEq, Eq)]
pub struct Row {
    /// Its number: the place of the Reserve that made it.
    pub n: u64,
    pub range: Range,
    pub machine: Ip4,
    pub agent: u16,
    /// The boot of the agent that asked for it.
    pub boot: u64,
    /// The machine's request that it answers.
    pub seq: u64,
    pub phase: Phase,
}

/// What a machine's last request came to.
#[derive(Clone, Copy, Debug, PartialEq, Eq)]
pub enum Outcome {
    /// A row with this number on this range.
    Reserved { range: Range, n: u64 },
    /// No leasable range of the machine's VIP was without a row at this place.
    Exhausted { place: u64 },
    /// The machine had this many rows, as many as a machine may have.
    AtLimit { count: u32 },
}
