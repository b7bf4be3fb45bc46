use wire_core::{Ip4, Range};

/// A range that an agent holds, and the machine that uses it, by lease `n`.
#[derive(Clone, Copy, Debug, PartialEq, Eq)]
pub struct Held {
    pub range: Range,
    pub n: u64,
    pub machine: Ip4,
}

/// A row of a mux that is up in this boot: packets to the range go to the machine, by lease `n`.
#[derive(Clone, Copy, Debug, PartialEq, Eq)]
pub struct MuxRow {
    pub mux: u16,
    pub boot: u64,
    pub range: Range,
    pub n: u64,
    pub machine: Ip4,
}
