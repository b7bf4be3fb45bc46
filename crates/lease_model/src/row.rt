use lease_spec::Phase;
use wire_core::{Ip4, Range};

/// A lease as the book has it.
#[derive(Clone, Copy, Debug, PartialEq, Eq)]
pub struct BookRow {
    pub n: u64,
    pub range: Range,
    pub machine: Ip4,
    pub phase: Phase,
}
