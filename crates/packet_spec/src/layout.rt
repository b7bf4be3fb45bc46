use wire_core::Proto;

/// Where the parts of a packet lie in its bytes. The segment stands behind the header, from `start` to before
/// `end`: up to the total length for TCP, as long as its own length field says for UDP.
#[derive(Clone, Copy, Debug, PartialEq, Eq)]
pub struct Layout {
    pub proto: Proto,
    pub start: usize,
    pub end: usize,
}
