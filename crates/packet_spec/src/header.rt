use wire_core::Ip4;

/// An IPv4 header of five words, without options, of a packet that is no fragment (RFC 791, section 3.1).
#[derive(Clone, Copy, Debug, PartialEq, Eq)]
pub struct Ip4Header {
    /// The type of service.
    pub tos: u8,
    /// The total length in bytes, of header and payload.
    pub total: u16,
    /// The identification.
    pub id: u16,
    /// Whether 'don't fragment' is set.
    pub df: bool,
    /// The time to live.
    pub ttl: u8,
    /// The number of the payload's protocol.
    pub proto: u8,
    pub src: Ip4,
    pub dst: Ip4,
}
