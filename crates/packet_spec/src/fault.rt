/// What is wrong with an IPv4 header (RFC 791, section 3.1), in the order of the tests.
#[derive(Clone, Copy, Debug, PartialEq, Eq)]
pub enum IpFault {
    /// Fewer than 20 bytes.
    Short,
    /// The version isn't 4.
    Version,
    /// The header's length is below five words.
    HeaderLength,
    /// The total length is below the header's length, or above the number of bytes.
    TotalLength,
    /// The one's complement sum of the header's words isn't FFFF.
    HeaderSum,
    /// More fragments follow, or the fragment offset isn't 0.
    Fragment,
}

/// What is wrong with a TCP segment (RFC 9293, section 3.1) or a UDP one (RFC 768), in the order of the tests.
#[derive(Clone, Copy, Debug, PartialEq, Eq)]
pub enum SegmentFault {
    /// Fewer than 20 bytes (TCP) or 8 (UDP).
    Short,
    /// TCP's data offset is below five words or past the end.
    DataOffset,
    /// UDP's length is below 8 or above the number of bytes.
    Length,
    /// The one's complement sum of pseudo-header and segment isn't FFFF. A UDP checksum of 0 stands for none.
    Sum,
}

/// What is wrong with a packet: its header first, then its protocol, then its segment.
#[derive(Clone, Copy, Debug, PartialEq, Eq)]
pub enum PacketFault {
    /// The IPv4 header is faulty.
    Ip(IpFault),
    /// The protocol is neither TCP nor UDP.
    NotTransport,
    /// The TCP or UDP segment is faulty.
    Segment(SegmentFault),
}
