//! TCP segments (RFC 9293, section 3.1) and UDP datagrams (RFC 768), read.
//!
//! [`Segment::read`] tests a segment from the first byte on; the first test that fails is the fault.
//!
//! | fault | test |
//! |---|---|
//! | `Short` | fewer than 20 bytes (TCP) or 8 (UDP) |
//! | `DataOffset` | TCP's data offset is below five words, or past the end |
//! | `Length` | UDP's length is below 8, or above the number of bytes |
//! | `Sum` | pseudo-header and segment don't sum to FFFF; a UDP checksum of 0 stands for none |
//!
//! A UDP segment has as many bytes as its length says; what follows is no part of it, and isn't summed.
#![tactic(auto)]

mod laws;
mod options;
mod pseudo;
mod segment;

pub use laws::finds_the_first_maximum_segment_size;
pub use options::mss_at;
pub use packet_spec::SegmentFault;
pub use pseudo::{segment_checksum, segment_sum};
pub use segment::Segment;

#[cfg(test)]
mod tests;
