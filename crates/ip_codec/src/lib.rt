//! IPv4 headers (RFC 791, section 3.1), read and written.
//!
//! [`Ip4View::read`] tests a packet from the first byte on and lends its parts; the first test that fails is the
//! fault. [`write_header`] writes a header of five words with its checksum.
//!
//! | fault | test |
//! |---|---|
//! | `Short` | fewer than 20 bytes |
//! | `Version` | the version isn't 4 |
//! | `HeaderLength` | the header has fewer than five words |
//! | `TotalLength` | the total length is below the header's, or above the number of bytes |
//! | `HeaderSum` | the header's words don't sum to FFFF |
//! | `Fragment` | more fragments follow, or the offset isn't 0 |
//!
//! Bytes past the total length are no part of the packet. What the options say, and which protocol is carried, is
//! left to the caller.
#![tactic(auto)]

mod view;
mod write;

pub use packet_spec::{Ip4Header, IpFault};
pub use view::Ip4View;
pub use write::write_header;

#[cfg(test)]
mod tests;
