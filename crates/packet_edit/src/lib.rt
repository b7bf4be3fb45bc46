//! Whole packets: an IPv4 header with a TCP segment or a UDP datagram behind it, read as one and translated in place.
//!
//! | call | what changes |
//! |---|---|
//! | [`Packet::read`] | nothing: it names the first fault, or lends the packet |
//! | [`set_source`], [`set_destination`] | one address and its port |
//! | [`clamp_mss`] | the maximum segment size of a SYN that is greater than 1440 |
//! | [`translate_source`] | the source and the clamp at once: a packet that leaves for the network |
//! | [`translate_destination`] | the destination, the clamp and the time to live at once: a packet that is handed on |
//!
//! Each edit is on a buffer whose packet was read without a fault, and leaves both checksums as they are computed: a
//! UDP checksum of 0 stays 0, and a computed UDP checksum of 0 is written FFFF. Every other byte stays, those past the
//! total length too. The edited packet is again one without a fault. Which packets are translated, and to what, is
//! left to the caller.
#![tactic(auto)]

mod fields;
mod packet;
mod sums;
mod translate;

pub use packet::Packet;
pub use packet_spec::{IpFault, PacketFault, SegmentFault};
pub use translate::{
    clamp_mss, set_destination, set_source, translate_destination, translate_source,
};

#[cfg(test)]
mod tests;
