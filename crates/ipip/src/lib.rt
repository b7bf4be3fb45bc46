//! An IPv4 packet carried within an IPv4 packet (RFC 2003): how a mux sends a packet on to a machine, and how two
//! machines talk without a mux.
//!
//! ```text
//! | outer header, 20 bytes | inner header | inner payload |
//! ```
//!
//! The outer header has the inner type of service, protocol 4, identification 0, 'don't fragment', a time to live of
//! 64 and its checksum. [`wrap`] forwards a packet, so it lowers the inner time to live by one (section 3.1);
//! [`wrap_local`] sends a packet of this host, whose time to live stays, and [`wrap_in_place`] does so where the packet
//! lies. [`can_wrap`] and [`can_wrap_local`] tell beforehand whether they will, for a caller that changes something
//! else first. [`unwrap`] lends what a packet carries. What an inner packet holds, and which addresses are right, is
//! left to the caller.
//!
//! What was wrapped is unwrapped again ([`unwraps_again`]). A packet that is forwarded and then handed to a machine is
//! handed as it would have been at once, its time to live lowered by all the hops ([`forwarding`]).
#![tactic(auto)]

mod buffer;
mod cause;
mod laws;
mod unwrapping;
mod wrapping;

pub use buffer::Buf;
pub use cause::{unwrap_cause, wrap_cause};
pub use laws::{forwarding, unwraps_again};
pub use packet_spec::IpFault;
pub use unwrapping::{Inner, UnwrapFault, unwrap};
pub use wrapping::{WrapFault, can_wrap, can_wrap_local, wrap, wrap_in_place, wrap_local};

#[cfg(test)]
mod tests;
