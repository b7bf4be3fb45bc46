//! What the traits of `outside_io` are on a real machine: the standard streams, files, UDP sockets and the clock of the
//! system. Each object counts its faults, and tells nothing of its content.
//!
//! This is the edge that proofs stop at: that a file keeps what a sync made last, and that a socket gives each datagram
//! as it came, is the system's part.
#![tactic(auto)]

mod clock;
mod disk;
mod faults;
mod host;
mod link;
mod sink;

pub use clock::SteadyClock;
pub use disk::FileDisk;
pub use host::RealHost;
pub use link::UdpLink;
pub use sink::{Stream, StreamSink};

#[cfg(test)]
mod tests;
