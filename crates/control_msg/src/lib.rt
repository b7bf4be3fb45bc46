//! Control messages: what nodes say to each other, one spelling each.
//!
//! A datagram's first byte says what follows: 1 a message, 2 an IPv4 packet ([`Frame`]). A message is a version byte 1,
//! a kind byte from 1 to 23, and the fields in order, numbers big-endian:
//!
//! | file | kinds |
//! |---|---|
//! | `agreement` | 1 to 7 and 21: replicas agree on the log |
//! | `leases` | 8 to 14: agents ask for ranges of ports and give them back |
//! | `muxes` | 15 to 20: a primary tells the muxes which machine has which range |
//! | `redirects` | 22 and 23: a connection leaves the muxes out |
//!
//! [`decode`] answers `Ok(m)` exactly where the bytes are the spelling of `m`, and each refusal is the first fault from
//! the left. [`encode`] appends that spelling. Whether the sender may say this is its caller's question.
#![tactic(auto)]

mod agreement;
mod fields;
mod frame;
mod kind;
mod laws;
mod leases;
mod message;
mod muxes;
mod reading;
mod redirects;
mod writing;

pub use frame::Frame;
pub use kind::Kind;
pub use laws::{frame_spelling, message_spelling};
pub use message::Message;
pub use reading::{MessageFault, decode};
pub use writing::encode;

#[cfg(test)]
mod tests;
