//! Numbers, addresses and sockets as text, and texts cut at a separator.
//!
//! | text | read by | spelled |
//! |---|---|---|
//! | a decimal number without leading zeros | [`read_number`] | `0`, `65535` |
//! | an IPv4 address | [`read_address`] | `10.1.0.4` |
//! | an address with a port from 1 to 65535 | [`read_socket`] | `10.0.0.1:7000` |
//!
//! Each has one spelling: what is read is the spelling of the answer, and each spelling is read ([`spelling`]).
#![tactic(auto)]

mod address;
mod fields;
mod laws;
mod number;

pub use address::{read_address, read_socket, write_address};
pub use fields::{cut, four, three, two};
pub use laws::spelling;
pub use number::read_number;

#[cfg(test)]
mod tests;
