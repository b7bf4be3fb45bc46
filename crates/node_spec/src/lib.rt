//! What one input makes a node do: the words that the tables of the three roles share, and in which code is tied to
//! them.
//!
//! A table is a function from the configuration, a role's lists and an input to a **turn**: the new lists, at most one
//! entry, and the acts, the notes and the datagrams in order. Each kind of input has a row of its own, and a row is
//! made of the few turns of `Turns`. Code doesn't make turns: each handler adds to a `Step`, which has the entry and
//! the datagrams in bytes, and its contract says `turned keep cfg step (row cfg lists fields)`.
//!
//! | subject | file of `specs/` |
//! |---|---|
//! | what is sent, and to whom | `Sends` |
//! | what one input makes a node do | `Turns` |
//! | the same in bytes, and the code's step so far | `Steps` |
//! | the common tests of a datagram | `Datagrams` |
//! | what comes in bytes has allowed fields | `Arriving` |
//! | connections that may do without a mux | `Fastpath` |
//! | a node's boot and epoch by its entries | `Boots` |
//! | its entries by the bodies of its journal | `Bodies` |
//!
//! What is sent is heard as it was said: [`what_is_sent_is_heard`].
//!
//! `proofs/Turning` has the lemmas for handlers: a step after one turn and then another is the step after both;
//! `proofs/Spelled` has those for the entry of a step, which spells the turn's where that has allowed fields. The
//! bundle `proofs/OnLiterals` opens the words of this crate where a row is computed.
#![tactic(auto)]

mod accept;
mod bodies;
mod laws;
mod telling;

pub use accept::Accept;
pub use bodies::{greatest_boot, is_in_bytes};
pub use laws::what_is_sent_is_heard;
pub use telling::{entry_bytes, say, say_each};

#[cfg(test)]
mod tests;
