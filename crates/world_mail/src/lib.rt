//! All datagrams that were ever sent in a world of nodes: each by its number, which of them a delivery took, and which
//! is the first that waits.
//!
//! A datagram waits while it goes to a node and no delivery took it. What is taken stays taken, and new datagrams come
//! behind the others, so the first that waits is looked for from where it was last: over a whole run each datagram is
//! passed once.
#![tactic(auto)]

mod mail;

pub use mail::{Mail, Posted};

#[cfg(test)]
mod tests;
