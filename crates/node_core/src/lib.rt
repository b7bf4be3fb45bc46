//! One node over its two disks, whatever its role: what it says it has made durable before.
//!
//! A [`Node`] has a [`Core`], which decides. [`Node::open`] reads the journal, judges whether it is the node's own, and
//! makes its Boot entry durable; [`Node::handle`] does one step of the core, makes its entry durable, and only then
//! hands its datagrams over. After a fault it says nothing more.
#![tactic(auto)]

mod decides;
mod node;
mod sending;

pub use decides::Core;
pub use node::{BOUND, Node, Report};
pub use sending::send_all;

#[cfg(test)]
mod tests;
