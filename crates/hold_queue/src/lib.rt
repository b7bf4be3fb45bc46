//! The packets of a machine that wait for a range of ports: a queue of at most 64, first in first out.
//!
//! A [`HoldQueue`] is seen as the list of its packets' bytes, the oldest first. It takes its memory when it is made,
//! and none afterwards. Each call takes the same time, whatever is held.
#![tactic(auto)]

mod queue;

pub use queue::HoldQueue;

#[cfg(test)]
mod tests;
