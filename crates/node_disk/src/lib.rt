//! A node and its disk, whatever its role: whether a journal is its own and what its next boot is, and the entry of a
//! step made durable before the step says anything.
#![tactic(auto)]

mod fault;
mod judging;
mod keeping;
mod names;

pub use fault::NodeFault;
pub use judging::judge;
pub use keeping::keep;
pub use names::{boot_bytes, index_of, role_of};

#[cfg(test)]
mod tests;
