//! Text that is written to a sink: all of it, however little a call takes.
//!
//! What is written stands at the end of what the sink tells, where it tells it. After a fault that is a front of the text,
//! and the sink's own count of faults rose.
#![tactic(auto)]

mod whole;

pub use whole::{pass_on, write_all};

#[cfg(test)]
mod tests;
