//! One node over a link and a clock: it ticks every 100 milliseconds, and takes what comes in between.
//!
//! [`serve`] takes so many turns: what it hands over and what it makes durable is exactly the fold of the core's steps
//! over what the clock and the link told. [`serve_on`] runs a node on a host: it asks for the node's two disks and its
//! socket, opens and serves it, and gives back what it was given.
#![tactic(auto)]

mod ending;
mod hosting;
mod names;
mod serving;
mod timer;

pub use ending::NodeEnding;
pub use hosting::serve_on;
pub use serving::{ServeFault, Served, serve};

#[cfg(test)]
mod host_tests;
#[cfg(test)]
mod tests;
