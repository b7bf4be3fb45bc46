//! Schedules of nodes: the text of a configuration, a line `---`, and what happens to its nodes line by line.
//!
//! [`write_lines`] reads the whole text and writes its transcript, or tells why it is no schedule. First the
//! configuration is tested, then the lines behind it, and only then the first event happens. Every node is opened on an
//! empty disk in memory and runs as it runs on a host; what is written is the transcript by the tables of the three
//! roles, whatever the code keeps. [`count_transcript`] counts the transcript's lines instead.
//!
//! | subject | file of `specs/` |
//! |---|---|
//! | where the configuration ends, and the lines begin | `Halves` |
//! | what a text says, and its transcript | `Schedule` |
//! | the code's nodes and the tables | `Roles` |
//! | what is written and answered | `Answers` |
//! | that the run is safe, and shows what the log did | `Safety` |
#![tactic(auto)]

mod fault;
mod laws;
mod reading;
mod replay;
mod text;

pub use fault::ScheduleFault;
pub use laws::roles_follow;
pub use replay::{count_transcript, write_lines};

#[cfg(test)]
mod tests;
