//! The program's one call, [`run`]: the words after its name, its input, its two outputs, a host and a clock go in, and
//! a status comes out. What it promises of a schedule is the headline of the project.
//!
//! | module | what it does |
//! |---|---|
//! | `streams` | reads a source to its end |
//! | `words`, `role` | which job the words name, and of which node |
//! | `replaying` | a schedule is written or counted, line by line |
//! | `check`, `generate`, `writing` | what a job answers to a text, and that it is written |
//! | `node` | a node is served, and told in one line |
//! | `refusal`, `ending` | why a text has no answer, how a run ends, what is told about it |
//! | `top` | the whole: words, input, job, answer |
//!
//! The caller makes the real objects: everything outside is behind the traits of `outside_io`.
#![tactic(auto)]

mod check;
mod ending;
mod generate;
mod node;
mod refusal;
mod replaying;
mod role;
mod streams;
mod top;
mod words;
mod writing;

pub use ending::Status;
pub use top::run;

#[cfg(test)]
mod node_tests;
#[cfg(test)]
mod replay_tests;
#[cfg(test)]
mod tests;
