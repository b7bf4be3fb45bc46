//! The way of one replica to lead the log: its ballot, the Promises that it counted, the value to inherit, and what
//! stands outstanding.
//!
//! [`Leader`] is seen as its stage, its ballot, a tally of Promises, the length to catch up to with the value that
//! pends there, what is outstanding, and who accepted that.
//!
//! | stage | left by | for |
//! |---|---|---|
//! | Follower | [`Leader::campaign`] | Candidate, at a ballot of its own above all that it promised or heard of |
//! | Candidate | the third Promise, [`Leader::on_promise`] | Catching, where one has a longer log; else the arrival |
//! | Catching | [`Leader::reached`] | the arrival |
//! | Inheriting | the third Accepted, [`Leader::on_accepted`] | Primary |
//! | Primary | [`Leader::step_down`] | Follower |
//!
//! The arrival: the vote of the greatest ballot that was told with the greatest length has its value proposed again,
//! and the stage is Inheriting; where none was told, or the own log is longer than that, the stage is Primary.
//!
//! | module | what it has |
//! |---|---|
//! | `quorum` | which of the five replicas, and whether they are three |
//! | `tally` | what a candidate keeps of the Promises: who told, the greatest length, the best vote told with it |
//! | `leader` | the public calls |
//!
//! Costs: each call is a few comparisons over five flags and at most one copy of a value. No Promise is kept.
#![tactic(auto)]

mod leader;
mod quorum;
mod tally;

pub use leader::Leader;
pub use paxos_spec::{Counted, LeadStep, Proposal, Stage};

#[cfg(test)]
mod tests;
