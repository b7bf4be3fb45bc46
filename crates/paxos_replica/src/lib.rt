//! A replica's part in agreement, as one value: an acceptor, a leader, and what it heard of.
//!
//! [`Replica`] is seen as what its entries say (promise, vote, log) and what it has in memory alone. Its calls come in
//! two halves, so that whoever makes entries durable and sends messages can do so in between, and nothing has changed
//! where that fails.
//!
//! 1. An event is asked for its step: [`Replica::campaign`], [`Replica::offer`], and a call for each message. The
//!    replica stays as it is. The answer is a [`ReplicaStep`], or `None` where the event doesn't count.
//! 2. [`ReplicaStep::entry`] is made durable, [`ReplicaStep::said`] is sent, and [`Replica::take`] takes the step.
//!
//! | event | call | doesn't count |
//! |---|---|---|
//! | it runs for election | [`Replica::campaign`] | it is primary, or no ballot is left |
//! | a value is offered | [`Replica::offer`] | it isn't primary, something is outstanding, or the log is full |
//! | Prepare | [`Replica::on_prepare`] | never |
//! | Promise | [`Replica::on_promise`] | it is no candidate at the ballot, or this one was counted |
//! | Accept | [`Replica::on_accept`] | the slot has its value, or the log is full |
//! | Accepted | [`Replica::on_accepted`] | it isn't of what is outstanding, or this one was counted |
//! | Refuse | [`Replica::on_refuse`] | it follows, or it isn't of its ballot |
//! | Chosen | [`Replica::on_chosen`] | the slot has its value, or the log is full |
//! | Fetch | [`Replica::on_fetch`] | the slot wasn't learned |
//! | any of these messages | [`Replica::on_message`] | the same |
//! | another one says that it leads | [`Replica::on_lead`] | never |
//!
//! What changes memory alone is done at once: [`Replica::step_down`], [`Replica::on_epoch`]. [`Replica::recover`] folds
//! in the entries of a journal, one by one.
//!
//! | module | what it has |
//! |---|---|
//! | `replica` | [`Replica`], what it is asked, how it takes a step |
//! | `candidacy`, `voting`, `learning` | its steps, message group by message group; `message` chooses among them |
//! | `step`, `entry`, `said` | a step, its entry, what it says: one body, to one replica, to all, or to the others |
//! | `memory` | what it has in memory alone |
//! | `laws` | [`passed_over`] |
//!
//! Costs: each call copies at most the value that the leader keeps, that of the entry and that of what is said, each of
//! at most 16 commands. No call looks at more than one slot of the log.
#![tactic(auto)]

mod candidacy;
mod entry;
mod laws;
mod learning;
mod memory;
mod message;
mod replica;
mod said;
mod step;
mod voting;

pub use entry::OwnedEntry;
pub use laws::passed_over;
pub use replica::Replica;
pub use said::{Recipients, Said};
pub use step::ReplicaStep;

#[cfg(test)]
mod tests;
