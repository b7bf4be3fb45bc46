//! An acceptor of the replicated log: what one replica promised, voted for and learned.
//!
//! [`Acceptor`] is seen as what its entries say (promise, vote, log) with the entry of its last step. It is the fold of
//! its entries: [`Acceptor::recover`] folds those of a journal, and each step folds the entry that it makes. A caller
//! makes [`Acceptor::durable_entry`] durable before it says what the step answered.
//!
//! | input | first that applies |
//! |---|---|
//! | Prepare | below the promise: refused; the promise: told again; else promised |
//! | Accept | below the promise: refused; then late and behind; the same vote stands: told again; else voted |
//! | Chosen | the slot has its value or the log is full: late; the slot is above the length: behind; else learned |
//!
//! A vote raises the promise to its ballot. So does what is learned, which clears the vote: the slot that it was for
//! has its value. Ballots of replicas are 5 or more; a vote of ballot 0 counts as none.
//!
//! Costs: each call is one look at the vote or at one slot, and the copy of one value, of at most 16 commands.
#![tactic(auto)]

mod acceptor;

pub use acceptor::Acceptor;
pub use paxos_spec::{AcceptStep, Cast, ChosenStep, PrepareStep};

#[cfg(test)]
mod tests;
