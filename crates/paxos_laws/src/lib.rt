//! The laws of agreement for a larger world: five replicas of one log, and all else that a world may have in it.
//!
//! A world shows them as a view: the replicas' disks, their memories, and the messages that they sent each other.
//! What happens in it is one step of one replica at a time, or none. A world that shows that each of its events is
//! one of the steps of [`each_step`] has all the rest: it is in order from its beginning on, so that no slot has two
//! values ([`order`]); what was chosen stays so ([`lasting`]); each value that it comes upon was offered
//! ([`values`]); the log of all five grows at its end alone ([`common_log`]); and a leader holds its promise
//! ([`leading`]). The worlds of `paxos_log` are one user of these laws.
//!
//! | subject | file of `specs/` |
//! |---|---|
//! | what holds of every view in order | `Facts` |
//! | one step of one replica, and what it owes | `Steps` |
//! | a disk as its entries have it | `Disks` |
//! | the beginning, the claims, one more step | `Order` |
//! | each thing that a replica does | `EachStep` |
//! | what lasts | `Lasting` |
//! | values only travel | `Values` |
//! | the log of all five | `CommonLog` |
//! | a leader's ballot and promise | `Leading` |
//! | turns, runs of turns, and what is true of every run | `Worlds` |
#![tactic(auto)]

mod laws;

pub use laws::{common_log, disks, each_step, lasting, leading, order, values, worlds};
