//! What a manager keeps beside its lists' plain numbers: the replica's log with its lease table, the requests that wait,
//! what muxes acknowledged, and which rows a push needn't look at; and how it is spelled in a step.
//!
//! | module | what it has |
//! |---|---|
//! | `log` | the replica and the lease table of its log as one, so that nobody above sees that they are two |
//! | `queue` | the requests of agents that wait to be proposed |
//! | `muxes` | what is known of each mux, and what it acknowledged of each row |
//! | `holding` | which muxes have a row in their known boot |
//! | `pending` | which rows a push needn't look at |
//! | `orders`, `push` | what muxes and agents are told of a row, and told again |
//! | `saying` | a step of the agreement as an entry and datagrams |
#![tactic(auto)]

mod holding;
mod log;
mod muxes;
mod orders;
mod pending;
mod push;
mod queue;
mod saying;

pub use holding::{all_acked_ever, all_near_acked, count_holders, holders};
pub use log::{LeaseLog, MOST_SLOTS};
pub use muxes::{boot_of, hear_again, mark, marks_at};
pub use orders::{grant, program_all, unprogram_all};
pub use pending::{Pending, acknowledge, forget, look};
pub use push::{Pushed, push_each};
pub use queue::{Queue, Request};
pub use saying::{add_acts, say_said, spell};
