//! Agreement: no slot of the log has two values, whatever happens to five replicas.
//!
//! [`PaxosWorld`] is five replicas and every message that was ever sent between them. Its step is one of four events: a
//! replica runs for election, is offered a value, gets a message, goes down and opens again. [`agreement`] says what
//! holds after every list of events, and [`told`] says it of what the replicas tell. The laws by which that is so are
//! those of `paxos_laws`, which speak of any view and one step of one replica.
//!
//! | module | what a reader finds |
//! |---|---|
//! | `world`, `event` | [`PaxosWorld`], [`PaxosEvent`] |
//! | `site` | a replica beside all entries that it ever made, from which it opens again |
//! | `posts` | messages as they were sent |
//! | `laws` | the laws |
//!
//! | subject | file of `specs/` |
//! |---|---|
//! | the world, its events, a run | `World` |
//! | what a replica tells of what it learned | `Told` |
//! | runs to look at | `WorkedRuns` |
#![tactic(auto)]

mod event;
mod laws;
mod posts;
mod site;
mod world;

pub use event::PaxosEvent;
pub use laws::{agreement, told, worked_runs};
pub use posts::Post;
pub use world::PaxosWorld;

#[cfg(test)]
mod tests;
