//! A replica of the managers: what it keeps, and what each input makes it do.
//!
//! A row of this table is a step of the replicated log's replica, as `paxos_spec` has it, and what leasing adds: the
//! acts of what was learned, the orders to muxes and agents, and the proposal. So what is proved of every list of such
//! steps is so of managers.
//!
//! | subject | file of `specs/` |
//! |---|---|
//! | what it keeps, and a step of the agreement as a turn | `Manager` |
//! | what it knows of muxes, and their acknowledgements | `Known` |
//! | what it tells muxes and agents | `Orders` |
//! | what it proposes, and which rows end with a proposal | `Proposal` |
//! | Prepare, Promise, Refuse, Lead: who leads | `Leading` |
//! | Accept, Accepted, Chosen, Fetch: what the log gets | `Voting` |
//! | the clock | `Clock` |
//! | MuxHello, MuxRefuse, Programmed, Unprogrammed | `Muxes` |
//! | Ask, Return, AgentUp | `Agents` |
//! | which input is which row | `ManagerTable` |
//! | which step of the agreement a row is | `Agreement` |
//! | what each row leaves as it was | `Footprints` |
//!
//! That it is so of every row say [`steps`], [`drops`], [`footprints`] and [`followers_rest`]. The bundle
//! `proofs/OnLiterals` opens the words of this crate where a row is computed.
#![tactic(auto)]

mod laws;
mod marks;
mod peer;

pub use laws::{drops, entries, followers_rest, footprints, steps};
pub use marks::Marks;
pub use peer::Peer;
