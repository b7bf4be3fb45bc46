//! What is seen of a world of real nodes, as calls.
//!
//! Each call gives one list of a [`World`](world_model::World), and leaves it as it was. Its contract says that this is
//! the list of each world by the tables that the world stands for.
//!
//! | call | what its list has | in which order |
//! |---|---|---|
//! | [`held`] | the ranges that agents hold, with their machines | agents by number, each one's by n |
//! | [`live`] | the connections of agents | agents by number, each one's in the order of opening |
//! | [`entries`] | the rows of muxes that have a machine | muxes by number, each one's by VIP and start |
//! | [`book`] | the rows of the lease table of the longest log | by n |
//!
//! The first three are of nodes that are up. The book is read off the disk of the replica that learned most, which may
//! be down. Each refuses for want of memory alone.
//!
//! | subject | file of `specs/` |
//! |---|---|
//! | which list is a view of a world | `Views` |
//! | what is seen of nodes that are up | `Seen` |
//! | the longest log, and its table | `Books` |
//!
//! A world that was made by `World::new`, and to which events were applied one by one, stands for the world by the
//! tables after these events ([`stands`]): so at each moment of each schedule the views are those of the definitions.
#![tactic(auto)]

mod agents;
mod books;
mod laws;
mod muxes;

pub use agents::{ConnectionList, HeldList, held, live};
pub use books::{RowList, book};
pub use laws::{plain_connections, stands};
pub use muxes::{MuxRowList, entries};

#[cfg(test)]
mod tests;
