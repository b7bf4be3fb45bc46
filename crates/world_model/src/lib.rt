//! A world of real nodes: each over disks in memory, and all datagrams that they sent.
//!
//! A [`World`] opens every node of a configuration on empty disks. [`World::apply`] lets an event of a schedule happen:
//! a delivery of any datagram, one from outside, a tick, a crash, also within one of these, or a restart. It gives the
//! lines that a transcript has of it. What decides in a node is a type parameter; where it follows the tables of the
//! three roles, the world stands for the world by the tables. [`replay`] writes that world's transcript to a sink, and
//! [`count_lines`] counts its lines, both as the lines come.
//!
//! | subject | file of `specs/` |
//! |---|---|
//! | a world: what an event makes of it, and its lines | `World` |
//! | the first world | `Firsts` |
//! | a world as the code keeps it | `Sound` |
//! | which world by the tables a world stands for | `Shown` |
//! | when a node's journal has no room for what an event makes it write | `Overflows` |
//! | a run that is written step by step | `Runs` |
//!
//! A delivery costs a look at the datagram's place and the node's step. A settle finds what waits from where it looked
//! last. Memory grows with what was sent.
#![tactic(auto)]

mod advancing;
mod counting;
mod fault;
mod printing;
mod spreading;
mod world;
mod writing;

pub use counting::count_lines;
pub use fault::ReplayFault;
pub use world::{LineList, World};
pub use world_nodes::WorldFault;
pub use writing::replay;
