//! The nodes of a world, each over disks in memory: what an input, a crash and an opening make of one, whatever decides in
//! it.
//!
//! | subject | file of `specs/` |
//! |---|---|
//! | a node: a step, a crash, an opening, each cut short | `Sites` |
//! | all nodes, by their roles and numbers | `Nodes` |
//! | all nodes, opened on empty disks | `Firsts` |
//! | nodes as the code keeps them | `Disks` |
//!
//! A node that is down has its two disks, and what it wrote with success is on them. A step that a crash cuts short keeps
//! its entry or not, and sends nothing.
#![tactic(auto)]

mod fault;
mod nodes;
mod opening;
mod outbox;
mod site;
mod stepped;

pub use fault::WorldFault;
pub use nodes::{
    Nodes, bodies_of, crash_node, cut_node, cut_restart_node, learned_by, lent, longest,
    restart_node, step_node,
};
pub use opening::first_nodes;
pub use site::{Place, Site};
pub use stepped::Stepped;
