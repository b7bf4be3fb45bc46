//! Laws of every world, whatever its schedule.
#![tactic(auto)]

mod laws;

pub use laws::{
    acts, agents, agreement, each_event, grants, hearing, kept, lives, reasons, replies, safety,
    sayings, turns,
};
