//! What is safe in every run of a schedule: no two machines hold one range, no two live connections share an end, a
//! reply reaches only the machine that opened its connection, and no acknowledged lease is forgotten.
//!
//! | subject | file of `specs/` |
//! |---|---|
//! | a safe world, and a schedule that is safe at every moment | `Safety` |
//! | the same of a world of real nodes, by the lists in their cores | `Nodes` |
//!
//! A moment is the world after some of a schedule's basic events: a settle is its deliveries, so there is one between
//! any two of them. [`always_safe`] says that each schedule that is read is safe at every moment; [`plainly`] says what
//! that means for two machines and for two connections; [`real_nodes`] that a world of real nodes is as safe.
#![tactic(auto)]

mod laws;

pub use laws::{always_safe, plainly, real_nodes};
