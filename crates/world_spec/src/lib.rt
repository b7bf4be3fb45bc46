//! The world: all nodes with their disks, all datagrams that were ever sent, and what each event makes of them.
//!
//! A world has, of each node, the entries of its disk and, while it is up, its lists; and all datagrams that were ever
//! sent, with a mark on those that a delivery took. An event is a delivery of any of them, at any time and any number
//! of times; a datagram from outside; a tick of a node's clock; a crash, also within one of these; or a restart. What a
//! node does is its role's table, so a run says nothing of code.
//!
//! | subject | file of `specs/` |
//! |---|---|
//! | a node of any role: its turn, its opening | `Nodes` |
//! | all nodes and all datagrams | `World` |
//! | which acts of a turn are the world's | `Acts` |
//! | what an event does, and its lines | `Steps` |
//! | events, and the worlds that they lead to | `Events` |
//! | the lines of a whole run | `Transcript` |
//! | held ranges, connections, rows, log and book | `Views` |
//! | the acts of a run, and what came from outside | `History` |
//! | what a step leaves of the others | `Shapes` |
//! | how a fact of all worlds is said, and what it owes | `Facts` |
//!
//! A fact of all worlds has three parts: of each datagram, of each entry, and of the lists of each node that is up.
//! Where it lasts, and each opening and each turn keeps it (`Keeps`), it holds in every world: `always` of
//! `proofs/Principle`. An event is a step of one node, of one of six shapes ([`shapes`]). A settle is no event here: it
//! is its deliveries ([`schedules`]), so each moment within it is a world of its own.
#![tactic(auto)]

mod laws;
mod views;

pub use laws::{every_world, lines, schedules, shapes, sites};
pub use views::{Held, MuxRow};
