//! Five managers that are played: what the documents tell of them, in bytes.
//!
//! A test is a list of steps ([`cluster::Act`]) with the text that each part of it is to write: a replica's clock, what
//! a mux or an agent sends, which datagrams are delivered, in whatever order. Nothing else happens, so each order and
//! each loss can be told.
//!
//! | module | what it has |
//! |---|---|
//! | `cluster` | the five managers with all datagrams, and how a list of steps is played |
//! | `lines` | how what a manager does is written |
//! | `configs` | the configurations |
//! | `run_tests` | the run that the documents tell, and who leads after it |
//! | `lease_tests` | one range for two machines, a limit, and two muxes of which one is down |
//! | `heir_tests` | a primary that is deposed, and the value that its heir finds |
#![tactic(auto)]

#[cfg(test)]
mod cluster;
#[cfg(test)]
mod configs;
#[cfg(test)]
mod heir_tests;
#[cfg(test)]
mod lease_tests;
#[cfg(test)]
mod lines;
#[cfg(test)]
mod run_tests;
