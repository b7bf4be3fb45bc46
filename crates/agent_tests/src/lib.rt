//! A host's agent that is played: what the documents tell of it, in bytes, and a long run against plain lists; and the
//! ports of its machines.
//!
//! A test is a list of steps ([`player::Play`]) with the text that the agent is to write: what it does, its notes and its
//! datagrams.
//!
//! | module | what it has |
//! |---|---|
//! | `agents` | how an agent opens |
//! | `player` | how a list of steps is played |
//! | `lines` | how what an agent does is written |
//! | `run_tests` | the run that the documents tell, and rows beside it |
//! | `full_tests` | 65 packets, of which 64 wait |
//! | `plain` | an agent of one machine as plain lists |
//! | `events`, `event_tests` | 100,000 events in both |
//! | `port_tests` | first free ports, a full remote end, a range that comes back |
#![tactic(auto)]

#[cfg(test)]
mod agents;
#[cfg(test)]
mod event_tests;
#[cfg(test)]
mod events;
#[cfg(test)]
mod full_tests;
#[cfg(test)]
mod lines;
#[cfg(test)]
mod plain;
#[cfg(test)]
mod player;
#[cfg(test)]
mod port_tests;
#[cfg(test)]
mod run_tests;
