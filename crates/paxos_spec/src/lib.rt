//! Five replicas of one log: the words in which agreement is promised.
//!
//! | subject | file of `specs/` |
//! |---|---|
//! | values with their ballots | `Votes` |
//! | the five, which of them, whose a ballot is | `Five` |
//! | what an acceptor keeps and decides | `Acceptor` |
//! | what a leader keeps and decides | `Leader` |
//! | what a replica does with each message | `Replica` |
//! | a replica as one value, and which events count | `Events` |
//! | chosen, learned, and what is claimed of them | `Agreement` |
//!
//! The crates above bind code to these words: an acceptor's calls to `Acceptor`, a leader's to `Leader`, and a world of
//! five replicas to `Replica`. That the claims of `Agreement` hold, whatever happens, is proved in `paxos_log`.
#![tactic(auto)]

mod cast;
mod mail;
mod stage;
mod steps;

pub use cast::{Cast, Proposal};
pub use mail::{Body, Mail};
pub use stage::Stage;
pub use steps::{AcceptStep, ChosenStep, Counted, LeadStep, PrepareStep};
