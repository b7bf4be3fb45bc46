//! The ports of an agent's machines: the ranges that it holds for them, and the connections that go through them.
//!
//! [`Ports`] is seen as the ranges (held by number, the greatest number of each, and those that are given back) and the
//! list of connections in the order in which they were opened. Both change together: a connection that opens or closes
//! counts in its range.
//!
//! | module | what it has |
//! |---|---|
//! | `count` | what an opened or a closed connection changes in its range |
//! | `held` | ranges by number: a binary search |
//! | `lease` | a range of one machine |
//! | `ranges` | the held ranges, and each machine's |
//! | `flags` | which ranges may be given back |
//! | `remote_end` | where the packets of a machine go |
//! | `full` | up to which ranges of its machine each remote end is full |
//! | `choice` | the look for a free port |
//! | `ports` | the public calls |
//!
//! [`Ports::choose_port`] passes what it knows to be full: the machine's ranges below a number, each port of which
//! carries a connection to that remote end. So a taken port is looked at once, and not again until a connection closes
//! in front of it; then the look goes on from that range. What is known is in the invariant alone: forgetting any of it
//! costs a look and changes no answer. It is forgotten where the machine's first range isn't full any more.
//!
//! A connection that opens or closes costs look-ups and a binary search. A Grant walks over the held ranges, and so
//! does [`Ports::give_back_idle`].
#![tactic(auto)]

mod choice;
mod count;
mod flags;
mod full;
mod held;
mod lease;
mod ports;
mod ranges;
mod remote_end;

pub use agent_flows::Opened;
pub use agent_spec::{Granting, Held};
pub use ports::Ports;
