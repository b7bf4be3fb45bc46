//! A host's agent: the door of its machines to the VIPs.
//!
//! An [`Agent`] is opened by [`Agent::recover`] and takes one input after the other by [`Agent::handle`], which
//! answers what the input makes it do. In contracts it is its configuration and its lists, and a call of `handle` is
//! one equation: the step and the lists are those of `agent_spec`'s table. It does no input and output, and reads no
//! clock: time comes in as a tick.
//!
//! | module | what it has |
//! |---|---|
//! | `agent` | the public calls |
//! | `state`, `recover`, `table` | what an agent keeps, how it opens, which input is which row |
//! | `hearing` | the common tests of a datagram |
//! | `machines`, `host` | the machines, found by their addresses; one machine, its held packets and its asks |
//! | `machine`, `trying` | a packet of a machine's: it leaves, or it is held |
//! | `using`, `leaving` | a packet leaves by a connection or an inbound entry |
//! | `answers`, `grant` | Grant, Denied, Returned, AgentKnown; held packets that are tried again |
//! | `wrapped`, `handing` | wrapped packets: replies, and packets to endpoints |
//! | `clock`, `leavers`, `telling` | a tick: what is idle leaves, and what isn't answered is said again |
//! | `traffic` | ranges, connections, inbound entries and the time |
//!
//! A packet is read once, and translated in the one buffer that is sent. A handler adds to the step of its input, and
//! its contract says that the step is then that of its row, put behind what was there. After want of memory an agent
//! takes no further input. That no two inbound entries share a key rests on the configuration, since a port of a machine
//! serves one endpoint; an agent keeps it over each input that it takes.
//!
//! Not yet: a connection has a peer only once Redirects are taken; until then they are dropped, as are wrapped
//! packets of agents. The rows already say what becomes of a packet that goes to a peer.
#![tactic(auto)]

mod agent;
mod answers;
mod bytes;
mod clock;
mod grant;
mod handing;
mod hearing;
mod host;
mod leavers;
mod leaving;
mod machine;
mod machines;
mod notes;
mod recover;
mod state;
mod table;
mod telling;
mod traffic;
mod trying;
mod using;
mod wrapped;

pub use agent::Agent;
