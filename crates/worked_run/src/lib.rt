//! The run that the documents tell, and rows beside it, computed: each is one node's turn by its table, from the bytes
//! that come to it to the bytes that it writes and sends.
//!
//! The bytes stand in `specs/` as they are written in the documents or come from a script that knows the wire format
//! alone; none is taken from the tables. A row holds by computing the table, so a change of a rule that a row tells of
//! is refused here.
//!
//! | subject | file of `specs/` |
//! |---|---|
//! | hexadecimal, configurations, what a line says of a step | `Hex`, `Configs`, `Steps` |
//! | what is told in the run | `Run` |
//! | the run's replicas, and what its lines say of them | `Replicas`, `ReplicaRun` |
//! | a primary with a log, where no election is told | `Primaries` |
//! | managers: who leads, and what the log gets | `ReplicaLeading`, `ReplicaVoting` with `Ballots` |
//! | managers: muxes | `ReplicaMuxes` with `Muxes` |
//! | managers: agents | `ReplicaAgents` with `Asks` |
//! | managers: what isn't taken | `ReplicaDatagrams` with `Redirects` |
//! | the mux: its lines of the run | `MuxRun` |
//! | the mux: commands, and what isn't taken | `MuxOrders` with `Orders` |
//! | the mux: packets and flows | `MuxPackets` with `Arriving` |
//! | the mux: long packets, and full lists | `MuxLimits` with `Long` |
//! | the host agent: its lines of the run | `AgentRun` |
//! | the host agent: leases, asks and the clock | `AgentLeases` with `Leasing` |
//! | the host agent: packets from machines and to them | `AgentPackets` with `Delivering` |
//! | the host agent: several ranges, several machines | `AgentRanges` with `Leasing` |
//! | the host agent: uses, entries, peers | `AgentUses` with `Delivering` |
//! | the host agent: long packets, and full lists | `AgentLimits` with `Long` |
//! | a connection that leaves the mux, by the tables as they will be | `DirectRun` with `Direct`, `DirectTables` |
#![tactic(auto)]

mod agents;
mod direct;
mod managers;
mod muxes;

pub use agents::{agent_limits, agent_run, leases_rows, machines_rows, ranges_rows, uses_rows};
pub use direct::direct_run;
pub use managers::{agents_rows, agreement_rows, managers_run, muxes_rows, untaken_rows};
pub use muxes::{mux_limits, mux_run, orders_rows, packets_rows};
