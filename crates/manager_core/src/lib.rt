//! A replica of the managers: what each datagram and each tick make of it.
//!
//! [`Manager`] is seen as its configuration and its lists, as `manager_spec` has them. [`Manager::recover`] opens it by the
//! entries of its journal, and [`Manager::handle`] takes an input and answers a step: an entry that is to be durable
//! before a datagram leaves, what happened, and the datagrams. Each is one equation with the table.
//!
//! | what comes | row | file |
//! |---|---|---|
//! | any datagram | whose it is and what it holds, then by its sender | `handle` |
//! | Prepare, Promise, Refuse, Lead | who leads | `leading` |
//! | Accept, Accepted, Chosen, Fetch | what the log gets | `voting` |
//! | Ask, Return, AgentUp | what agents ask for | `agents`, with the requests that wait in `queue` |
//! | MuxHello, MuxRefuse, Programmed, Unprogrammed | what muxes say | `muxes` |
//! | the time | a primary leads on, another runs for election | `clock`, with what muxes are told again in `push`, and what needn't be looked at for that in `pending` |
//!
//! A row that ends with the proposal leaves it to `handle`: `half` is a row before its proposal, `proposal` what is due
//! and proposed, `orders` what is told at once of what was learned. A row of the agreement is one step of
//! `paxos_replica`, asked for first and taken by `Manager::take`; `saying` spells it.
//!
//! `log` ties the replica and the lease table of its log in one type, so that nobody above sees that they are two. A
//! call that finds no memory between them leaves it unsound: then [`Manager::handle`] says nothing but that there is no
//! memory. A core that answered so isn't used again.
//!
//! Costs: a row of the agreement copies at most two values; a learned value costs what its commands cost in the table; an
//! acknowledgement is a look-up among the rows with acknowledgements. The proposal looks at the rows that are
//! BeingLeased and Freeing until 16 commands are due. A primary's tick looks at the rows that are new since the last one,
//! and then, until 64 messages are said, at those that are Freeing or that a mux with a known boot may lack: `pending`
//! keeps which these are. So rows that each mux has cost an event nothing, but for the first tick of a lead and the one
//! after a mux came in a later boot, at which it looks at each row.
#![tactic(auto)]

mod agents;
mod clock;
mod half;
mod handle;
mod leading;
mod manager;
mod muxes;
mod opening;
mod orders;
mod proposal;
mod push;
mod voting;

pub use manager::Manager;
