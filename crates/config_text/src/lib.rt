//! A configuration as it is written: its JSON, read member by member, with the first fault and its path.
//!
//! | module | what a reader finds |
//! |---|---|
//! | `settings` | [`Settings`], [`Timers`]: the whole text, and how it is read |
//! | `agents` | [`AgentConf`], [`Attach`] |
//! | `vips` | [`VipText`], [`Endpoint`], [`Member`] |
//! | `fault` | [`ConfigFault`] |
//! | `object`, `list` | the member of an object at a key, each member of a list |
//! | `values` | numbers, addresses, sockets and protocols |
//! | `place` | a value and its path, such as `agents[0].machines[1].address` |
//!
//! What is JSON is what `serde_json` reads: UTF-8, 127 levels, no lone surrogate, numbers within a double. What is read
//! of it is exactly what the table of keys in `specs/Form.antt` says: each object's keys in their order, depth first, a
//! list's length before its members, then the least key that the object may not have. That the values fit one another,
//! as that no two sockets are equal, is left to the caller.
#![tactic(auto)]

mod agents;
mod fault;
mod list;
mod object;
mod place;
mod settings;
mod values;
mod vips;

pub use agents::{AgentConf, AgentList, Attach, AttachList};
pub use fault::ConfigFault;
pub use settings::{Settings, SocketList, Timers};
pub use vips::{Endpoint, EndpointList, IpList, Member, MemberList, VipText, VipTextList};

#[cfg(test)]
mod tests;
