//! The connections of an agent's machines, or its inbound entries, in the order in which they were opened.
//!
//! An agent has two of these tables. A [`Flows`] is seen as the list of its connections, the first opened first.
//!
//! | module | what it has |
//! |---|---|
//! | `keys` | the two keys of a connection, and its name in acts |
//! | `opened` | what came of opening |
//! | `change` | what a use or a redirect changes in a connection |
//! | `places` | the place of each key, in a map |
//! | `looked` | up to which place connections were looked at for idleness |
//! | `slots` | connections by place; one that was closed leaves its slot empty |
//! | `flows` | the public calls |
//!
//! Each call costs a look-up or two, but for three. [`Flows::expire`] goes on where it stopped, so a tick looks at each
//! connection at most once, and at none that can't be idle yet: one that opens is passed over at once, with the time of
//! its last use. [`Flows::open`] moves all connections together once half of the slots are empty, so each is moved once
//! for each two that were opened. [`Flows::connection`] walks.
//!
//! Left to the caller: a connection that is opened has keys that no other has.
#![tactic(auto)]

mod change;
mod flows;
mod keys;
mod looked;
mod opened;
mod places;
mod slots;

pub use flows::Flows;
pub use keys::{conn_of, private_key, public_key};
pub use opened::Opened;

#[cfg(test)]
mod tests;
