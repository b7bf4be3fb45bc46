//! A node of any role: a [`Role`] is what decides in it, by the table of its role.
//!
//! A [`Role`] is a replica's manager, a mux or a host's agent, and a [`RoleNode`] is one of these over its two disks.
//! What it is once it has opened, what an input makes of it, and which entry it writes then, are the words of
//! `specs/Roles`, each by the cases of the role. After want of memory a role isn't used again: its node isn't live.
#![tactic(auto)]

#[cfg(test)]
mod host_tests;
#[cfg(test)]
mod lives;
mod role;
#[cfg(test)]
mod stories;

pub use role::{Role, RoleNode};
