//! A checked configuration: the rules between its members, and what the roles ask of it.
//!
//! [`Config::read`] takes the text apart with `config_text` and then tests six rules, each a walk over some members in
//! the order of the text. In a walk each member claims a key that may stand once; the first one that doesn't fit, or
//! whose key is claimed already, is the answer, by its path.
//!
//! | module | what it tests or keeps | rule |
//! |---|---|---|
//! | `walk` | who claims which key, and the first member that breaks the rule | |
//! | `place` | the path of each member | |
//! | `sockets` | no two sockets are equal; whose each is | 1 |
//! | `machines` | no two machine addresses are equal; of which agent each is | 2 |
//! | `vips` | addresses of VIPs, then the bounds of their ports | 3, 4 |
//! | `snat` | each address a machine's, once over all | 5 |
//! | `endpoints` | ports of endpoints and their machines | 6 |
//! | `index` | the rules in their order; the maps of the first two walks | |
//! | `parts`, `narrow` | the values of a configuration; ports as port numbers | |
//! | `config` | [`Config`]: the public calls | |
//! | `rules` | [`broken_rules`]: the rules are broken exactly where their plain words do not hold | |
//! | `ways`, `services` | where each machine is reached, from which VIP it leaves, and what it serves | |
//! | `leases`, `counts`, `copies` | the rules of leasing, numbers of members, a copy | |
//!
//! A [`Config`] is seen as its parts. That it keeps the rules is [`Config::keeps_rules`]. Whose a socket is, of which
//! agent a machine is, and what it serves, is found by a hash.
#![tactic(auto)]

mod broken;
mod config;
mod copies;
mod counts;
mod endpoints;
mod index;
mod leases;
mod machines;
mod narrow;
mod parts;
mod place;
mod rules;
mod services;
mod snat;
mod sockets;
mod vips;
mod walk;
mod ways;
mod who;

pub use config::Config;
pub use counts::Counts;
pub use parts::{ConfigParts, VipConf, VipList};
pub use rules::broken_rules;
pub use who::Who;

#[cfg(test)]
mod rule_tests;
#[cfg(test)]
mod tests;
