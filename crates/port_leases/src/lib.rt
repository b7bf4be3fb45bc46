//! The lease table: what the log's commands leave, kept so that a command costs no walk over rows or ranges.
//!
//! [`Table`] is seen as its rules, what stands now (rows by number, known boots, last requests) and how many slots were
//! applied. Each call is one equation with the fold of `lease_spec`: [`Table::apply`] gives the next slot's table and
//! tells what its commands did, in their order.
//!
//! | module | what it keeps | found by |
//! |---|---|---|
//! | `requests` | known boots and last requests | agent, machine |
//! | `store` | the rules, the rows and free starts of `lease_rows`, boots and requests | |
//! | `commands` | what each command does, and the commands of a value | |
//! | `table` | the public calls | |
//!
//! Memory: [`Table::apply`] makes room for a whole slot before its first change, and then nothing can fail. So it is
//! all or nothing. A lease looks at no more than 128 blocks and 64 starts. Only a raised boot looks at each row.
//!
//! Left to the caller: slots in order, below 2^58, and that a VIP or machine that is added is new.
#![tactic(auto)]

mod commands;
mod requests;
mod store;
mod table;

pub use lease_spec::{Effect, EffectList, Outcome, Phase, Row};
pub use table::Table;

#[cfg(test)]
mod tests;
