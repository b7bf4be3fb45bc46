//! The rows of the lease table, kept so that none of the questions about them costs a walk over all rows.
//!
//! [`Rows`] is seen as the list of its rows by number, the least number that a new row may have, and the room for more
//! without memory. [`Starts`] is seen as the flags of a VIP's starts, and [`Effects`] as what was told so far.
//!
//! | module | what it keeps | found by |
//! |---|---|---|
//! | `entries` | a row and whether it stands; searches among entries in the order of their numbers | a binary search |
//! | `blocks` | entries, and of each 64 how many rows are in each phase | place, phase |
//! | `numbered` | these as rows; places are given up once half of them are without a row | number, phase |
//! | `links` | each machine's rows as a chain: the one before and the one after | number, machine |
//! | `rows` | the rows, the number on each range, each machine's count and chain | number, range, machine, phase |
//! | `starts` | which starts of a VIP are free, and a summary by blocks of 64 | the least free one |
//! | `effects` | what a slot's commands did so far | |
//!
//! Whatever needs memory has a call that makes room first, and then can't fail. Only a raised boot looks at each row.
#![tactic(auto)]

mod blocks;
mod effects;
mod entries;
mod links;
mod numbered;
mod rows;
mod starts;

pub use effects::Effects;
pub use rows::Rows;
pub use starts::Starts;
