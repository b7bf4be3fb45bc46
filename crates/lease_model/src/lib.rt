//! The book of leases: what may be done to ranges and connections, and to whom they belong. Of replicas, maps in muxes,
//! epochs and journals nothing is in it.
//!
//! A book has the rows of leases, the numbers that agents hold, and the connections. [`Book::step`] takes one act: it
//! is legal exactly where its conditions hold, and else [`StepFault::Illegal`] tells the act and the row that it
//! clashes with. A book keeps no packets, so each Hand is taken.
//!
//! | act | legal where | leaves |
//! |---|---|---|
//! | Reserve n | n is above all before; the range has no row and is the machine's VIP's least without one; the machine has fewer rows than the limit | a row, BeingLeased |
//! | Grant n | row n is BeingLeased | it is Leased |
//! | Free n | row n is BeingLeased or Leased, and n isn't held | it is Freeing |
//! | Freed n | row n is Freeing | the row leaves |
//! | Hold n | row n is Leased, and n was never held | n is held |
//! | Drop n | n is held, and no connection is in its range | n isn't held |
//! | Open | its range has a row of its machine whose n is held; no connection has its public key or its private key | the connection |
//! | Close | the connection is open | it leaves |
//! | Lose | always | held numbers and connections of that agent's machines leave |
//! | Hand | always | |
#![tactic(auto)]

mod book;
mod conns;
mod fault;
mod row;
mod rows;
mod starts;
mod verdict;

pub use book::Book;
pub use fault::StepFault;
pub use lease_spec::Phase;
pub use row::BookRow;

#[cfg(test)]
mod tests;
