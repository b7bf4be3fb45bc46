//! The flows of a mux: which machine each flow goes to, and when its last packet came.
//!
//! A flow of which one packet came is untrusted, and of a full list of these the oldest leaves. One that comes again
//! becomes trusted where there is room, and is never dropped for another. Idle flows leave by the order of the lists:
//! the oldest first, until one isn't idle.
//!
//! [`FlowTable`] is seen as the two lists, newest first, and the latest time that it was told. `lists` alone knows what
//! keeps them.
#![tactic(auto)]

mod lists;
mod table;

pub use table::FlowTable;

#[cfg(test)]
mod tests;
