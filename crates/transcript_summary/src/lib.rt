//! A transcript in four lines: how many lines of each kind it has.
//!
//! A line's kind is its first word, and of an act its first two. [`Counts::of`] counts the lines of a text by their
//! kinds, in one pass over it. Texts that come one behind the other, each of whole lines, are counted one by one:
//! their counts add up. [`append_counts`] writes the four lines.
#![tactic(auto)]

mod kinds;
mod laws;
mod lines;
mod summary;

pub use kinds::{Counts, LeaseCounts, TrafficCounts};
pub use laws::counts_by_pieces;
pub use summary::{append_counts, append_summary};

#[cfg(test)]
mod tests;
