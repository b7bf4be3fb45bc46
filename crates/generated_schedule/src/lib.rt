//! Schedules made from a number: a configuration, four opening lines, and so many lines, each by the next word of a
//! generator (PCG XSH RR 64/32 with stream 1).
//!
//! A word gives an event and the event its line, as `schedule_text` writes it. Of each 16 words 7 are settles, 2 inject
//! a packet of a machine, 1 delivers again, 3 are ticks, each 100 milliseconds after the one before, 1 is a crash and 2
//! are restarts, on average.
#![tactic(auto)]

mod event;
mod text;

pub use text::append_generated;

#[cfg(test)]
mod tests;
