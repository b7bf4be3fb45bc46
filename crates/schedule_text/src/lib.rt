//! Schedules of a world: lines of text that are events, and the lines of a transcript.
#![tactic(auto)]

mod event;
mod fields;
mod laws;
mod line;
mod print;
mod read;
mod schedule;
mod write;

pub use event::{Event, EventList, Single};
pub use laws::{none_is_forged, reads_back};
pub use line::{Line, Word};
pub use print::{print_line, print_line_bytes};
pub use schedule::{LineFault, read_schedule};
pub use write::{write_event, write_hex, write_node, write_socket};

#[cfg(test)]
mod tests;
