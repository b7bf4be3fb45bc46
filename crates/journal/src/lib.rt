//! The journal of one node: entries in order, each on the disk before it is acknowledged.
//!
//! A file is a gate byte; while the gate is 1, a length of 4 bytes (big-endian), a body of so many bytes, and the next
//! gate. A gate other than 1 ends the journal, and what follows it doesn't count. A body is the spelling of an entry.
//!
//! ```text
//! gate | length | body .. | gate | length | body .. | gate | whatever
//!  01    4 bytes           01                         00
//! ```
//!
//! An append writes length, body and a closed gate behind the ending gate, and syncs; then it opens that gate, which is
//! one byte, and syncs. So a crash at any moment leaves the entries before, with the new one or without: as long as the
//! gate is closed the new record doesn't count, whatever part of it was written, and once it is open the record is
//! whole.
//!
//! What is promised: [`Journal::open`] gives the bodies of the file, or says at which gate it is damaged;
//! [`Journal::append`] adds one body; and each crash image, at each moment of both, opens to the bodies before, or to
//! these and the new one. The caller keeps the journal the only writer of its disks, and after a fault of a disk it
//! opens the journal anew.
//!
//! The second disk is kept beside the first and is not touched yet.
#![tactic(auto)]

mod durable;
mod fault;
mod journal;
mod laws;
mod opening;
mod reading;
mod record;
#[cfg(test)]
mod tests;

pub use fault::{JournalFault, Refused};
pub use journal::Journal;
pub use laws::{entries_are_bodies, file_is_its_records, records_are_read};
pub use record::{MAX_BODY, is_entry};
