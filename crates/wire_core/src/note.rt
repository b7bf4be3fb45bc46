use crate::address::Ip4;
use crate::cause::DropCause;
use crate::items::Items;

/// What a step tells of what it didn't do.
#[derive(Clone, Copy, Debug, PartialEq, Eq)]
pub enum Note {
    /// A packet of the machine is held until a range comes; so many of its packets are held now.
    Queued { machine: Ip4, count: u64 },
    /// The input was dropped.
    Dropped { cause: DropCause },
}

pub type NoteList = Items<Note>;
