// What a file in memory keeps.

use outside_io::Span;
use std::alloc::Global;
use std::marker::Model;
use wire_core::Items;

/// What a call replaced.
#[derive(Debug, Drop)]
pub enum Replaced {
    /// `count` bytes from `at` on stand where `old` stood.
    Bytes {
        at: usize,
        count: usize,
        old: Items<u8>,
    },
    /// The call was a sync: these ranges had been written before it.
    Ranges {
        unsynced: Items<Span>,
    },
}

/// What a call replaced, and the least and the greatest length before it.
#[derive(Debug, Drop)]
pub struct Undo {
    pub(crate) replaced: Replaced,
    pub(crate) least: usize,
    pub(crate) greatest: usize,
}

/// A file in memory. The file is the first `len` bytes of `buffer`, which is as long as the greatest length that the
/// file had since the last sync; `least` is the least one. The latest undo stands last.
#[derive(Drop)]
pub struct MemDisk {
    pub(crate) alloc: Global,
    pub(crate) buffer: Vec<u8>,
    pub(crate) len: usize,
    pub(crate) unsynced: Vec<Span>,
    pub(crate) least: usize,
    pub(crate) undo: Vec<Undo>,
    pub(crate) faults: u64,
}

impl Model for MemDisk {
    ghost use Rattle.disk_model.specs.Disks.{DiskState};

    ghost Value = { DiskState };

    ghost use Rattle.disk_model.specs.States.{disk_of, IsWhole};

    ghost view = { disk_of };

    ghost invariant = { IsWhole };
}
