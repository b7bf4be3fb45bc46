ghost use Rattle.std.specs.Prelude.{◌≡◌, ◌<◌, ◌≤◌, ◌+◌, ◌*◌, ◌^◌, take, drop, length, slice_set, IfOk};
ghost use Rattle.lease_rows.specs.Starts.{IsFound, IsSummary, any_set, first_flag};

use std::alloc::Global;
use std::marker::Model;
use wire_core::NoMemory;

/// How many flags are one block.
const BLOCK: usize = 64;

/// Which of a VIP's starts are free: a flag for each multiple of 8 among the ports.
#[derive(Debug, Drop)]
pub struct Starts {
    free: Vec<bool>,
    /// Of each 64 flags whether some are set, so that a search reads no more than each block and one block's flags.
    blocks: Vec<bool>,
}

impl Model for Starts {
    ghost use Rattle.std.specs.Prelude.{Bool, List};
    ghost use Rattle.lease_rows.specs.Starts.{IsSummary};

    ghost Value = { List Bool };

    ghost view = { λ s. s.free.items };

    ghost invariant = { λ s. IsSummary s.blocks.items s.free.items };
}

/// Whether a flag is set.
fn any(flags: &[bool]) -> bool
    ensures { result ≡ any_set flags.now }
{
    flags.iter().any(|flag| *flag)
}

/// The place of the first flag that is set: the first flag's is `place`, and each is `step` further than the one
/// before.
fn first(flags: &[bool], place: u32, step: u32) -> Option<u32>
    requires { place + step * length flags.now < 2 ^ 32 }
    ensures { result ≡ first_flag step place flags.now }
{
    let mut at = place;
    for flag in flags {
        if *flag {
            return Some(at);
        }
        at += step;
    }
    None
}

/// Whether a flag of this block is set.
fn any_in_block(free: &[bool], block: usize) -> bool
    requires { 64 * block ≤ length free.now }
    ensures { result ≡ any_set (take 64 (drop (64 * block) free.now)) }
{
    let (_, rest) = free.split_at(BLOCK * block);
    let (flags, _) = rest.split_at(BLOCK.min(rest.len()));
    any(flags)
}

/// Of each block of the flags whether some are set.
fn sum_up(flags: &[bool], blocks: &mut [bool])
    requires count { length flags.now ≡ 64 * length blocks.old }
    requires few { length blocks.old ≤ 128 }
    ensures { IsSummary blocks.new flags.now }
{
    for block in 0..blocks.len() {
        blocks[block] = any_in_block(flags, block);
    }
}

/// The least free start, where none below `place` is free.
fn first_start(free: &[bool], place: u32) -> Option<u16>
    requires within { length free.now ≤ 8192 }
    requires found { IsFound free.now 0 place }
    ensures { result ≡ first_flag 8 0 free.now }
{
    let (_, rest) = free.split_at(place as usize / 8);
    match first(rest, place, 8) {
        Some(start) => Some(start as u16),
        None => None,
    }
}

impl Starts {
    /// So many blocks of starts, none of them free.
    pub fn new(alloc: Global, blocks: usize) -> Result<Starts, NoMemory>
        requires { blocks ≤ 128 }
        ensures { IfOk result (λ s. length s ≡ 64 * blocks) }
    {
        let mut free = Vec::new(alloc);
        free.resize(BLOCK * blocks, false)?;
        let mut summary = Vec::new(alloc);
        summary.resize(blocks, false)?;
        Ok(Starts {
            free,
            blocks: summary,
        })
    }

    /// The flags of a VIP's 8,192 starts, all at once: a look at each.
    pub fn put(&mut self, flags: &[bool])
        requires starts { length self.old ≡ 8192 }
        requires flags { length flags.now ≡ 8192 }
        ensures { self.new ≡ flags.now }
    {
        self.free.copy_from_slice(flags);
        sum_up(flags, &mut self.blocks);
    }

    /// Whether the start with this index is free from now on. An index past the starts changes nothing.
    pub fn set(&mut self, i: usize, free: bool)
        ensures { self.new ≡ slice_set self.old i free }
    {
        if i >= self.free.len() {
            return;
        }
        let block = i / BLOCK;
        self.free[i] = free;
        self.blocks[block] = any_in_block(&self.free, block);
    }

    /// The least free start.
    pub fn first(&self) -> Option<u16>
        ensures { result ≡ first_flag 8 0 self.now }
    {
        match first(&self.blocks, 0, 512) {
            Some(place) => first_start(&self.free, place),
            None => None,
        }
    }
}
