ghost use Rattle.std.specs.Prelude.{ℕ, ◌≡◌, ◌<◌, ◌≤◌, ◌+◌, ◌*◌, ◌^◌, ◌-◌, ◌++◌, ◌∷◌, [], min, take, drop, length, find, map, filter, count_by, nat_lt, slice_set, vec_len, vec_capacity, OnOk};
ghost use Rattle.lease_spec.specs.Table.{cleared};
ghost use Rattle.lease_rows.specs.Blocks.{Counts, IsBlocked, IsCountOf, IsFew, IsRecount, block_of, in_block, is_in, one, with_entry};
ghost use Rattle.lease_rows.specs.Entries.{with_row};

use crate::entries::Entry;
use lease_spec::Phase;
use std::alloc::Global;
use std::marker::Model;
use wire_core::NoMemory;

/// How many entries are one block.
const BLOCK: usize = 64;

/// How many entries of a block have a row in each phase.
#[derive(Clone, Copy, Debug, PartialEq, Eq)]
pub struct Block {
    pub being_leased: u8,
    pub leased: u8,
    pub freeing: u8,
}

/// A block without entries.
const EMPTY: Block = Block {
    being_leased: 0,
    leased: 0,
    freeing: 0,
};

/// Entries in order, and of each 64 how many rows are in each phase: a search for a phase looks at no more than 128
/// entries, and passes over the blocks without it.
#[derive(Debug, Drop)]
pub struct Blocks {
    entries: Vec<Entry>,
    blocks: Vec<Block>,
}

impl Model for Blocks {
    ghost use Rattle.std.specs.Prelude.{◌-◌, min, vec_len, vec_capacity};
    ghost use Rattle.lease_rows.specs.Blocks.{IsBlocked, Listed};

    ghost Value = { Listed };

    ghost view = { λ t. record {
      items = t.entries.items;
      room = min (vec_capacity t.entries - vec_len t.entries) (vec_capacity t.blocks - vec_len t.blocks);
    } };

    ghost invariant = { λ t. IsBlocked t.blocks.items t.entries.items };
}

impl Block {
    /// Whether a row of the block is in this phase.
    fn has(self, phase: Phase) -> bool
        ensures { result ≡ nat_lt 0 (in_block phase self) }
    {
        match phase {
            Phase::BeingLeased => self.being_leased > 0,
            Phase::Leased => self.leased > 0,
            Phase::Freeing => self.freeing > 0,
        }
    }

    /// The block after an entry of it changed.
    fn changed(self, old: Entry, new: Entry) -> Block
        requires { Counts old self }
        ensures { IsRecount old new self result }
    {
        Block {
            being_leased: recount(
                self.being_leased,
                is_in(old, Phase::BeingLeased),
                is_in(new, Phase::BeingLeased),
            ),
            leased: recount(
                self.leased,
                is_in(old, Phase::Leased),
                is_in(new, Phase::Leased),
            ),
            freeing: recount(
                self.freeing,
                is_in(old, Phase::Freeing),
                is_in(new, Phase::Freeing),
            ),
        }
    }

    /// The block with one entry more.
    fn with(self, entry: Entry) -> Block
        requires { IsFew self }
        ensures { result ≡ with_entry entry self }
    {
        Block {
            being_leased: recount(self.being_leased, false, is_in(entry, Phase::BeingLeased)),
            leased: recount(self.leased, false, is_in(entry, Phase::Leased)),
            freeing: recount(self.freeing, false, is_in(entry, Phase::Freeing)),
        }
    }
}

/// A count of entries after one of them changed: whether that was counted, and whether it is.
fn recount(count: u8, was: bool, is: bool) -> u8
    requires { IsCountOf was count }
    ensures { result + one was ≡ count + one is }
{
    match (was, is) {
        (true, false) => count - 1,
        (false, true) => count + 1,
        _ => count,
    }
}

/// Whether the entry has a row in this phase.
fn is_in(entry: Entry, phase: Phase) -> bool
    ensures { result ≡ is_in phase entry }
{
    if !entry.live {
        return false;
    }
    match phase {
        Phase::BeingLeased => entry.row.phase == Phase::BeingLeased,
        Phase::Leased => entry.row.phase == Phase::Leased,
        Phase::Freeing => entry.row.phase == Phase::Freeing,
    }
}

/// How many of these entries, at most 64, have a row in this phase.
fn count_in(entries: &[Entry], phase: Phase) -> u8
    requires { length entries.now ≤ 64 }
    ensures { result ≡ count_by (is_in phase) entries.now }
{
    let mut count = 0;
    for i in 0..entries.len() {
        if is_in(entries[i], phase) {
            count += 1;
        }
    }
    count
}

/// The first entry with a row in this phase.
fn first_in(entries: &[Entry], phase: Phase) -> Option<Entry>
    ensures { result ≡ find (is_in phase) entries.now }
{
    entries.iter().copied().find(|entry| is_in(*entry, phase))
}

/// How many of these entries, at most 64, have a row in each phase.
fn block_of(entries: &[Entry]) -> Block
    requires { length entries.now ≤ 64 }
    ensures { result ≡ block_of entries.now }
{
    Block {
        being_leased: count_in(entries, Phase::BeingLeased),
        leased: count_in(entries, Phase::Leased),
        freeing: count_in(entries, Phase::Freeing),
    }
}

/// So many entries from this place on, or as many as there are.
fn part(entries: &[Entry], from: usize, count: usize) -> &[Entry]
    requires { from ≤ length entries.now }
    ensures { result.now ≡ take count (drop from entries.now) }
{
    let (_, rest) = entries.split_at(from);
    let (part, _) = rest.split_at(count.min(rest.len()));
    part
}

/// The block with this number.
fn block_at(entries: &[Entry], number: usize) -> Block
    requires { 64 * number ≤ length entries.now }
    ensures { result ≡ block_of (take 64 (drop (64 * number) entries.now)) }
{
    block_of(part(entries, BLOCK * number, BLOCK))
}

/// The block of an entry, as another one comes in its place.
fn renew(blocks: &mut Vec<Block>, entries: &[Entry], i: usize, new: Entry)
    requires within { i < length entries.now }
    requires blocks { IsBlocked blocks.old.items entries.now }
    ensures blocks { IsBlocked blocks.new.items (slice_set entries.now i new) }
    ensures len { vec_len blocks.new ≡ vec_len blocks.old }
    ensures room { vec_capacity blocks.new ≡ vec_capacity blocks.old }
{
    let number = i / BLOCK;
    blocks[number] = blocks[number].changed(entries[i], new);
}

/// The block of a new last entry.
fn extend(blocks: &mut Vec<Block>, entries: &[Entry], new: Entry)
    requires room { vec_len blocks.old < vec_capacity blocks.old }
    requires blocks { IsBlocked blocks.old.items entries.now }
    ensures blocks { IsBlocked blocks.new.items (entries.now ++ new ∷ []) }
    ensures len { vec_len blocks.new ≤ vec_len blocks.old + 1 }
    ensures room { vec_capacity blocks.new ≡ vec_capacity blocks.old }
{
    let number = entries.len() / BLOCK;
    if number < blocks.len() {
        blocks[number] = blocks[number].with(new);
    } else {
        blocks.push_reserved(EMPTY.with(new));
    }
}

/// The blocks of entries that all may have changed.
fn renew_all(blocks: &mut Vec<Block>, entries: &[Entry])
    requires { length entries.now ≤ 64 * vec_len blocks.old }
    ensures blocks { IsBlocked blocks.new.items entries.now }
    ensures len { vec_len blocks.new ≤ vec_len blocks.old }
    ensures room { vec_capacity blocks.new ≡ vec_capacity blocks.old }
{
    blocks.truncate(entries.len().div_ceil(BLOCK));
    for number in 0..blocks.len() {
        blocks[number] = block_at(entries, number);
    }
}

/// The first entry with a row in this phase, from the block with this number on.
fn first_from(blocks: &[Block], entries: &[Entry], number: usize, phase: Phase) -> Option<Entry>
    requires { IsBlocked blocks.now entries.now }
    ensures { result ≡ find (is_in phase) (drop (64 * number) entries.now) }
{
    for k in number..blocks.len() {
        if blocks[k].has(phase) {
            let (_, rest) = entries.split_at(BLOCK * k);
            return first_in(rest, phase);
        }
    }
    None
}

/// The agent's rows of lower boots are Freeing from now on.
fn clear_each(entries: &mut [Entry], agent: u16, boot: u64)
    ensures { entries.new ≡ map (with_row (cleared agent boot)) entries.old }
{
    for e in entries.iter_mut() {
        *e = e.cleared(agent, boot);
    }
}

/// Entries without a row leave.
fn retain_live(entries: &mut Vec<Entry>)
    ensures entries { entries.new.items ≡ filter (λ e. e.live) entries.old.items }
    ensures len { vec_len entries.new ≤ vec_len entries.old }
    ensures room { vec_capacity entries.new ≡ vec_capacity entries.old }
{
    entries.retain(|e| e.live);
}

impl Blocks {
    /// No entries.
    pub fn new(alloc: Global) -> Blocks
        ensures { result.items ≡ [] }
    {
        Blocks {
            entries: Vec::new(alloc),
            blocks: Vec::new(alloc),
        }
    }

    /// The entries, in order.
    pub fn as_slice(&self) -> &[Entry]
        ensures entries { result.now ≡ self.now.items }
        ensures small { length self.now.items < 2 ^ 63 }
    {
        &self.entries
    }

    /// Makes room for so many more entries.
    pub fn reserve(&mut self, more: usize) -> Result<(), NoMemory>
        ensures items { self.new.items ≡ self.old.items }
        ensures room { OnOk result (more ≤ self.new.room) }
    {
        self.entries.reserve(more)?;
        self.blocks.reserve(more)?;
        Ok(())
    }

    /// One more entry, after the others.
    pub fn push(&mut self, entry: Entry)
        requires { 0 < self.old.room }
        ensures items { self.new.items ≡ self.old.items ++ entry ∷ [] }
        ensures small { length self.new.items < 2 ^ 63 }
        ensures room { self.old.room ≤ self.new.room + 1 }
    {
        extend(&mut self.blocks, &self.entries, entry);
        self.entries.push_reserved(entry);
    }

    /// Another entry in the place of one.
    pub fn put(&mut self, i: usize, entry: Entry)
        requires { i < length self.old.items }
        ensures items { self.new.items ≡ slice_set self.old.items i entry }
        ensures room { self.new.room ≡ self.old.room }
    {
        renew(&mut self.blocks, &self.entries, i, entry);
        self.entries[i] = entry;
    }

    /// The agent's rows of lower boots are Freeing from now on.
    pub fn clear_lower(&mut self, agent: u16, boot: u64)
        ensures items { self.new.items ≡ map (with_row (cleared agent boot)) self.old.items }
        ensures room { self.old.room ≤ self.new.room }
    {
        clear_each(&mut self.entries, agent, boot);
        renew_all(&mut self.blocks, &self.entries);
    }

    /// Entries without a row leave.
    pub fn compact(&mut self)
        ensures items { self.new.items ≡ filter (λ e. e.live) self.old.items }
        ensures room { self.old.room ≤ self.new.room }
    {
        retain_live(&mut self.entries);
        renew_all(&mut self.blocks, &self.entries);
    }

    /// The first entry with a row in this phase, from this place on.
    pub fn first_in(&self, i: usize, phase: Phase) -> Option<Entry>
        requires { i ≤ length self.now.items }
        ensures { result ≡ find (is_in phase) (drop i self.now.items) }
    {
        let near = first_in(part(&self.entries, i, BLOCK - i % BLOCK), phase);
        if near.is_some() {
            return near;
        }
        first_from(&self.blocks, &self.entries, i / BLOCK + 1, phase)
    }
}
