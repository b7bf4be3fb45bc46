ghost use Rattle.std.specs.Prelude.{◌≡◌, ◌<◌, ◌≤◌, ◌⊎◌, max, None, Some, true, if◌then◌else◌};
ghost use Rattle.indexmap.specs.IndexMap.{get, spare};
ghost use Rattle.agent_ports.specs.declared.remote_end.RemoteEnd.{RemoteEnd as End};
ghost use Rattle.agent_ports.specs.Full.{IsTop, below_of, same_end};

use crate::remote_end::RemoteEnd;
use indexmap::IndexMap;
use std::alloc::Global;

/// Up to which ranges of its machine each remote end is known to be full. What isn't known costs a look, and no more:
/// so any of it may be forgotten at any time.
#[derive(Drop)]
pub struct FullRanges {
    /// The number below which all are full.
    pub below: IndexMap<RemoteEnd, u64>,
    /// No number is above this one.
    pub top: u64,
}

/// The number of an end from now on.
fn put(map: &mut IndexMap<RemoteEnd, u64>, end: RemoteEnd, below: u64)
    requires { 0 < spare map.old }
    ensures { (e : End) → get same_end map.new e ≡ (if same_end end e then Some below else get same_end map.old e) }
{
    map.insert(end, below).unwrap();
}

/// An end has no number from now on.
fn forget(map: &mut IndexMap<RemoteEnd, u64>, end: &RemoteEnd)
    ensures { (e : End) → get same_end map.new e ≡ (if same_end end.now e then None else get same_end map.old e) }
{
    map.swap_remove(end);
}

impl FullRanges {
    /// Nothing is known. Takes no memory.
    pub fn new(alloc: Global) -> FullRanges
        ensures below { (e : End) → below_of result e ≡ 0 }
        ensures top { IsTop result }
    {
        FullRanges {
            below: IndexMap::new(alloc),
            top: 0,
        }
    }

    /// The number below which the machine's ranges are known to be full; 0 for none.
    pub fn below(&self, end: &RemoteEnd) -> u64
        ensures { result ≡ below_of self.now end.now }
    {
        match self.below.get(end) {
            Some(n) => *n,
            None => 0,
        }
    }

    /// The machine's ranges below this number are full. Without memory that isn't kept.
    pub fn set(&mut self, end: RemoteEnd, below: u64)
        requires { IsTop self.old }
        ensures below { (e : End) → (below_of self.new e ≡ below_of self.old e)
            ⊎ ((same_end end e ≡ true) × (below_of self.new e ≡ below)) }
        ensures top { IsTop self.new }
    {
        if self.below.reserve(1).is_ok() {
            put(&mut self.below, end, below);
            self.top = self.top.max(below);
        }
    }

    /// A range with this number isn't full any more. Where it is the machine's first, nothing is known.
    pub fn lower(&mut self, end: &RemoteEnd, n: u64, is_first: bool)
        requires { IsTop self.old }
        ensures below { (e : End) → below_of self.new e ≤ below_of self.old e }
        ensures here { below_of self.new end.now ≤ n }
        ensures top { IsTop self.new }
    {
        if n < self.below(end) {
            forget(&mut self.below, end);
            if !is_first {
                self.set(*end, n);
            }
        }
    }

    /// A range with this number is new, and isn't full. Where its number isn't above all, nothing is known.
    pub fn granted(&mut self, n: u64)
        requires { IsTop self.old }
        ensures below { (e : End) → below_of self.new e ≤ below_of self.old e }
        ensures new { (e : End) → below_of self.new e ≤ n }
        ensures top { IsTop self.new }
    {
        if n < self.top {
            self.clear();
        }
    }

    /// Nothing is known.
    pub fn clear(&mut self)
        ensures below { (e : End) → below_of self.new e ≡ 0 }
        ensures top { IsTop self.new }
    {
        self.below.clear();
        self.top = 0;
    }
}
