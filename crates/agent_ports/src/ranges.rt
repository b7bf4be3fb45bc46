ghost use Rattle.std.specs.Prelude.{◌≡◌, ◌++◌, ◌∷◌, [], false, ◌==◌, length, map, option_map, IsSome, IfOk, OnOk, OnErr, if◌then◌else◌};
ghost use Rattle.std.specs.List.{list_any};
ghost use Rattle.indexmap.specs.IndexMap.{get};
ghost use Rattle.wire_core.specs.declared.address.Ip4 as ip;
ghost use Rattle.wire_core.specs.Same.{same_ip};
ghost use Rattle.agent_spec.specs.Ranges.{at_number, inserted, place_for};
ghost use Rattle.agent_ports.specs.Leases.{counted_by, entry_leases, held_number, lease_number, lease_of, leases_of};
ghost use Rattle.agent_ports.specs.Order.{Ascend, SplitsAt};
ghost use Rattle.agent_ports.specs.Flags.{unflagged};

use crate::count::Count;
use crate::flags::unflagged;
use crate::held::{count, place_for};
use crate::lease::Lease;
use agent_spec::Held;
use indexmap::IndexMap;
use std::alloc::Global;
use std::marker::Model;
use wire_core::{Ip4, Items, NoMemory};

/// Held ranges by number, and each machine's.
#[derive(Drop)]
pub struct HeldRanges {
    alloc: Global,
    items: Vec<Held>,
    by_machine: IndexMap<Ip4, Items<Lease>>,
}

impl Model for HeldRanges {
    ghost use Rattle.std.specs.Prelude.{List};
    ghost use Rattle.indexmap.specs.IndexMap.{get};
    ghost use Rattle.wire_core.specs.Same.{same_ip};
    ghost use Rattle.agent_spec.specs.declared.held.Held.{Held as Kept};
    ghost use Rattle.agent_ports.specs.Leases.{IsIndexed};

    ghost Value = { List Kept };

    ghost view = { λ r. r.items.items };

    ghost invariant = { λ r. IsIndexed r.items.items (get same_ip r.by_machine) };
}

/// An entry for a machine.
fn make_entry(
    map: &mut IndexMap<Ip4, Items<Lease>>,
    alloc: Global,
    machine: Ip4,
) -> Result<(), NoMemory>
    ensures made { OnOk result (IsSome (get same_ip map.new machine)) }
    ensures same { (m : ip.Ip4) → entry_leases (get same_ip map.new m) ≡ entry_leases (get same_ip map.old m) }
{
    if !map.contains_key(&machine) {
        map.insert(machine, Items::new(alloc))?;
    }
    Ok(())
}

/// One lease more in a machine's entry, if it has one.
fn push_lease(
    map: &mut IndexMap<Ip4, Items<Lease>>,
    machine: Ip4,
    lease: Lease,
) -> Result<(), NoMemory>
    ensures ok { OnOk result ((m : ip.Ip4) → get same_ip map.new m
        ≡ (if same_ip machine m then option_map (λ ls. ls ++ lease ∷ []) (get same_ip map.old machine)
        else get same_ip map.old m)) }
    ensures err { OnErr result ((m : ip.Ip4) → get same_ip map.new m
        ≡ (if same_ip machine m then get same_ip map.old machine else get same_ip map.old m)) }
{
    if let Some(leases) = map.get_mut(&machine) {
        leases.push(lease)?;
    }
    Ok(())
}

/// One lease more of its machine.
fn add_lease(map: &mut IndexMap<Ip4, Items<Lease>>, alloc: Global, h: &Held) -> Result<(), NoMemory>
    ensures ok { OnOk result ((m : ip.Ip4) → entry_leases (get same_ip map.new m)
        ≡ (if same_ip h.now.machine m then entry_leases (get same_ip map.old m) ++ lease_of h.now ∷ []
        else entry_leases (get same_ip map.old m))) }
    ensures err { OnErr result
        ((m : ip.Ip4) → entry_leases (get same_ip map.new m) ≡ entry_leases (get same_ip map.old m)) }
{
    make_entry(map, alloc, h.machine)?;
    push_lease(map, h.machine, Lease::of(h))?;
    Ok(())
}

/// Each machine's ranges.
fn index(alloc: Global, held: &[Held]) -> Result<IndexMap<Ip4, Items<Lease>>, NoMemory>
    ensures { IfOk result (λ map. (m : ip.Ip4) → entry_leases (get same_ip map m) ≡ leases_of held.now m) }
{
    let mut map = IndexMap::new(alloc);
    for h in held {
        add_lease(&mut map, alloc, h)?;
    }
    Ok(map)
}

/// The same ranges.
fn copied(alloc: Global, held: &[Held]) -> Result<Vec<Held>, NoMemory>
    ensures { IfOk result (λ copy. copy.items ≡ held.now) }
{
    let mut copy = Vec::new(alloc);
    for h in held {
        copy.push(*h)?;
    }
    Ok(copy)
}

impl HeldRanges {
    /// No ranges. Takes no memory.
    pub fn new(alloc: Global) -> HeldRanges
        ensures { result ≡ [] }
    {
        HeldRanges {
            alloc,
            items: Vec::new(alloc),
            by_machine: IndexMap::new(alloc),
        }
    }

    /// The ranges by number.
    pub fn as_slice(&self) -> &[Held]
        ensures items { result.now ≡ self.now }
        ensures ascend { Ascend held_number self.now }
    {
        self.items.as_slice()
    }

    /// The machine's ranges by number.
    pub fn leases(&self, machine: Ip4) -> &[Lease]
        ensures leases { result.now ≡ leases_of self.now machine }
        ensures ascend { Ascend lease_number result.now }
    {
        match self.by_machine.get(&machine) {
            Some(leases) => leases.as_slice(),
            None => &[],
        }
    }

    /// Counts in the range with this number, if one has it. A binary search.
    pub fn count(&mut self, n: u64, change: Count)
        ensures { self.new ≡ map (at_number n (counted_by change)) self.old }
    {
        count(&mut self.items, n, change);
    }

    /// The range with the greatest number.
    fn push(&mut self, h: Held) -> Result<(), NoMemory>
        requires { SplitsAt held_number h.n self.old (length self.old) }
        ensures ok { OnOk result (self.new ≡ self.old ++ h ∷ []) }
        ensures err { OnErr result (self.new ≡ self.old) }
    {
        self.items.reserve(1)?;
        add_lease(&mut self.by_machine, self.alloc, &h)?;
        self.items.push(h).unwrap();
        Ok(())
    }

    /// These ranges in place of all.
    fn replace(&mut self, items: Vec<Held>) -> Result<(), NoMemory>
        requires { Ascend held_number items.items }
        ensures ok { OnOk result (self.new ≡ items.items) }
        ensures err { OnErr result (self.new ≡ self.old) }
    {
        let by_machine = index(self.alloc, &items)?;
        self.items = items;
        self.by_machine = by_machine;
        Ok(())
    }

    /// A range with a number that isn't the greatest. Costs a walk over all.
    fn insert(&mut self, at: usize, h: Held) -> Result<(), NoMemory>
        requires place { at ≡ place_for h.n self.old }
        requires split { SplitsAt held_number h.n self.old at }
        requires new { list_any (λ x. x.n == h.n) self.old ≡ false }
        ensures ok { OnOk result (self.new ≡ inserted h self.old) }
        ensures err { OnErr result (self.new ≡ self.old) }
    {
        let mut items = copied(self.alloc, &self.items)?;
        items.insert(at, h)?;
        self.replace(items)
    }

    /// One range more. Costs a binary search where its number is the greatest, and else a walk over all.
    pub fn add(&mut self, h: Held) -> Result<(), NoMemory>
        requires { list_any (λ x. x.n == h.n) self.old ≡ false }
        ensures ok { OnOk result (self.new ≡ inserted h self.old) }
        ensures err { OnErr result (self.new ≡ self.old) }
    {
        let at = place_for(&self.items, h.n);
        if at == self.items.len() {
            self.push(h)
        } else {
            self.insert(at, h)
        }
    }

    /// The ranges without a flag stay. Costs a walk over all.
    pub fn keep_unflagged(&mut self, flags: &[bool]) -> Result<(), NoMemory>
        requires { length flags.now ≡ length self.old }
        ensures ok { OnOk result (self.new ≡ unflagged flags.now self.old) }
        ensures err { OnErr result (self.new ≡ self.old) }
    {
        let items = unflagged(self.alloc, &self.items, flags)?;
        self.replace(items)
    }
}
