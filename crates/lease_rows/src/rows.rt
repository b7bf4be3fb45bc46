ghost use Rattle.std.specs.Prelude.{ℕ, ◌≡◌, ◌<◌, ◌≤◌, ◌+◌, ◌-◌, ◌^◌, ◌++◌, ◌∷◌, [], true, not, ◌==◌, ◌||◌, if◌then◌else◌, nat_eq, map, filter, length, Some, unwrap_or, OnOk};
ghost use Rattle.indexmap.specs.IndexMap.{get, spare};
ghost use Rattle.lease_spec.specs.Free.{has_no_row, same_range};
ghost use Rattle.lease_spec.specs.Table.{cleared, move, row_at, row_count};
ghost use Rattle.lease_rows.specs.Effects.{Adds, boot_effects};
ghost use Rattle.lease_rows.specs.Entries.{InOrder};
ghost use Rattle.lease_rows.specs.Links.{number_after, numbers_of};
ghost use Rattle.lease_rows.specs.Rows.{same_address};
ghost use Rattle.lease_rows.specs.Walks.{onward, onward_all, onward_in, row_above, row_on, rows_above, rows_in, rows_of};

use crate::effects::Effects;
use crate::links::Links;
use crate::numbered::NumberedRows;
use indexmap::IndexMap;
use lease_spec::{Phase, Row};
use std::alloc::Global;
use std::marker::Model;
use wire_core::{Ip4, NoMemory, Range};

/// The rows, found by number and by range, and how many each machine has. At most one row has a range.
#[derive(Drop)]
pub struct Rows {
    rows: NumberedRows,
    /// The number of the row on each range that has one.
    numbers: IndexMap<Range, u64>,
    /// How many rows a machine has, where it ever had one.
    counts: IndexMap<Ip4, u32>,
    /// From one row of a machine to the next.
    links: Links,
}

impl Model for Rows {
    ghost use Rattle.std.specs.Prelude.{min, nat_eq};
    ghost use Rattle.indexmap.specs.IndexMap.{get, spare};
    ghost use Rattle.lease_spec.specs.Free.{same_range};
    ghost use Rattle.lease_rows.specs.Entries.{Numbered};
    ghost use Rattle.lease_rows.specs.Links.{IsLinked};
    ghost use Rattle.lease_rows.specs.Rows.{IsIndexed, same_address};

    ghost Value = { Numbered };

    ghost view = { λ t. record {
      rows = t.rows.rows;
      next = t.rows.next;
      room = min (min t.rows.room (min (spare t.numbers) (spare t.counts)))
          (min (spare t.links.links) (spare t.links.ends));
    } };

    ghost invariant = { λ t. IsIndexed t.rows.rows (get same_range t.numbers) (get same_address t.counts)
        × IsLinked t.rows.rows (get nat_eq t.links.links) (get same_address t.links.ends) };
}

/// How many rows the machine has.
fn count_of(counts: &IndexMap<Ip4, u32>, machine: Ip4) -> u32
    ensures { result ≡ unwrap_or (get same_address counts.now machine) 0 }
{
    match counts.get(&machine) {
        Some(count) => *count,
        None => 0,
    }
}

/// The machine has so many rows, and had none before.
fn put_count(counts: &mut IndexMap<Ip4, u32>, machine: Ip4, count: u32)
    requires { 0 < spare counts.old }
    ensures count { (m : Ip4) → get same_address counts.new m
        ≡ (if same_address machine m then Some count else get same_address counts.old m) }
    ensures room { spare counts.old ≤ spare counts.new + 1 }
{
    counts.insert(machine, count).unwrap();
}

/// One more row of the machine.
fn count_up(counts: &mut IndexMap<Ip4, u32>, machine: Ip4)
    requires room { 0 < spare counts.old }
    requires few { unwrap_or (get same_address counts.old machine) 0 < 2 ^ 32 - 1 }
    ensures count { (m : Ip4) → get same_address counts.new m
        ≡ (if same_address machine m
        then Some (unwrap_or (get same_address counts.old machine) 0 + 1)
        else get same_address counts.old m) }
    ensures room { spare counts.old ≤ spare counts.new + 1 }
{
    if let Some(count) = counts.get_mut(&machine) {
        *count += 1;
        return;
    }
    put_count(counts, machine, 1);
}

/// One row less of the machine.
fn count_down(counts: &mut IndexMap<Ip4, u32>, machine: Ip4)
    requires { 0 < unwrap_or (get same_address counts.old machine) 0 }
    ensures count { (m : Ip4) → get same_address counts.new m
        ≡ (if same_address machine m
        then Some (unwrap_or (get same_address counts.old machine) 0 - 1)
        else get same_address counts.old m) }
    ensures room { spare counts.old ≤ spare counts.new }
{
    if let Some(count) = counts.get_mut(&machine) {
        *count -= 1;
    }
}

/// The number of the row on a range.
fn put_number(numbers: &mut IndexMap<Range, u64>, range: Range, n: u64)
    requires { 0 < spare numbers.old }
    ensures number { (r : Range) → get same_range numbers.new r
        ≡ (if same_range range r then Some n else get same_range numbers.old r) }
    ensures room { spare numbers.old ≤ spare numbers.new + 1 }
{
    numbers.insert(range, n).unwrap();
}

/// The range has no row any more.
fn drop_number(numbers: &mut IndexMap<Range, u64>, range: Range)
    ensures number { (r : Range) → get same_range numbers.new r
        ≡ (if same_range range r then None else get same_range numbers.old r) }
    ensures room { spare numbers.old ≤ spare numbers.new }
{
    numbers.swap_remove(&range);
}

/// The row with this number, if any.
fn row_with(rows: &NumberedRows, number: Option<u64>) -> Option<Row>
    ensures { (machine : Ip4) (above : ℕ) → number ≡ number_after (numbers_of rows.now.rows machine) above
        → rows_of rows.now.rows machine above ≡ onward rows.now.rows machine result }
{
    match number {
        Some(n) => rows.row_at(n),
        None => None,
    }
}

impl Rows {
    /// No rows.
    pub fn new(alloc: Global) -> Rows
        ensures rows { result.rows ≡ [] }
        ensures next { result.next ≡ 0 }
    {
        Rows {
            rows: NumberedRows::new(alloc),
            numbers: IndexMap::new(alloc),
            counts: IndexMap::new(alloc),
            links: Links::new(alloc),
        }
    }

    /// The number of rows.
    pub fn len(&self) -> usize
        ensures len { result ≡ length self.now.rows }
        ensures small { result < 2 ^ 63 }
        ensures order { InOrder self.now.rows self.now.next }
    {
        self.rows.len()
    }

    /// The row with this number.
    pub fn row_at(&self, n: u64) -> Option<Row>
        ensures { result ≡ row_at self.now.rows n }
    {
        self.rows.row_at(n)
    }

    /// The row with the least number above this one.
    pub fn row_above(&self, n: u64) -> Option<Row>
        ensures row { result ≡ row_above self.now.rows n }
        ensures walk { rows_above self.now.rows n ≡ onward_all self.now.rows result }
    {
        self.rows.row_above(n)
    }

    /// The row in this phase with the least number above this one.
    pub fn next_in(&self, phase: Phase, above: u64) -> Option<Row>
        ensures { rows_in self.now.rows phase above ≡ onward_in self.now.rows phase result }
    {
        self.rows.next_in(phase, above)
    }

    /// The machine's row with the least number above this one, if any. Where this number is below the machine's first
    /// or is one of a row of the machine, it is found at once; else by a walk over the rows between them.
    pub fn next_row_of(&self, machine: Ip4, above: u64) -> Option<Row>
        ensures { rows_of self.now.rows machine above ≡ onward self.now.rows machine result }
    {
        match self.links.next(machine, above) {
            Some(number) => row_with(&self.rows, number),
            None => self.rows.next_row_of(machine, above),
        }
    }

    /// The row on this range.
    pub fn row_on(&self, r: Range) -> Option<Row>
        ensures { result ≡ row_on self.now.rows r }
    {
        match self.numbers.get(&r) {
            Some(n) => self.rows.row_at(*n),
            None => None,
        }
    }

    /// Whether a row is on this range.
    pub fn has_row(&self, r: Range) -> bool
        ensures { not result ≡ has_no_row self.now.rows r }
    {
        self.numbers.contains_key(&r)
    }

    /// How many rows the machine has, in any phase.
    pub fn count(&self, machine: Ip4) -> u32
        ensures { result ≡ row_count self.now.rows machine }
    {
        count_of(&self.counts, machine)
    }

    /// Makes room for so many more rows.
    pub fn reserve(&mut self, more: usize) -> Result<(), NoMemory>
        ensures rows { self.new.rows ≡ self.old.rows }
        ensures next { self.new.next ≡ self.old.next }
        ensures room { OnOk result (more ≤ self.new.room) }
    {
        self.rows.reserve(more)?;
        self.numbers.reserve(more)?;
        self.counts.reserve(more)?;
        self.links.reserve(more)?;
        Ok(())
    }

    /// One more row, on a range without a row, whose number is above each number that there was.
    pub fn push(&mut self, row: Row)
        requires room { 0 < self.old.room }
        requires next { self.old.next ≤ row.n }
        requires free { has_no_row self.old.rows row.range ≡ true }
        requires few { row_count self.old.rows row.machine < 2 ^ 32 - 1 }
        ensures rows { self.new.rows ≡ self.old.rows ++ row ∷ [] }
        ensures next { self.new.next ≡ row.n + 1 }
        ensures room { self.old.room ≤ self.new.room + 1 }
    {
        count_up(&mut self.counts, row.machine);
        put_number(&mut self.numbers, row.range, row.n);
        self.links.push(row.n, row.machine);
        self.rows.push(row);
    }

    /// The row with this number goes to a phase.
    pub fn set_phase(&mut self, n: u64, phase: Phase)
        ensures rows { self.new.rows ≡ move n phase self.old.rows }
        ensures next { self.new.next ≡ self.old.next }
        ensures room { self.new.room ≡ self.old.room }
    {
        self.rows.set_phase(n, phase);
    }

    /// A row leaves. Its range has no row then.
    pub fn remove(&mut self, row: &Row)
        requires { row_at self.old.rows row.now.n ≡ Some row.now }
        ensures rows { self.new.rows ≡ filter (λ other. not (other.n == row.now.n)) self.old.rows }
        ensures free { (r : Range) → has_no_row self.new.rows r
            ≡ (same_range row.now.range r || has_no_row self.old.rows r) }
        ensures next { self.new.next ≤ self.old.next }
        ensures room { self.old.room ≤ self.new.room }
    {
        count_down(&mut self.counts, row.machine);
        drop_number(&mut self.numbers, row.range);
        self.links.remove(row.n);
        self.rows.remove(row.n);
    }

    /// Ends the agent's rows of lower boots, and tells of each in the order of their numbers.
    pub fn clear_lower(&mut self, agent: u16, boot: u64, effects: &mut Effects)
        requires { length (boot_effects agent boot self.old.rows) ≤ effects.old.room }
        ensures rows { self.new.rows ≡ map (cleared agent boot) self.old.rows }
        ensures effects { Adds effects.old effects.new (boot_effects agent boot self.old.rows) }
        ensures next { self.new.next ≡ self.old.next }
        ensures room { self.old.room ≤ self.new.room }
    {
        self.rows.clear_lower(agent, boot, effects);
    }
}
