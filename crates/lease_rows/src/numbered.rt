ghost use Rattle.std.specs.Prelude.{◌≡◌, ◌<◌, ◌≤◌, ◌+◌, ◌^◌, ◌++◌, ◌∷◌, [], not, ◌==◌, map, filter, length, IsSome, OnOk};
ghost use Rattle.lease_spec.specs.Table.{cleared, move, row_at};
ghost use Rattle.lease_rows.specs.Entries.{InOrder, RowsAscend};
ghost use Rattle.lease_rows.specs.Effects.{Adds, boot_effects};
ghost use Rattle.lease_rows.specs.Walks.{onward, onward_all, onward_in, row_above, rows_above, rows_in, rows_of};

use crate::blocks::Blocks;
use crate::effects::{Effects, tell_cleared};
use crate::entries::{self, Entry};
use lease_spec::{Phase, Row};
use std::alloc::Global;
use std::marker::Model;
use wire_core::{Ip4, NoMemory};

/// Rows that are found by number. A row that left keeps its place until half of the places are without a row.
#[derive(Debug, Drop)]
pub struct NumberedRows {
    /// Numbers ascend.
    entries: Blocks,
    /// How many entries are live.
    live: usize,
}

impl Model for NumberedRows {
    ghost use Rattle.lease_rows.specs.Entries.{IsCounted, Numbered, live_rows, next_number};

    ghost Value = { Numbered };

    ghost view = { λ t. record {
      rows = live_rows t.entries.items;
      next = next_number t.entries.items;
      room = t.entries.room;
    } };

    ghost invariant = { λ t. IsCounted t.entries.items t.live };
}

impl NumberedRows {
    /// No rows.
    pub fn new(alloc: Global) -> NumberedRows
        ensures rows { result.rows ≡ [] }
        ensures next { result.next ≡ 0 }
    {
        NumberedRows {
            entries: Blocks::new(alloc),
            live: 0,
        }
    }

    /// The number of rows.
    pub fn len(&self) -> usize
        ensures len { result ≡ length self.now.rows }
        ensures small { result < 2 ^ 63 }
        ensures order { InOrder self.now.rows self.now.next }
    {
        self.live
    }

    /// The row with this number.
    pub fn row_at(&self, n: u64) -> Option<Row>
        ensures row { result ≡ row_at self.now.rows n }
        ensures ascend { RowsAscend self.now.rows }
    {
        entries::row_at(self.entries.as_slice(), n)
    }

    /// The row with the least number above this one.
    pub fn row_above(&self, n: u64) -> Option<Row>
        ensures row { result ≡ row_above self.now.rows n }
        ensures walk { rows_above self.now.rows n ≡ onward_all self.now.rows result }
    {
        entries::row_above(self.entries.as_slice(), n)
    }

    /// The row in this phase with the least number above this one.
    pub fn next_in(&self, phase: Phase, above: u64) -> Option<Row>
        ensures { rows_in self.now.rows phase above ≡ onward_in self.now.rows phase result }
    {
        entries::next_in(&self.entries, phase, above)
    }

    /// The machine's row with the least number above this one, if any. Costs a walk over the rows between them.
    pub fn next_row_of(&self, machine: Ip4, above: u64) -> Option<Row>
        ensures { rows_of self.now.rows machine above ≡ onward self.now.rows machine result }
    {
        entries::next_row_of(self.entries.as_slice(), machine, above)
    }

    /// Makes room for so many more rows.
    pub fn reserve(&mut self, more: usize) -> Result<(), NoMemory>
        ensures rows { self.new.rows ≡ self.old.rows }
        ensures next { self.new.next ≡ self.old.next }
        ensures room { OnOk result (more ≤ self.new.room) }
    {
        self.entries.reserve(more)?;
        Ok(())
    }

    /// One more row, whose number is above each number that there was.
    pub fn push(&mut self, row: Row)
        requires room { 0 < self.old.room }
        requires next { self.old.next ≤ row.n }
        ensures rows { self.new.rows ≡ self.old.rows ++ row ∷ [] }
        ensures next { self.new.next ≡ row.n + 1 }
        ensures order { InOrder self.old.rows self.old.next }
        ensures room { self.old.room ≤ self.new.room + 1 }
    {
        self.entries.push(Entry { row, live: true });
        self.live += 1;
    }

    /// The row with this number goes to a phase.
    pub fn set_phase(&mut self, n: u64, phase: Phase)
        ensures rows { self.new.rows ≡ move n phase self.old.rows }
        ensures next { self.new.next ≡ self.old.next }
        ensures room { self.new.room ≡ self.old.room }
    {
        entries::set_phase(&mut self.entries, n, phase);
    }

    /// The row with this number leaves.
    pub fn remove(&mut self, n: u64)
        requires { IsSome (row_at self.old.rows n) }
        ensures rows { self.new.rows ≡ filter (λ row. not (row.n == n)) self.old.rows }
        ensures ascend { RowsAscend self.old.rows }
        ensures next { self.new.next ≤ self.old.next }
        ensures room { self.old.room ≤ self.new.room }
    {
        entries::bury(&mut self.entries, n);
        self.live -= 1;
        if self.live < self.entries.as_slice().len() / 2 {
            self.entries.compact();
        }
    }

    /// Ends the agent's rows of lower boots, and tells of each by its number's order.
    pub fn clear_lower(&mut self, agent: u16, boot: u64, effects: &mut Effects)
        requires { length (boot_effects agent boot self.old.rows) ≤ effects.old.room }
        ensures rows { self.new.rows ≡ map (cleared agent boot) self.old.rows }
        ensures effects { Adds effects.old effects.new (boot_effects agent boot self.old.rows) }
        ensures next { self.new.next ≡ self.old.next }
        ensures room { self.old.room ≤ self.new.room }
    {
        tell_cleared(self.entries.as_slice(), agent, boot, effects);
        self.entries.clear_lower(agent, boot);
    }
}
