ghost use Rattle.std.specs.Prelude.{◌≡◌, ◌≤◌, ◌+◌, ◌==◌, ◌&&◌, nat_lt, find, map, if◌then◌else◌};
ghost use Rattle.lease_spec.specs.Table.{at_phase, cleared, is_stale, row_at};
ghost use Rattle.lease_rows.specs.Entries.{Ascend, IsPlace, SplitsAt, at_number, dead, live_rows, row_of, with_row};
ghost use Rattle.lease_rows.specs.Walks.{in_phase, row_above};

use crate::blocks::Blocks;
use lease_spec::{Phase, Row};
use wire_core::Ip4;

/// A row, and whether it still stands. A row that left keeps its number, so that the numbers stay in order.
#[derive(Clone, Copy, Debug, PartialEq, Eq)]
pub struct Entry {
    pub row: Row,
    pub live: bool,
}

/// Whether a raised boot of the agent ends the row.
pub fn is_stale(row: Row, agent: u16, boot: u64) -> bool
    ensures { result ≡ is_stale agent boot row }
{
    row.agent == agent && row.boot < boot && row.phase != Phase::Freeing
}

impl Entry {
    fn live_row(self) -> Option<Row>
        ensures { result ≡ (if self.live then Some self.row else None) }
    {
        if self.live { Some(self.row) } else { None }
    }

    fn at_phase(self, phase: Phase) -> Entry
        ensures { result ≡ with_row (at_phase phase) self }
    {
        Entry {
            row: Row { phase, ..self.row },
            live: self.live,
        }
    }

    /// Its row is Freeing where it is of a lower boot of the agent.
    pub fn cleared(self, agent: u16, boot: u64) -> Entry
        ensures { result ≡ with_row (cleared agent boot) self }
    {
        if is_stale(self.row, agent, boot) {
            self.at_phase(Phase::Freeing)
        } else {
            self
        }
    }

    fn dead(self) -> Entry
        ensures { result ≡ dead self }
    {
        Entry {
            row: self.row,
            live: false,
        }
    }
}

/// The index of the first entry whose number isn't below `n`, or the number of entries.
fn split_point(entries: &[Entry], n: u64) -> usize
    requires { Ascend entries.now }
    ensures { SplitsAt n entries.now result }
{
    entries.partition_point(|e| e.row.n < n)
}

/// The index of the first entry whose number is above `n`, or the number of entries.
fn split_after(entries: &[Entry], n: u64) -> usize
    requires { Ascend entries.now }
    ensures { SplitsAt (n + 1) entries.now result }
{
    entries.partition_point(|e| e.row.n <= n)
}

/// The index of the entry with this number.
fn place_of(entries: &[Entry], n: u64) -> Option<usize>
    requires { Ascend entries.now }
    ensures { IsPlace n entries.now result }
{
    let i = split_point(entries, n);
    if i < entries.len() && entries[i].row.n == n {
        Some(i)
    } else {
        None
    }
}

/// The row with this number.
pub fn row_at(entries: &[Entry], n: u64) -> Option<Row>
    requires { Ascend entries.now }
    ensures { result ≡ row_at (live_rows entries.now) n }
{
    match place_of(entries, n) {
        Some(i) => entries[i].live_row(),
        None => None,
    }
}

/// The first live entry.
fn first_live(entries: &[Entry]) -> Option<Entry>
    ensures { result ≡ find (λ e. e.live) entries.now }
{
    entries.iter().copied().find(|e| e.live)
}

fn row_of(entry: Option<Entry>) -> Option<Row>
    ensures { result ≡ row_of entry }
{
    match entry {
        Some(e) => Some(e.row),
        None => None,
    }
}

/// The row with the least number above this one.
pub fn row_above(entries: &[Entry], n: u64) -> Option<Row>
    requires { Ascend entries.now }
    ensures { result ≡ row_above (live_rows entries.now) n }
{
    let i = split_after(entries, n);
    let (_, after) = entries.split_at(i);
    row_of(first_live(after))
}

/// The first live entry of the machine.
fn first_live_of(entries: &[Entry], machine: Ip4) -> Option<Entry>
    ensures { result ≡ find (λ e. e.live && (e.row.machine.0 == machine.0)) entries.now }
{
    entries
        .iter()
        .copied()
        .find(|e| e.live && e.row.machine == machine)
}

/// The machine's row with the least number above this one. Costs a walk over the rows between them.
pub fn next_row_of(entries: &[Entry], machine: Ip4, above: u64) -> Option<Row>
    requires { Ascend entries.now }
    ensures { result ≡ find (λ row. nat_lt above row.n && (row.machine.0 == machine.0)) (live_rows entries.now) }
{
    let i = split_after(entries, above);
    let (_, after) = entries.split_at(i);
    row_of(first_live_of(after, machine))
}

/// The row in this phase with the least number above this one.
pub fn next_in(entries: &Blocks, phase: Phase, above: u64) -> Option<Row>
    requires { Ascend entries.now.items }
    ensures { result ≡ find (λ row. nat_lt above row.n && in_phase phase row) (live_rows entries.now.items) }
{
    let i = split_after(entries.as_slice(), above);
    row_of(entries.first_in(i, phase))
}

/// The row with this number goes to a phase.
pub fn set_phase(entries: &mut Blocks, n: u64, phase: Phase)
    requires { Ascend entries.old.items }
    ensures entries { entries.new.items ≡ map (at_number n (with_row (at_phase phase))) entries.old.items }
    ensures room { entries.new.room ≡ entries.old.room }
{
    if let Some(i) = place_of(entries.as_slice(), n) {
        let entry = entries.as_slice()[i].at_phase(phase);
        entries.put(i, entry);
    }
}

/// The row with this number leaves.
pub fn bury(entries: &mut Blocks, n: u64)
    requires { Ascend entries.old.items }
    ensures entries { entries.new.items ≡ map (at_number n dead) entries.old.items }
    ensures room { entries.new.room ≡ entries.old.room }
{
    if let Some(i) = place_of(entries.as_slice(), n) {
        let entry = entries.as_slice()[i].dead();
        entries.put(i, entry);
    }
}
