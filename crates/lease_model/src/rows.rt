// The rows of a book, in the order in which they were reserved. Each look-up looks at each row.
ghost use Rattle.std.specs.Prelude.{◌≡◌, ◌≤◌, map, filter};
ghost use Rattle.lease_model.specs.Rows.{at_phase, count_of, first_of, moved, row_at, row_of, rule_of, without};

use crate::row::BookRow;
use lease_spec::Phase;
use wire_core::{Ip4, MachineRule, Range};

/// Row `n`.
pub fn row_at(rows: &[BookRow], n: u64) -> Option<BookRow>
    ensures { result ≡ row_at rows.now n }
{
    rows.iter().copied().find(|row| row.n == n)
}

/// The row of a range.
pub fn row_of(rows: &[BookRow], r: Range) -> Option<BookRow>
    ensures { result ≡ row_of rows.now r }
{
    rows.iter().copied().find(|row| row.range == r)
}

/// The first row of a machine.
pub fn first_of(rows: &[BookRow], machine: Ip4) -> Option<BookRow>
    ensures { result ≡ first_of rows.now machine }
{
    rows.iter().copied().find(|row| row.machine == machine)
}

/// How many rows a machine has.
pub fn count_of(rows: &[BookRow], machine: Ip4) -> usize
    ensures { result ≡ count_of rows.now machine }
{
    rows.iter().filter(|row| row.machine == machine).count()
}

/// The rule of a machine.
pub fn rule_of(machines: &[MachineRule], machine: Ip4) -> Option<MachineRule>
    ensures { result ≡ rule_of machines.now machine }
{
    machines
        .iter()
        .copied()
        .find(|rule| rule.machine == machine)
}

fn at_phase(n: u64, phase: Phase, row: BookRow) -> BookRow
    ensures { result ≡ at_phase n phase row }
{
    if row.n == n {
        BookRow { phase, ..row }
    } else {
        row
    }
}

/// Row `n` goes to another phase.
pub fn move_row(rows: &mut [BookRow], n: u64, phase: Phase)
    ensures { rows.new ≡ moved n phase rows.old }
{
    for row in rows.iter_mut() {
        *row = at_phase(n, phase, *row);
    }
}

/// Row `n` leaves.
pub fn remove_row(rows: &mut Vec<BookRow>, n: u64)
    ensures { rows.new.items ≡ without n rows.old.items }
{
    rows.retain(|row| row.n != n);
}
