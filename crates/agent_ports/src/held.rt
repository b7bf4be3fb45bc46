ghost use Rattle.std.specs.Prelude.{◌≡◌, map};
ghost use Rattle.agent_spec.specs.Ranges.{at_number, clashes, place_for};
ghost use Rattle.agent_ports.specs.Order.{Ascend, IsPlace, SplitsAt};
ghost use Rattle.agent_ports.specs.Leases.{counted_by, held_number};

use crate::count::Count;
use agent_spec::Held;
use wire_core::Range;

/// Whether a range with this number or these ports is held. Walks.
pub fn clashes(held: &[Held], n: u64, r: &Range) -> bool
    ensures { result ≡ clashes held.now n r.now }
{
    held.iter().any(|h| h.n == n || h.range == *r)
}

/// The place of the first range whose number isn't below `n`, or the number of ranges.
fn split_point(held: &[Held], n: u64) -> usize
    requires { Ascend held_number held.now }
    ensures { SplitsAt held_number n held.now result }
{
    held.partition_point(|h| h.n < n)
}

/// The place of a new number.
pub fn place_for(held: &[Held], n: u64) -> usize
    requires { Ascend held_number held.now }
    ensures place { result ≡ place_for n held.now }
    ensures split { SplitsAt held_number n held.now result }
{
    split_point(held, n)
}

/// The place of the range with this number.
pub fn place_of(held: &[Held], n: u64) -> Option<usize>
    requires { Ascend held_number held.now }
    ensures { IsPlace held_number n held.now result }
{
    let i = split_point(held, n);
    if i < held.len() && held[i].n == n {
        Some(i)
    } else {
        None
    }
}

/// Counts in the range with this number, if one has it.
pub fn count(held: &mut Vec<Held>, n: u64, count: Count)
    requires { Ascend held_number held.old.items }
    ensures { held.new.items ≡ map (at_number n (counted_by count)) held.old.items }
{
    if let Some(i) = place_of(held, n) {
        let counted = count.counted(&held[i]);
        held[i] = counted;
    }
}
