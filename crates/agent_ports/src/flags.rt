ghost use Rattle.std.specs.Prelude.{◌≡◌, Bool, length, map, IfOk, OnOk};
ghost use Rattle.wire_core.specs.declared.address.Ip4 as ip;
ghost use Rattle.agent_spec.specs.Ranges.{is_unused};
ghost use Rattle.agent_ports.specs.Flags.{flagged, unflagged};
ghost use Rattle.agent_ports.specs.Ports.{Answers, is_spare, numbers};

use agent_spec::Held;
use std::alloc::Global;
use wire_core::{Ip4, NoMemory};

/// Whether the range had no connection for so long.
fn is_unused(h: &Held, now: u64, idle: u64) -> bool
    ensures { result ≡ is_unused now idle h.now }
{
    h.count == 0 && now.saturating_sub(h.idle) >= idle
}

/// Whether it may be given back.
fn is_spare<F: Fn(Ip4) -> bool>(h: &Held, now: u64, idle: u64, busy: &F) -> bool
    requires { F.IsAlwaysCallable busy.now }
    ensures { (test : ip.Ip4 → Bool) → Answers (F.post busy.now) test → result ≡ is_spare test now idle h.now }
{
    is_unused(h, now, idle) && !busy(h.machine)
}

/// A flag for each range, set where it may be given back.
pub fn spare_flags<F: Fn(Ip4) -> bool>(
    alloc: Global,
    held: &[Held],
    now: u64,
    idle: u64,
    busy: &F,
) -> Result<Vec<bool>, NoMemory>
    requires { F.IsAlwaysCallable busy.now }
    ensures len { IfOk result (λ flags. length flags.items ≡ length held.now) }
    ensures flags { (test : ip.Ip4 → Bool) → Answers (F.post busy.now) test
        → IfOk result (λ flags. flags.items ≡ map (is_spare test now idle) held.now) }
{
    let mut flags = Vec::new(alloc);
    for h in held {
        flags.push(is_spare(h, now, idle, busy))?;
    }
    Ok(flags)
}

/// The numbers of the ranges with a flag.
pub fn flagged_numbers(alloc: Global, held: &[Held], flags: &[bool]) -> Result<Vec<u64>, NoMemory>
    requires { length flags.now ≡ length held.now }
    ensures { IfOk result (λ given. given.items ≡ numbers (flagged flags.now held.now)) }
{
    let mut given = Vec::new(alloc);
    for i in 0..held.len() {
        if flags[i] {
            given.push(held[i].n)?;
        }
    }
    Ok(given)
}

/// The ranges without a flag.
pub fn unflagged(alloc: Global, held: &[Held], flags: &[bool]) -> Result<Vec<Held>, NoMemory>
    requires { length flags.now ≡ length held.now }
    ensures { IfOk result (λ stay. stay.items ≡ unflagged flags.now held.now) }
{
    let mut stay = Vec::new(alloc);
    for i in 0..held.len() {
        if !flags[i] {
            stay.push(held[i])?;
        }
    }
    Ok(stay)
}
