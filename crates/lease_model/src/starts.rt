// The least range of a VIP that has no row.
ghost use Rattle.std.specs.Prelude.{◌≡◌, not};
ghost use Rattle.std.specs.List.{list_any};
ghost use Rattle.wire_core.specs.Same.{same_range};
ghost use Rattle.lease_model.specs.Rows.{is_free, is_least, is_least_by, is_start, least_start};

use crate::row::BookRow;
use crate::rows::rule_of;
use wire_core::{Ip4, LeaseRules, MachineRule, Range};

/// How many multiples of 8 there are among the ports.
const STARTS: u32 = 8192;

fn has_row(rows: &[BookRow], r: Range) -> bool
    ensures { result ≡ list_any (λ row. same_range row.range r) rows.now }
{
    rows.iter().any(|row| row.range == r)
}

fn is_free(rules: &LeaseRules, rows: &[BookRow], vip: Ip4, start: u16) -> bool
    ensures { result ≡ is_free rules.now rows.now vip start }
{
    let r = Range { vip, start };
    rules.leasable(&r) && !has_row(rows, r)
}

/// The least start of a range of the VIP that may be leased and has no row. Looks at the starts up to it, and at each
/// row for each of them.
#[tactic(auto, unfolding(crate::specs::Rows::least_start))]
fn least_start(rules: &LeaseRules, rows: &[BookRow], vip: Ip4) -> Option<u16>
    ensures { result ≡ least_start rules.now rows.now vip }
{
    let mut left = STARTS;
    let mut start = 0u32;
    while left > 0 {
        if is_free(rules, rows, vip, start as u16) {
            return Some(start as u16);
        }
        left -= 1;
        start += 8;
    }
    None
}

fn is_start(start: u16, least: Option<u16>) -> bool
    ensures { result ≡ is_start start least }
{
    match least {
        None => false,
        Some(least) => least == start,
    }
}

fn is_least_by(rules: &LeaseRules, rows: &[BookRow], r: Range, rule: Option<MachineRule>) -> bool
    ensures { result ≡ is_least_by rules.now rows.now r rule }
{
    match rule {
        None => false,
        Some(rule) => rule.vip == r.vip && is_start(r.start, least_start(rules, rows, r.vip)),
    }
}

/// Whether the range is the least of the machine's VIP that may be leased and has no row.
#[tactic(auto, unfolding(crate::specs::Rows::is_least))]
pub fn is_least(rules: &LeaseRules, rows: &[BookRow], r: Range, machine: Ip4) -> bool
    ensures { result ≡ is_least rules.now rows.now r machine }
{
    is_least_by(rules, rows, r, rule_of(rules.machines.as_slice(), machine))
}
