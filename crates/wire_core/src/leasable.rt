// The leasable ranges of a VIP, each endpoint's port looked at once.
ghost use Rattle.std.specs.Prelude.{◌≡◌, ◌||◌, ◌&&◌, not, nat_le, ℕ, ◌+◌, ◌*◌, ◌/◌, ◌<◌, ◌≤◌, false, length, slice_index_or};
ghost use Rattle.std.specs.List.{list_any};
ghost use Rattle.wire_core.specs.Ranges.{allows, count_starts, has_port, is_leasable, leasable_count, range_at};

use crate::address::Ip4;
use crate::rules::{LeaseRules, VipRule};

/// How many multiples of 8 there are among the ports.
const STARTS: usize = 8192;

/// Marks the range in which the port lies, if there is a flag for it.
fn mark_port(flags: &mut [bool], port: u16)
    ensures len { length flags.new ≡ length flags.old }
    ensures each { (i : ℕ) → i < length flags.old
        → slice_index_or flags.new i false ≡ (slice_index_or flags.old i false || has_port (8 * i) port) }
{
    let i = usize::from(port / 8);
    if i < flags.len() {
        flags[i] = true;
    }
}

/// Marks the ranges in which one of the ports lies.
fn mark_ports(flags: &mut [bool], ports: &[u16])
    ensures len { length flags.new ≡ length flags.old }
    ensures each { (i : ℕ) → i < length flags.old
        → slice_index_or flags.new i false
        ≡ (slice_index_or flags.old i false || list_any (has_port (8 * i)) ports.now) }
{
    for port in ports {
        mark_port(flags, *port);
    }
}

/// Marks the ranges with all eight ports from `low` to `high` that aren't marked as taken.
fn mark_within(flags: &mut [bool], taken: &[bool], low: u16, high: u16)
    requires few { length flags.old ≤ 8192 }
    requires taken { length flags.old ≤ length taken.now }
    ensures len { length flags.new ≡ length flags.old }
    ensures each { (i : ℕ) → i < length flags.old
        → slice_index_or flags.new i false
        ≡ (slice_index_or flags.old i false
        || (nat_le low (8 * i) && nat_le (8 * i + 7) high && not (slice_index_or taken.now i false))) }
{
    for i in 0..flags.len() {
        let start = 8 * i;
        if usize::from(low) <= start && start + 7 <= usize::from(high) && !taken[i] {
            flags[i] = true;
        }
    }
}

/// How many ranges are marked.
#[tactic(auto, unfolding(crate::specs::Ranges::count_starts))]
fn count_marked(flags: &[bool]) -> u32
    requires { length flags.now ≤ 8192 }
    ensures { result ≡ count_starts (λ start. slice_index_or flags.now (start / 8) false) (length flags.now) }
{
    let mut count = 0u32;
    for i in 0..flags.len() {
        if flags[i] {
            count += 1;
        }
    }
    count
}

impl VipRule {
    /// Marks the ranges that the rule allows.
    fn mark_allowed(&self, flags: &mut [bool])
        requires { length flags.old ≤ 8192 }
        ensures len { length flags.new ≡ length flags.old }
        ensures each { (i : ℕ) → i < length flags.old
            → slice_index_or flags.new i false ≡ (slice_index_or flags.old i false || allows self.now (8 * i)) }
    {
        let mut taken = [false; STARTS];
        mark_ports(&mut taken, self.taken.as_slice());
        mark_within(flags, &taken, self.low, self.high);
    }
}

impl LeaseRules {
    /// Marks the ranges of the VIP that may be leased: the flag at `i` is for the range that starts at port `8 * i`.
    /// A flag that is set stays. Looks once at each VIP, at each flag, and at each port of the VIP's endpoints.
    pub fn mark_leasable(&self, vip: Ip4, flags: &mut [bool])
        requires { length flags.old ≤ 8192 }
        ensures len { length flags.new ≡ length flags.old }
        ensures each { (i : ℕ) → i < length flags.old
            → slice_index_or flags.new i false
            ≡ (slice_index_or flags.old i false || is_leasable self.now (range_at vip (8 * i))) }
    {
        for rule in self.vips.as_slice() {
            if rule.vip == vip {
                rule.mark_allowed(flags);
            }
        }
    }

    /// How many ranges of the VIP may be leased. Looks once at each VIP, at each of the 8,192 starts, and at each
    /// port of the VIP's endpoints.
    pub fn count(&self, vip: Ip4) -> u32
        ensures { result ≡ leasable_count self.now vip }
    {
        let mut leasable = [false; STARTS];
        self.mark_leasable(vip, &mut leasable);
        count_marked(&leasable)
    }
}
