ghost use Rattle.std.specs.Prelude.{◌≡◌, ◌≤◌, map, sum, length};
ghost use Rattle.wire_core.specs.Ranges.{leasable_count};

use crate::parts::VipConf;
use wire_core::LeaseRules;

/// How many of each there are. Machines are counted over all agents.
#[derive(Clone, Copy, Debug, PartialEq, Eq)]
pub struct Counts {
    pub muxes: u64,
    pub agents: u64,
    pub machines: u64,
    pub vips: u64,
}

/// How many ranges may be leased over these VIPs.
pub fn count_ranges(rules: &LeaseRules, vips: &[VipConf]) -> u64
    requires { length vips.now ≤ 64 }
    ensures { result ≡ sum (map (λ vip. leasable_count rules.now vip.address) vips.now) }
{
    let mut total = 0;
    for vip in vips {
        total += u64::from(rules.count(vip.address));
    }
    total
}
