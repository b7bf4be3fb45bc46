ghost use Rattle.std.specs.Prelude.{◌≡◌};
ghost use Rattle.std.specs.List.{list_any};
ghost use Rattle.wire_core.specs.Ranges.{allows, has_port, is_leasable};

use crate::address::Ip4;
use crate::items::Items;
use crate::range::Range;

pub type PortList = Items<u16>;

pub type VipRuleList = Items<VipRule>;

pub type MachineRuleList = Items<MachineRule>;

/// The ports of a VIP from `low` to `high`, both included, less the ranges in which its endpoints have a port.
#[derive(Debug, Drop)]
pub struct VipRule {
    pub vip: Ip4,
    pub low: u16,
    pub high: u16,
    /// The ports of the VIP's endpoints.
    pub taken: PortList,
}

/// A machine, the number of its agent, and the VIP that its connections leave from.
#[derive(Clone, Copy, Debug, PartialEq, Eq)]
pub struct MachineRule {
    pub machine: Ip4,
    pub agent: u16,
    pub vip: Ip4,
}

/// Who may lease what. Each VIP is named once, and each machine once.
#[derive(Debug, Drop)]
pub struct LeaseRules {
    pub vips: VipRuleList,
    pub machines: MachineRuleList,
    /// The most rows that a machine may have.
    pub limit: u32,
}

/// Whether the range with this start has the port.
fn has_port(start: u16, port: u16) -> bool
    ensures { result ≡ has_port start port }
{
    start <= port && u32::from(port) <= u32::from(start) + 7
}

impl VipRule {
    fn is_taken(&self, start: u16) -> bool
        ensures { result ≡ list_any (has_port start) self.now.taken }
    {
        self.taken
            .as_slice()
            .iter()
            .any(|port| has_port(start, *port))
    }

    /// Whether the range with this start may be leased. Looks at each endpoint's port.
    pub fn allows(&self, start: u16) -> bool
        ensures { result ≡ allows self.now start }
    {
        start % 8 == 0
            && self.low <= start
            && u32::from(start) + 7 <= u32::from(self.high)
            && !self.is_taken(start)
    }
}

impl LeaseRules {
    /// Whether the range may be leased: its VIP has a rule, the start is a multiple of 8, all eight ports lie from
    /// `low` to `high`, and none of them is an endpoint's. Looks at each VIP.
    pub fn leasable(&self, r: &Range) -> bool
        ensures { result ≡ is_leasable self.now r.now }
    {
        self.vips
            .as_slice()
            .iter()
            .any(|rule| rule.vip == r.vip && rule.allows(r.start))
    }
}
