ghost use Rattle.std.specs.Prelude.{◌≡◌, ◌<◌, ◌≤◌, ◌+◌, ◌||◌, ◌&&◌, ◌==◌, nat_lt, option_map};
ghost use Rattle.indexmap.specs.IndexMap.{spare};
ghost use Rattle.lease_spec.specs.Table.{is_later, known_boot, last_of, with_known, with_last};
ghost use Rattle.port_leases.specs.Store.{known_of, lasts_of};
ghost use Rattle.port_leases.specs.Requests.{last_with};

use indexmap::IndexMap;
use lease_spec::Outcome;
use wire_core::Ip4;

/// A machine's last request that had an effect, and what it came to.
#[derive(Clone, Copy, Debug, PartialEq, Eq)]
pub struct Request {
    pub boot: u64,
    pub seq: u64,
    pub outcome: Outcome,
}

impl Request {
    /// Whether a request of this boot and seq comes later. Pairs compare by boot, then seq.
    fn is_before(self, boot: u64, seq: u64) -> bool
        ensures { result ≡ (nat_lt self.boot boot || ((self.boot == boot) && nat_lt self.seq seq)) }
    {
        self.boot < boot || (self.boot == boot && self.seq < seq)
    }
}

/// The agent's known boot, at first 0.
pub fn known_boot(known: &IndexMap<u16, u64>, agent: u16) -> u64
    ensures { result ≡ known_boot (known_of known.now.entries) agent }
{
    match known.get(&agent) {
        Some(boot) => *boot,
        None => 0,
    }
}

/// The agent's boot is known from now on.
pub fn put_known(known: &mut IndexMap<u16, u64>, agent: u16, boot: u64)
    requires { 0 < spare known.old }
    ensures known { known_of known.new.entries ≡ with_known agent boot (known_of known.old.entries) }
    ensures room { spare known.old ≤ spare known.new + 1 }
{
    known.insert(agent, boot).unwrap();
}

/// The machine's last request.
pub fn last_of(lasts: &IndexMap<Ip4, Request>, machine: Ip4) -> Option<Request>
    ensures { option_map (last_with machine) result ≡ last_of (lasts_of lasts.now.entries) machine }
{
    lasts.get(&machine).copied()
}

/// Whether a request of this boot and seq comes later than the machine's last one.
pub fn is_later(lasts: &IndexMap<Ip4, Request>, machine: Ip4, boot: u64, seq: u64) -> bool
    ensures { result ≡ is_later boot seq (last_of (lasts_of lasts.now.entries) machine) }
{
    match last_of(lasts, machine) {
        Some(last) => last.is_before(boot, seq),
        None => true,
    }
}

/// The machine's last request from now on.
pub fn put_last(lasts: &mut IndexMap<Ip4, Request>, machine: Ip4, last: Request)
    requires { 0 < spare lasts.old }
    ensures lasts { lasts_of lasts.new.entries ≡ with_last (last_with machine last) (lasts_of lasts.old.entries) }
    ensures room { spare lasts.old ≤ spare lasts.new + 1 }
{
    lasts.insert(machine, last).unwrap();
}
