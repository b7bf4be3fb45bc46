ghost use Rattle.std.specs.Prelude.{◌≡◌, ◌≤◌, ◌<◌, true, length, map, drop};
ghost use Rattle.agent_spec.specs.Ranges.{first_unused, places};
ghost use Rattle.agent_ports.specs.Full.{FrontFull, IsFull, carries, is_taken};
ghost use Rattle.agent_ports.specs.Leases.{lease_number, lease_ports, port_at};
ghost use Rattle.agent_ports.specs.Order.{Ascend, SplitsAt};

use crate::lease::Lease;
use crate::remote_end::RemoteEnd;
use agent_flows::Flows;

/// Whether the i-th port carries a connection of the machine in this range to the remote end.
fn carries(flows: &Flows, end: &RemoteEnd, lease: &Lease, i: u16) -> bool
    ensures { result ≡ carries flows.now end.now lease.now i }
{
    match flows.find_public(&end.public_at(lease.port(i).1)) {
        Some(c) => c.n == lease.n && c.machine == end.machine,
        None => false,
    }
}

/// Whether all eight do. The last first, since ports are taken in their order.
fn is_full(flows: &Flows, end: &RemoteEnd, lease: &Lease) -> bool
    ensures { result ≡ true → IsFull flows.now end.now lease.now }
{
    for i in 0..8 {
        if !carries(flows, end, lease, 7 - i) {
            return false;
        }
    }
    true
}

/// The first of the leases whose number isn't below this one.
pub fn first_from(leases: &[Lease], below: u64) -> usize
    requires { Ascend lease_number leases.now }
    ensures { SplitsAt lease_number below leases.now result }
{
    leases.partition_point(|l| l.n < below)
}

/// Up to where the leases are full, those before a place being so.
pub fn full_to(flows: &Flows, end: &RemoteEnd, leases: &[Lease], from: usize) -> usize
    requires within { from ≤ length leases.now }
    requires full { FrontFull flows.now end.now leases.now from }
    ensures within { result ≤ length leases.now }
    ensures full { FrontFull flows.now end.now leases.now result }
{
    let mut to = from;
    while to < leases.len() && is_full(flows, end, &leases[to]) {
        to += 1;
    }
    to
}

/// The first port of a lease from which nothing goes to the remote end.
fn free_in(flows: &Flows, end: &RemoteEnd, lease: &Lease) -> Option<(u64, u16)>
    ensures { result ≡ first_unused (is_taken flows.now end.now) (map (port_at lease.now) places) }
{
    for i in 0..8 {
        let port = lease.port(i);
        if flows.find_public(&end.public_at(port.1)).is_none() {
            return Some(port);
        }
    }
    None
}

/// The first port over the leases from which nothing goes to the remote end.
pub fn first_free(flows: &Flows, end: &RemoteEnd, leases: &[Lease]) -> Option<(u64, u16)>
    ensures { result ≡ first_unused (is_taken flows.now end.now) (lease_ports leases.now) }
{
    for lease in leases {
        let found = free_in(flows, end, lease);
        if found.is_some() {
            return found;
        }
    }
    None
}
