ghost use Rattle.std.specs.Prelude.{◌≡◌, ◌<◌, ◌≤◌, Some, if◌then◌else◌, OnOk, OnErr};
ghost use Rattle.indexmap.specs.IndexMap.{get, spare};
ghost use Rattle.wire_core.specs.declared.flow.FlowKey.{FlowKey as Key};
ghost use Rattle.plain_schedule.specs.declared.full_leases.RemoteEnd.{RemoteEnd as End};
ghost use Rattle.plain_schedule.specs.FullLeases.{end_of, same_end, up_to};

use indexmap::IndexMap;
use std::alloc::Global;
use wire_core::{FlowKey, Ip4, NoMemory, Proto};

/// A remote end, for the packets of one machine.
#[derive(Clone, Copy, Debug, PartialEq, Eq, Hash)]
pub struct RemoteEnd {
    pub machine: Ip4,
    pub address: Ip4,
    pub port: u16,
    pub proto: Proto,
}

impl RemoteEnd {
    /// Where the packets with this key go.
    pub fn of(key: &FlowKey) -> RemoteEnd
        ensures { result ≡ end_of key.now }
    {
        RemoteEnd {
            machine: key.src,
            address: key.dst,
            port: key.dport,
            proto: key.proto,
        }
    }
}

/// Leases that carry a connection on each of their ports to a remote end. They stay so until they end, and later leases
/// have higher numbers, so the number up to which a machine's leases are full only rises.
#[derive(Drop)]
pub struct FullLeases {
    pub up_to: IndexMap<RemoteEnd, u64>,
    /// Of a full lease the full one before it: where a lease has ended, its number goes back to one that stands, from
    /// which the table finds the next lease at once.
    before: IndexMap<u64, u64>,
}

/// The machine's leases up to this number are full.
fn put(map: &mut IndexMap<RemoteEnd, u64>, end: RemoteEnd, n: u64)
    requires { 0 < spare map.old }
    ensures { (e : End) → get same_end map.new e ≡ (if same_end end e then Some n else get same_end map.old e) }
{
    map.insert(end, n).unwrap();
}

/// One full lease comes after another one, or after none.
fn put_before(map: &mut IndexMap<u64, u64>, n: u64, before: u64)
    requires { 0 < spare map.old }
{
    map.insert(n, before).unwrap();
}

impl FullLeases {
    /// No lease is known to be full.
    pub fn new(alloc: Global) -> FullLeases
        ensures { (e : End) → up_to result e ≡ 0 }
    {
        FullLeases {
            up_to: IndexMap::new(alloc),
            before: IndexMap::new(alloc),
        }
    }

    /// The number up to which the machine's leases are known to be full; 0 for none.
    pub fn up_to(&self, end: RemoteEnd) -> u64
        ensures { result ≡ up_to self.now end }
    {
        match self.up_to.get(&end) {
            Some(n) => *n,
            None => 0,
        }
    }

    /// A number below this one: that of the machine's full lease before this one, or 0 for none.
    pub fn before(&self, n: u64) -> u64
        requires { 0 < n }
        ensures { result < n }
    {
        match self.before.get(&n) {
            Some(before) if *before < n => *before,
            _ => 0,
        }
    }

    /// The machine's leases up to this number are full for the remote end, and `from` was the last one known to be
    /// full. Without memory nothing changes.
    pub fn set(&mut self, end: RemoteEnd, from: u64, n: u64) -> Result<(), NoMemory>
        ensures ok { OnOk result ((e : End) → up_to self.new e ≡ (if same_end end e then n else up_to self.old e)) }
        ensures err { OnErr result ((e : End) → up_to self.new e ≡ up_to self.old e) }
    {
        self.up_to.reserve(1)?;
        self.before.reserve(1)?;
        put(&mut self.up_to, end, n);
        if from < n {
            put_before(&mut self.before, n, from);
        }
        Ok(())
    }
}
