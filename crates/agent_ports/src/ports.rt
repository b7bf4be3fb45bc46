ghost use Rattle.std.specs.Prelude.{◌≡◌, ◌≤◌, ◌<◌, ◌==◌, ◌||◌, Bool, nat_le, not, filter, find, map, length, slice_get, IfOk};
ghost use Rattle.std.specs.Prelude.{OnOk, OnErr};
ghost use Rattle.std.specs.List.{list_any};
ghost use Rattle.indexmap.specs.IndexMap.{insert_entry, spare};
ghost use Rattle.wire_core.specs.declared.address.Ip4 as ip;
ghost use Rattle.wire_core.specs.Same.{same_range};
ghost use Rattle.agent_spec.specs.Connections.{at_private, at_time, by_private, by_public, closed, is_idle, most};
ghost use Rattle.agent_spec.specs.Connections.{private_key, public_key, with_peer};
ghost use Rattle.agent_spec.specs.Packets.{is_used};
ghost use Rattle.agent_spec.specs.Ranges.{clashes, first_unused, granted, is_returning, kept_at, ports_of, returned};
ghost use Rattle.agent_flows.specs.Flows.{first_then};
ghost use Rattle.agent_ports.specs.declared.remote_end.RemoteEnd.{RemoteEnd as End};
ghost use Rattle.agent_ports.specs.Flags.{flagged};
ghost use Rattle.agent_ports.specs.Leases.{held_number};
ghost use Rattle.agent_ports.specs.Order.{Ascend};
ghost use Rattle.agent_ports.specs.Full.{IsKnown, IsTop, Keeps, Renumbers, below_of, end_of_connection};
ghost use Rattle.agent_ports.specs.Ports.{Answers, ends, given_back_each, is_spare, no_ports, numbers, opens};
ghost use Rattle.agent_ports.specs.Ports.{with_closed};

use crate::choice::{first_free, first_from, full_to};
use crate::count::Count;
use crate::flags::{flagged_numbers, spare_flags};
use crate::full::FullRanges;
use crate::held::clashes;
use crate::lease::Lease;
use crate::ranges::HeldRanges;
use crate::remote_end::RemoteEnd;
use agent_flows::{Flows, Opened, private_key};
use agent_spec::{Connection, Granting, Held};
use indexmap::IndexMap;
use std::alloc::Global;
use std::marker::Model;
use wire_core::{FlowKey, Ip4, Items, NoMemory, Range};

/// The ranges by number, the greatest number that was held of each range, the numbers that are given back, the
/// connections, and which ranges are full for a remote end.
#[derive(Drop)]
pub struct Ports {
    alloc: Global,
    held: HeldRanges,
    kept: IndexMap<Range, u64>,
    returning: Vec<u64>,
    flows: Flows,
    full: FullRanges,
}

impl Model for Ports {
    ghost use Rattle.agent_ports.specs.Full.{IsKnown};
    ghost use Rattle.agent_ports.specs.Ports.{PortsState};

    ghost Value = { PortsState };

    ghost view = { λ p. record {
      ranges = record { held = p.held; kept = p.kept.entries; returning = p.returning.items };
      conns = p.flows;
    } };

    ghost invariant = { λ p. IsKnown p.full p.flows p.held };
}

/// The greatest number that was held of a range.
#[tactic(auto, using(crate::proofs::Keys::range_eq_is))]
fn kept_at(kept: &IndexMap<Range, u64>, r: &Range) -> u64
    ensures { result ≡ kept_at kept.now.entries r.now }
{
    match kept.get(r) {
        Some(n) => *n,
        None => 0,
    }
}

/// This number is the greatest that was held of a range.
fn keep(kept: &mut IndexMap<Range, u64>, r: Range, n: u64)
    requires { 0 < spare kept.old }
    ensures { kept.new.entries ≡ insert_entry same_range kept.old.entries r n }
{
    kept.insert(r, n).unwrap();
}

/// Whether the number is given back.
fn is_returning(returning: &[u64], n: u64) -> bool
    ensures { result ≡ list_any (λ m. m == n) returning.now }
{
    returning.iter().any(|m| *m == n)
}

/// The number isn't given back any more.
fn forget_number(returning: &mut Vec<u64>, n: u64)
    ensures { returning.new.items ≡ filter (λ m. not (m == n)) returning.old.items }
{
    returning.retain(|m| *m != n);
}

/// Whether a Grant is old.
fn is_old(held: &[Held], returning: &[u64], kept: u64, n: u64, r: &Range) -> bool
    ensures { result ≡ (clashes held.now n r.now || list_any (λ m. m == n) returning.now || nat_le n kept) }
{
    clashes(held, n, r) || is_returning(returning, n) || n <= kept
}

/// The range of a connection that closed isn't full any more.
fn lower(full: &mut FullRanges, leases: &[Lease], closed: &Connection)
    requires { IsTop full.old }
    ensures below { (e : End) → below_of full.new e ≤ below_of full.old e }
    ensures here { below_of full.new (end_of_connection closed.now) ≤ closed.now.n }
    ensures top { IsTop full.new }
{
    full.lower(
        &RemoteEnd::of_connection(closed),
        closed.n,
        is_first(leases, closed.n),
    );
}

/// Whether a lease with this number is the machine's first.
fn is_first(leases: &[Lease], n: u64) -> bool {
    match leases.first() {
        Some(first) => n <= first.n,
        None => true,
    }
}

/// The connection with this one's private key is taken out.
fn take_out(flows: &mut Flows, full: &mut FullRanges, held: &HeldRanges, c: &Connection)
    requires { IsKnown full.old flows.old held.now }
    ensures left { flows.new ≡ closed (private_key c.now) flows.old }
    ensures known { IsKnown full.new flows.new held.now }
{
    if let Some(closed) = flows.close(&private_key(c)) {
        lower(full, held.leases(closed.machine), &closed);
    }
}

/// Nothing is known any more where a connection's number changes.
fn renumber(full: &mut FullRanges, found: Option<Connection>, n: u64)
    requires { IsTop full.old }
    ensures { Renumbers full.old full.new found n }
{
    if let Some(c) = found {
        if c.n != n {
            full.clear();
        }
    }
}

/// The first so many leases are full.
fn keep_full(full: &mut FullRanges, end: RemoteEnd, leases: &[Lease], from: usize, to: usize)
    requires within { to ≤ length leases.now }
    requires top { IsTop full.old }
    ensures top { IsTop full.new }
    ensures below { (e : End) → Keeps full.old full.new end leases.now to e }
{
    if to > from {
        full.set(end, leases[to - 1].n.saturating_add(1));
    }
}

impl Ports {
    /// No ranges and no connections. Takes no memory.
    pub fn new(alloc: Global) -> Ports
        ensures { result ≡ no_ports }
    {
        Ports {
            alloc,
            held: HeldRanges::new(alloc),
            kept: IndexMap::new(alloc),
            returning: Vec::new(alloc),
            flows: Flows::new(alloc),
            full: FullRanges::new(alloc),
        }
    }

    // ---- ranges

    /// A Grant of a range to a machine. It is old exactly where the range or the number is held, the number is given
    /// back, or it isn't above the greatest number that was held of the range.
    pub fn grant(&mut self, n: u64, r: &Range, machine: Ip4, now: u64) -> Result<Granting, NoMemory>
        ensures ok { IfOk result (λ came. (self.new.ranges, came) ≡ granted self.old.ranges n r.now machine now) }
        ensures conns { self.new.conns ≡ self.old.conns }
        ensures err { OnErr result (self.new ≡ self.old) }
    {
        let kept = kept_at(&self.kept, r);
        if is_old(self.held.as_slice(), &self.returning, kept, n, r) {
            return Ok(Granting::Old { kept });
        }
        self.kept.reserve(1)?;
        self.held.add(Held {
            n,
            range: *r,
            machine,
            idle: now,
            count: 0,
        })?;
        keep(&mut self.kept, *r, n);
        self.full.granted(n);
        Ok(Granting::Held)
    }

    /// The first port over the ranges of the key's source, by their numbers, from which no connection leaves from this
    /// VIP to the key's remote end, with the number of its range. `None` exactly where each port is used so.
    pub fn choose_port(&mut self, key: &FlowKey, vip: Ip4) -> Option<(u64, u16)>
        ensures port { result ≡ first_unused (is_used self.old.conns key.now vip) (ports_of self.old.ranges.held key.now.src) }
        ensures same { self.new ≡ self.old }
    {
        let end = RemoteEnd::of(key, vip);
        let leases = self.held.leases(key.src);
        let from = first_from(leases, self.full.below(&end));
        let to = full_to(&self.flows, &end, leases, from);
        keep_full(&mut self.full, end, leases, from, to);
        let (_, rest) = leases.split_at(to);
        first_free(&self.flows, &end, rest)
    }

    /// Gives back the ranges that had no connection for so long (in milliseconds) and whose machines aren't busy, and
    /// answers their numbers, in ascending order.
    pub fn give_back_idle<F: Fn(Ip4) -> bool>(
        &mut self,
        now: u64,
        idle: u64,
        busy: F,
    ) -> Result<Items<u64>, NoMemory>
        requires { F.IsAlwaysCallable busy }
        ensures numbers { (test : ip.Ip4 → Bool) → Answers (F.post busy) test
            → IfOk result (λ given. given ≡ numbers (filter (is_spare test now idle) self.old.ranges.held)) }
        ensures ranges { (test : ip.Ip4 → Bool) → Answers (F.post busy) test
            → OnOk result (self.new.ranges
            ≡ given_back_each (filter (is_spare test now idle) self.old.ranges.held) self.old.ranges) }
        ensures conns { self.new.conns ≡ self.old.conns }
        ensures err { OnErr result (self.new ≡ self.old) }
    {
        let flags = spare_flags(self.alloc, self.held.as_slice(), now, idle, &busy)?;
        let given = flagged_numbers(self.alloc, self.held.as_slice(), &flags)?;
        self.give_back(&flags, &given)?;
        Ok(Items::from_vec(given))
    }

    /// The ranges with a flag are given back. Costs a walk over all, where there are any.
    fn give_back(&mut self, flags: &[bool], given: &[u64]) -> Result<(), NoMemory>
        requires len { length flags.now ≡ length self.old.ranges.held }
        requires ascend { Ascend held_number self.old.ranges.held }
        requires given { given.now ≡ numbers (flagged flags.now self.old.ranges.held) }
        ensures ranges { OnOk result (self.new.ranges
            ≡ given_back_each (flagged flags.now self.old.ranges.held) self.old.ranges) }
        ensures conns { self.new.conns ≡ self.old.conns }
        ensures err { OnErr result (self.new ≡ self.old) }
    {
        if given.is_empty() {
            return Ok(());
        }
        self.returning.reserve(given.len())?;
        self.held.keep_unflagged(flags)?;
        self.returning.extend_from_slice(given).unwrap();
        Ok(())
    }

    /// The numbers that are given back, as they joined.
    pub fn returning(&self) -> &[u64]
        ensures { result.now ≡ self.now.ranges.returning }
    {
        self.returning.as_slice()
    }

    /// The number needn't be given back again. Answers whether it was given back.
    pub fn returned(&mut self, n: u64) -> bool
        ensures was { result ≡ is_returning n self.old.ranges }
        ensures left { self.new.ranges ≡ returned n self.old.ranges }
        ensures conns { self.new.conns ≡ self.old.conns }
    {
        let was = is_returning(&self.returning, n);
        if was {
            forget_number(&mut self.returning, n);
        }
        was
    }

    /// The i-th held range by number, from 0. `None` exactly from their count on.
    pub fn held(&self, i: usize) -> Option<Held>
        ensures { result ≡ slice_get self.now.ranges.held i }
    {
        self.held.as_slice().get(i).copied()
    }

    // ---- connections

    /// The number of connections, at most 65,536.
    pub fn len(&self) -> usize
        ensures len { result ≡ length self.now.conns }
        ensures most { length self.now.conns ≤ most }
    {
        self.flows.len()
    }

    /// The connection of a machine's packets. `None` exactly where none has this private key.
    pub fn find_private(&self, key: &FlowKey) -> Option<Connection>
        ensures { result ≡ by_private key.now self.now.conns }
    {
        self.flows.find_private(key)
    }

    /// The connection of packets that leave. `None` exactly where none has this public key.
    pub fn find_public(&self, key: &FlowKey) -> Option<Connection>
        ensures { result ≡ by_public key.now self.now.conns }
    {
        self.flows.find_public(key)
    }

    /// The i-th opened of those that are kept, from 0. `None` exactly from their count on. Walks over those before it.
    pub fn connection(&self, i: usize) -> Option<Connection>
        ensures { result ≡ slice_get self.now.conns i }
    {
        self.flows.connection(i)
    }

    /// One connection more, and one more in its range, where fewer than 65,536 are kept; else all stays as it was, as
    /// it does without memory.
    pub fn open(&mut self, c: Connection) -> Result<Opened, NoMemory>
        requires private { by_private (private_key c) self.old.conns ≡ None }
        requires public { by_public (public_key c) self.old.conns ≡ None }
        ensures ok { IfOk result (λ came. (self.new, came) ≡ opens c self.old) }
        ensures err { OnErr result (self.new ≡ self.old) }
    {
        let opened = self.flows.open(c)?;
        if opened == Opened::Yes {
            self.held.count(c.n, Count::Opened);
        }
        Ok(opened)
    }

    /// The connection with this private key, if there is one, was used now (in milliseconds).
    pub fn touch(&mut self, key: &FlowKey, now: u64)
        ensures { self.new ≡ record self.old { conns = map (at_private key.now (at_time now)) self.old.conns } }
    {
        self.flows.touch(key, now);
    }

    /// The connection with this private key, if there is one, has this peer and number.
    pub fn set_peer(&mut self, key: &FlowKey, peer: Option<Ip4>, n: u64)
        ensures { self.new ≡ record self.old { conns = map (at_private key.now (with_peer peer n)) self.old.conns } }
    {
        renumber(&mut self.full, self.flows.find_private(key), n);
        self.flows.set_peer(key, peer, n);
    }

    /// The connection closes: it is taken out, and there is one less in its range, which is idle from now on.
    pub fn close(&mut self, c: &Connection, now: u64)
        ensures { self.new ≡ with_closed now c.now self.old }
    {
        take_out(&mut self.flows, &mut self.full, &self.held, c);
        self.held.count(c.n, Count::Closed { now });
    }

    /// Closes the first opened of the connections that are idle for so long (in milliseconds). `None` exactly where
    /// none is. A walk by calls with one time looks at each connection at most once, and at none that can't be idle yet.
    pub fn expire(&mut self, now: u64, idle: u64) -> Option<Connection>
        ensures first { result ≡ find (is_idle now idle) self.old.conns }
        ensures left { self.new ≡ ends now result self.old }
        ensures walk { filter (is_idle now idle) self.old.conns
            ≡ first_then result (filter (is_idle now idle) self.new.conns) }
    {
        let closed = self.flows.expire(now, idle)?;
        lower(&mut self.full, self.held.leases(closed.machine), &closed);
        self.held.count(closed.n, Count::Closed { now });
        Some(closed)
    }
}
