ghost use Rattle.std.specs.Prelude.{◌≡◌, ◌<◌, ◌≤◌, ℕ, List, false, true, OnOk};
ghost use Rattle.std.specs.BTreeMap.{is_at};
ghost use Rattle.std.specs.Ordering.{nat_cmp};
ghost use Rattle.manager_log.specs.Pending.{IsCurrent, IsFirstAbove, IsQuiet, has, is_settled, unseen};
ghost use Rattle.manager_spec.specs.declared.peer.Peer.{Peer};
ghost use Rattle.manager_spec.specs.Known.{forget as without, marks_at, set_marks};
ghost use Rattle.manager_spec.specs.Orders.{after_effect, after_effects};
ghost use Rattle.paxos_spec.specs.Acceptor.{AcceptorState};
ghost use Rattle.wire_core.specs.declared.rules.LeaseRules.{LeaseRules};

use crate::holding::{has_boot, is_acked};
use crate::log::LeaseLog;
use crate::muxes::{marks_at, set_marks};
use manager_spec::{Marks, Peer};
use port_leases::Effect;
use std::alloc::Global;
use std::collections::{BTreeMap, BTreeSet};
use std::marker::Model;
use std::ops::Bound;
use wire_core::NoMemory;

/// What a push needn't look at: rows that were looked at and aren't among those pending here. All that hangs on it is the
/// cost of a push, so it may always forget what it knows.
#[derive(Drop)]
pub struct Pending {
    /// Rows with numbers up to this one were looked at.
    upto: u64,
    /// The numbers of those of them that some mux may lack in its known boot.
    rows: BTreeSet<u64>,
}

impl Model for Pending {
    ghost use Rattle.manager_log.specs.Pending.{Pending as Seen};

    ghost Value = { Seen };

    ghost view = { λ p. record { upto = p.upto; rows = p.rows.keys } };
}

impl Pending {
    /// No row was looked at. Takes no memory.
    pub fn new(alloc: Global) -> Pending
        ensures { result ≡ unseen }
    {
        Pending {
            upto: 0,
            rows: BTreeSet::new(alloc),
        }
    }

    /// As if no row was looked at.
    pub fn clear(&mut self)
        ensures { self.new ≡ unseen }
    {
        self.upto = 0;
        self.rows.clear();
    }

    /// Some mux may lack the row.
    pub fn insert(&mut self, n: u64) -> Result<(), NoMemory>
        ensures upto { self.new.upto ≡ self.old.upto }
        ensures here { OnOk result (has self.new.rows n ≡ true) }
        ensures others { (q : ℕ) → has self.new.rows q ≡ false → has self.old.rows q ≡ false }
    {
        self.rows.insert(n)?;
        Ok(())
    }

    /// Each mux with a known boot has the row, or there is none.
    pub fn remove(&mut self, n: u64)
        ensures upto { self.new.upto ≡ self.old.upto }
        ensures others { (q : ℕ) → is_at (nat_cmp n) q ≡ false → has self.new.rows q ≡ has self.old.rows q }
    {
        self.rows.remove(&n);
    }

    /// The least number above this one that is pending.
    fn first_above(&self, above: u64) -> Option<u64>
        ensures { IsFirstAbove self.now.rows above result }
    {
        let mut later = self.rows.range((Bound::Excluded(above), Bound::Unbounded));
        later.next().copied()
    }

    /// A number from which on down to this one no row has to be looked at, if it isn't Freeing.
    pub fn quiet_to(&self, above: u64) -> u64
        ensures further { above ≤ result }
        ensures quiet { IsQuiet self.now above result }
    {
        let seen = self.upto.max(above);
        match self.first_above(above) {
            None => seen,
            Some(n) => seen.min(n - 1),
        }
    }
}

/// Whether each mux with a known boot has the row in that boot.
pub fn is_settled(peers: &[Peer], marks: &Marks) -> bool
    ensures { result ≡ is_settled peers.now marks.now }
{
    peers
        .iter()
        .filter(|peer| has_boot(*peer))
        .all(|peer| is_acked(marks.programmed.as_slice(), peer))
}

/// Row n has these acknowledgements; it is pending as long as a mux lacks it. Without memory it may be pending.
pub fn acknowledge(
    acks: &mut BTreeMap<u64, Marks>,
    pending: &mut Pending,
    peers: &[Peer],
    n: u64,
    marks: Marks,
) -> Result<(), NoMemory>
    ensures acks { OnOk result (acks.new.entries ≡ set_marks acks.old.entries n marks) }
    ensures current { (rules : LeaseRules) (a : AcceptorState)
        → IsCurrent pending.old rules a acks.old.entries peers.now
        → IsCurrent pending.new rules a acks.new.entries peers.now }
{
    pending.insert(n)?;
    set_marks(acks, n, marks)?;
    if is_settled(peers, &marks) {
        pending.remove(n);
    }
    Ok(())
}

/// The acknowledgements of a row that left are forgotten.
fn forget_row(acks: &mut BTreeMap<u64, Marks>, pending: &mut Pending, log: &LeaseLog, n: u64)
    requires { log.now.sound ≡ true }
    ensures acks { acks.new.entries ≡ without acks.old.entries n }
    ensures current { (peers : List Peer)
        → IsCurrent pending.old log.now.rules log.now.replica.acceptor acks.old.entries peers
        → IsCurrent pending.new log.now.rules log.now.replica.acceptor acks.new.entries peers }
{
    acks.remove(&n);
    if log.row(n).is_none() {
        pending.remove(n);
    } else {
        pending.clear();
    }
}

/// What the acknowledgements are after an effect.
fn forget_by(
    acks: &mut BTreeMap<u64, Marks>,
    pending: &mut Pending,
    log: &LeaseLog,
    effect: &Effect,
)
    requires { log.now.sound ≡ true }
    ensures acks { acks.new.entries ≡ after_effect acks.old.entries effect.now }
    ensures current { (peers : List Peer)
        → IsCurrent pending.old log.now.rules log.now.replica.acceptor acks.old.entries peers
        → IsCurrent pending.new log.now.rules log.now.replica.acceptor acks.new.entries peers }
{
    if let Effect::Freed { row } = effect {
        forget_row(acks, pending, log, row.n);
    }
}

/// The acknowledgements of rows that left are forgotten: their numbers never come again.
#[tactic(auto, unfolding(manager_spec::specs::Orders::after_effects))]
pub fn forget(
    acks: &mut BTreeMap<u64, Marks>,
    pending: &mut Pending,
    log: &LeaseLog,
    effects: &[Effect],
)
    requires { log.now.sound ≡ true }
    ensures acks { acks.new.entries ≡ after_effects acks.old.entries effects.now }
    ensures current { (peers : List Peer)
        → IsCurrent pending.old log.now.rules log.now.replica.acceptor acks.old.entries peers
        → IsCurrent pending.new log.now.rules log.now.replica.acceptor acks.new.entries peers }
{
    for effect in effects {
        forget_by(acks, pending, log, effect);
    }
}

/// A row is looked at: it is pending where some mux lacks it.
fn look_at(
    pending: &mut Pending,
    acks: &BTreeMap<u64, Marks>,
    peers: &[Peer],
    n: u64,
) -> Result<(), NoMemory>
    ensures upto { pending.new.upto ≡ pending.old.upto }
    ensures others { (q : ℕ) → has pending.new.rows q ≡ false → has pending.old.rows q ≡ false }
    ensures here { OnOk result (has pending.new.rows n ≡ false
        → is_settled peers.now (marks_at acks.now.entries n) ≡ true) }
{
    if !is_settled(peers, &marks_at(acks, n)) {
        pending.insert(n)?;
    }
    Ok(())
}

/// The rows that weren't looked at are.
pub fn look(
    pending: &mut Pending,
    log: &LeaseLog,
    acks: &BTreeMap<u64, Marks>,
    peers: &[Peer],
) -> Result<(), NoMemory>
    requires { log.now.sound ≡ true }
    ensures { IsCurrent pending.old log.now.rules log.now.replica.acceptor acks.now.entries peers.now
        → IsCurrent pending.new log.now.rules log.now.replica.acceptor acks.now.entries peers.now }
{
    let mut above = pending.upto;
    while let Some(row) = log.next_row(above) {
        look_at(pending, acks, peers, row.n)?;
        above = row.n;
    }
    pending.upto = log.replica().length().saturating_mul(16);
    Ok(())
}
