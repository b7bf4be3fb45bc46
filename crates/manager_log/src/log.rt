ghost use Rattle.std.specs.Prelude.{◌≡◌, ◌<◌, true, IfOk, IfSome, OnOk};
ghost use Rattle.lease_spec.specs.Table.{known_boot, last_of, row_at, rule_of};
ghost use Rattle.manager_log.specs.Log.{HasRoom, HasRoomFor, stepped, table_after, table_again, table_with};
ghost use Rattle.manager_spec.specs.Manager.{effects_of, leases_of};
ghost use Rattle.paxos_spec.specs.Acceptor.{follow, kept, reach};
ghost use Rattle.paxos_spec.specs.Events.{new_replica, on_epoch};
ghost use Rattle.port_leases.specs.TableState.{onward_all, onward_in, outcome_of, pair_of, row_above, rows_above};
ghost use Rattle.port_leases.specs.TableState.{rows_in};

use paxos_replica::{Replica, ReplicaStep};
use port_leases::{EffectList, Outcome, Phase, Row, Table};
use std::alloc::Global;
use std::marker::Model;
use wire_core::{Entry, Ip4, Items, LeaseRules, MachineRule, NoMemory};

/// The most slots that a log has.
pub const MOST_SLOTS: u64 = 1 << 58;

/// A replica's part in the agreement, and the lease table that its log leaves. Nobody above it sees that the two are
/// kept apart.
#[derive(Drop)]
pub struct LeaseLog {
    alloc: Global,
    replica: Replica,
    table: Table,
    /// No call found no memory between the log and the table.
    sound: bool,
}

impl Model for LeaseLog {
    ghost use Rattle.std.specs.Prelude.{◌≡◌, true};
    ghost use Rattle.manager_log.specs.Log.{LogState, Tied};

    ghost Value = { LogState };

    ghost view = { λ l. record { rules = l.table.rules; replica = l.replica; sound = l.sound } };

    ghost invariant = { λ l. l.sound ≡ true → Tied l.replica.acceptor l.table };
}

/// What an entry has learned does its effects on the table, at the place that it has in the log.
#[tactic(auto, unfolding(crate::specs::Log::table_with, crate::specs::Log::HasRoomFor))]
fn apply_entry(alloc: Global, table: &mut Table, entry: &Entry) -> Result<EffectList, NoMemory>
    requires { HasRoomFor table.old.slots entry.now }
    ensures rules { table.new.rules ≡ table.old.rules }
    ensures table { OnOk result (table.new ≡ (table_with table.old entry.now).0) }
    ensures effects { IfOk result (λ effects. effects ≡ (table_with table.old entry.now).1) }
{
    match entry {
        Entry::Learn { value, .. } => {
            let slot = table.slots();
            table.apply(slot, value)
        }
        _ => Ok(Items::new(alloc)),
    }
}

/// The same of a step's entry, where it has one.
#[tactic(auto, unfolding(crate::specs::Log::table_after, crate::specs::Log::HasRoom))]
fn apply_step(alloc: Global, table: &mut Table, step: &ReplicaStep) -> Result<EffectList, NoMemory>
    requires { HasRoom table.old.slots step.now.entry }
    ensures rules { table.new.rules ≡ table.old.rules }
    ensures table { OnOk result (table.new ≡ (table_after table.old step.now.entry).0) }
    ensures effects { IfOk result (λ effects. effects ≡ (table_after table.old step.now.entry).1) }
{
    match step.entry() {
        Some(entry) => apply_entry(alloc, table, &entry),
        None => Ok(Items::new(alloc)),
    }
}

/// The same of an entry of the journal. A full log passes over what else is learned.
#[tactic(auto, unfolding(crate::specs::Log::table_again), using(crate::proofs::LogLaws::room_tested))]
fn apply_again(alloc: Global, table: &mut Table, entry: &Entry) -> Result<(), NoMemory>
    ensures rules { table.new.rules ≡ table.old.rules }
    ensures table { OnOk result (table.new ≡ table_again table.old entry.now) }
{
    if table.slots() < MOST_SLOTS {
        apply_entry(alloc, table, entry)?;
    }
    Ok(())
}

impl LeaseLog {
    /// An empty log, under these rules.
    #[tactic(auto, using(crate::proofs::LogLaws::tied_new))]
    pub fn new(alloc: Global, rules: LeaseRules) -> Result<LeaseLog, NoMemory>
        ensures { IfOk result (λ log. log ≡ record { rules = rules; replica = new_replica; sound = true }) }
    {
        let replica = Replica::new(alloc);
        let table = Table::new(alloc, rules)?;
        Ok(LeaseLog {
            alloc,
            replica,
            table,
            sound: true,
        })
    }

    /// Folds in an entry of the replica's journal.
    pub fn recover(&mut self, entry: &Entry) -> Result<(), NoMemory>
        requires { self.old.sound ≡ true }
        ensures { OnOk result (self.new ≡ record self.old {
          replica = record {
            acceptor = follow self.old.replica.acceptor entry.now;
            memory = self.old.replica.memory;
          };
        }) }
    {
        self.sound = false;
        apply_again(self.alloc, &mut self.table, entry)?;
        self.replica.recover(entry)?;
        self.sound = true;
        Ok(())
    }

    /// It takes a step that its replica was asked for since it last changed, and answers what was done by what the step
    /// has learned. Without memory it isn't used again.
    #[tactic(auto, using(crate::proofs::LogLaws::effects_after))]
    pub fn take(&mut self, step: ReplicaStep) -> Result<EffectList, NoMemory>
        requires sound { self.old.sound ≡ true }
        requires room { HasRoom (reach self.old.replica.acceptor) step.entry }
        ensures rules { self.new.rules ≡ self.old.rules }
        ensures kept { self.new.sound ≡ true
            → self.new.replica.acceptor ≡ kept self.old.replica.acceptor step.entry }
        ensures log { OnOk result (self.new ≡ stepped self.old step) }
        ensures effects { IfOk result (λ effects.
            effects ≡ effects_of self.old.rules self.old.replica.acceptor step.entry) }
    {
        self.sound = false;
        let effects = apply_step(self.alloc, &mut self.table, &step)?;
        self.replica.take(step)?;
        self.sound = true;
        Ok(effects)
    }

    /// This epoch was heard of. Where the replica leads or wants to at a lower ballot, it steps down.
    pub fn on_epoch(&mut self, epoch: u64)
        ensures { self.new ≡ record self.old {
          replica = record {
            acceptor = self.old.replica.acceptor;
            memory = on_epoch self.old.replica.memory epoch;
          };
        } }
    {
        self.replica.on_epoch(epoch);
    }

    /// The replica's part in the agreement, to be asked for its steps.
    pub fn replica(&self) -> &Replica
        ensures { result.now ≡ self.now.replica }
    {
        &self.replica
    }

    /// Whether no call found no memory in its midst.
    pub fn is_sound(&self) -> bool
        ensures { result ≡ self.now.sound }
    {
        self.sound
    }

    /// The row with this number.
    pub fn row(&self, n: u64) -> Option<Row>
        requires { self.now.sound ≡ true }
        ensures { result ≡ row_at (leases_of self.now.rules self.now.replica.acceptor).rows n }
    {
        self.table.row(n)
    }

    /// The row with the least number above this one.
    #[tactic(auto, using(crate::proofs::QuietLaws::first_above))]
    pub fn next_row(&self, above: u64) -> Option<Row>
        requires { self.now.sound ≡ true }
        ensures above { IfSome result (λ row. above < row.n) }
        ensures row { result ≡ row_above (leases_of self.now.rules self.now.replica.acceptor).rows above }
        ensures walk { rows_above (leases_of self.now.rules self.now.replica.acceptor).rows above
            ≡ onward_all (leases_of self.now.rules self.now.replica.acceptor).rows result }
    {
        self.table.next_row(above)
    }

    /// The row in this phase with the least number above this one.
    pub fn next_in(&self, phase: Phase, above: u64) -> Option<Row>
        requires { self.now.sound ≡ true }
        ensures { rows_in (leases_of self.now.rules self.now.replica.acceptor).rows phase above
            ≡ onward_in (leases_of self.now.rules self.now.replica.acceptor).rows phase result }
    {
        self.table.next_in(phase, above)
    }

    /// What the machine's last request came to.
    pub fn outcome(&self, machine: Ip4) -> Option<Outcome>
        requires { self.now.sound ≡ true }
        ensures { result ≡ outcome_of (last_of (leases_of self.now.rules self.now.replica.acceptor).lasts machine) }
    {
        self.table.outcome(machine)
    }

    /// The boot and the seq of the machine's last request.
    pub fn last(&self, machine: Ip4) -> Option<(u64, u64)>
        requires { self.now.sound ≡ true }
        ensures { result ≡ pair_of (last_of (leases_of self.now.rules self.now.replica.acceptor).lasts machine) }
    {
        self.table.last(machine)
    }

    /// The agent's known boot.
    pub fn known(&self, agent: u16) -> u64
        requires { self.now.sound ≡ true }
        ensures { result ≡ known_boot (leases_of self.now.rules self.now.replica.acceptor).known agent }
    {
        self.table.known(agent)
    }

    /// The machine's rule.
    pub fn machine_rule(&self, machine: Ip4) -> Option<MachineRule>
        ensures { result ≡ rule_of self.now.rules machine }
    {
        self.table.machine_rule(machine)
    }
}
