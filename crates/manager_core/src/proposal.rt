ghost use Rattle.std.specs.Prelude.{◌≡◌, ◌<◌, ◌-◌, ◌==◌, ◌++◌, if◌then◌else◌, length, take, true, Some, IfOk, OnOk};
ghost use Rattle.std.specs.List.{flat_map};
ghost use Rattle.manager_core.specs.Seen.{with_lists};
ghost use Rattle.manager_spec.specs.Manager.{agrees, leases};
ghost use Rattle.manager_spec.specs.Proposal.{filled, first_due, freed_due, grant_due, holders, is_granted, propose};
ghost use Rattle.node_spec.specs.Steps.{turned};
ghost use Rattle.paxos_spec.specs.Replica.{may_propose, on_offer};

use crate::manager::Manager;
use manager_log::{MOST_SLOTS, all_acked_ever, all_near_acked, count_holders, holders, marks_at};
use manager_spec::Marks;
use port_leases::{Phase, Row};
use wire_core::{Command, NoMemory, OwnedValue, Step, ValueBuilder};

/// The most commands of a value.
const MOST_COMMANDS: usize = 16;

impl Manager {
    /// Whether each mux that isn't silent has the row, and at least one mux has.
    fn is_granted(&self, marks: &Marks) -> bool
        ensures { result ≡ is_granted self.now.config self.now.lists marks.now }
    {
        let peers = self.muxes.as_slice();
        let boots = marks.programmed.as_slice();
        count_holders(peers, boots) > 0 && all_near_acked(&self.cfg, self.time, peers, boots)
    }

    /// Granted, where the row is BeingLeased and muxes have it.
    #[tactic(auto, using(manager_log::proofs::DueLaws::no_holders))]
    fn add_grant(&self, value: &mut ValueBuilder, row: Row) -> Result<(), NoMemory>
        requires { length value.old < 16 }
        ensures { OnOk result (value.new ≡ value.old ++ grant_due self.now.config self.now.lists row) }
    {
        if row.phase != Phase::BeingLeased {
            return Ok(());
        }
        let marks = marks_at(&self.acks, row.n);
        if !self.is_granted(&marks) {
            return Ok(());
        }
        let holders = holders(self.alloc, self.muxes.as_slice(), &marks)?;
        value.push_granted(row.n, holders.as_slice())
    }

    /// Freed, where the row is Freeing and no configured mux has it any more.
    fn add_freed(&self, value: &mut ValueBuilder, row: Row) -> Result<(), NoMemory>
        requires { length value.old < 16 }
        ensures { OnOk result (value.new ≡ value.old ++ freed_due self.now.lists row) }
    {
        if row.phase != Phase::Freeing {
            return Ok(());
        }
        let marks = marks_at(&self.acks, row.n);
        if !all_acked_ever(self.muxes.as_slice(), marks.unprogrammed.as_slice()) {
            return Ok(());
        }
        value.push(&Command::Freed { n: row.n })
    }

    /// The first of what is due for rows that are BeingLeased, by number, until the value is full.
    fn add_grants(&self, value: &mut ValueBuilder) -> Result<(), NoMemory>
        requires { self.now.sound ≡ true }
        ensures { OnOk result (value.new ≡ take 16 (value.old
            ++ flat_map (grant_due self.now.config self.now.lists) (leases self.now.config self.now.lists).rows)) }
    {
        let mut above = 0;
        while value.len() < MOST_COMMANDS {
            let Some(row) = self.log.next_in(Phase::BeingLeased, above) else {
                return Ok(());
            };
            self.add_grant(value, row)?;
            above = row.n;
        }
        Ok(())
    }

    /// The first of what is due for rows that are Freeing, by number, until the value is full.
    fn add_freeds(&self, value: &mut ValueBuilder) -> Result<(), NoMemory>
        requires { self.now.sound ≡ true }
        ensures { OnOk result (value.new ≡ take 16 (value.old
            ++ flat_map (freed_due self.now.lists) (leases self.now.config self.now.lists).rows)) }
    {
        let mut above = 0;
        while value.len() < MOST_COMMANDS {
            let Some(row) = self.log.next_in(Phase::Freeing, above) else {
                return Ok(());
            };
            self.add_freed(value, row)?;
            above = row.n;
        }
        Ok(())
    }

    /// The first 16 of what is due by the table.
    #[tactic(auto, unfolding(manager_spec::specs::Proposal::due), using(manager_log::proofs::DueLaws::take_twice))]
    fn first_due(&self) -> Result<ValueBuilder, NoMemory>
        requires { self.now.sound ≡ true }
        ensures { IfOk result (λ value. value ≡ first_due self.now.config self.now.lists) }
    {
        let mut value = ValueBuilder::new(self.alloc)?;
        self.add_grants(&mut value)?;
        self.add_freeds(&mut value)?;
        Ok(value)
    }

    /// The value is offered to the agreement: it stands outstanding, and Accept goes to all five.
    #[tactic(auto, using(crate::proofs::Rooms::offer_fits, crate::proofs::Rooms::fits_room))]
    fn offer(&mut self, out: &mut Step, value: &OwnedValue) -> Result<(), NoMemory>
        requires sound { self.old.sound ≡ true }
        requires may { may_propose self.old.lists.acceptor self.old.lists.memory.leader ≡ true }
        ensures { OnOk result ((self.new, out.new) ≡ turned (with_lists self.old) self.old.config out.old
            (agrees self.old.config self.old.lists
            (on_offer self.old.lists.index self.old.lists.acceptor self.old.lists.memory value.now))) }
    {
        let Some(step) = self.log.replica().offer(self.index, &value.as_value())? else {
            return Ok(());
        };
        self.take(out, step)?;
        Ok(())
    }

    /// What is due is filled up from the queue, and offered, if there is anything.
    #[tactic(auto, using(node_spec::proofs::Turning::quiet_turned, manager_log::proofs::DueLaws::nothing_dropped))]
    fn fill(&mut self, out: &mut Step, first: ValueBuilder) -> Result<(), NoMemory>
        requires sound { self.old.sound ≡ true }
        requires may { may_propose self.old.lists.acceptor self.old.lists.memory.leader ≡ true }
        ensures { OnOk result ((self.new, out.new) ≡ turned (with_lists self.old) self.old.config out.old
            (filled self.old.config self.old.lists first)) }
    {
        let mut value = first;
        self.queue.fill(&mut value)?;
        if value.len() == 0 {
            return Ok(());
        }
        let value = value.finish();
        self.offer(out, &value)
    }

    /// Whether it may propose: it is primary with nothing outstanding, and the log has room.
    fn may_propose(&self) -> bool
        ensures { result ≡ may_propose self.now.lists.acceptor self.now.lists.memory.leader }
    {
        let replica = self.log.replica();
        self.is_primary() && replica.is_idle() && replica.length() < MOST_SLOTS
    }

    /// The proposal, of a primary with nothing outstanding: the first 16 of what is due by the table, and then of the
    /// queue. Looks at the rows that are BeingLeased and Freeing, until 16 are due.
    #[tactic(auto, unfolding(manager_spec::specs::Proposal::propose), using(node_spec::proofs::Turning::quiet_turned))]
    pub(crate) fn propose(&mut self, out: &mut Step) -> Result<(), NoMemory>
        requires { self.old.sound ≡ true }
        ensures { OnOk result ((self.new, out.new)
            ≡ turned (with_lists self.old) self.old.config out.old (propose self.old.config self.old.lists)) }
    {
        if !self.may_propose() {
            return Ok(());
        }
        let first = self.first_due()?;
        self.fill(out, first)
    }
}
