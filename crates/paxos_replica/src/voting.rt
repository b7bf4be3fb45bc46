ghost use Rattle.std.specs.Prelude.{◌≡◌, ◌<◌, Some, IfOk};
ghost use Rattle.paxos_replica.specs.Seen.{mails_of, voter};
ghost use Rattle.paxos_spec.specs.Acceptor.{reach};
ghost use Rattle.paxos_spec.specs.Events.{step_at_accept, step_at_accepted, step_at_offer};
ghost use Rattle.paxos_spec.specs.Replica.{accept_out, accepted, tallied_out};
ghost use Rattle.paxos_spec.specs.declared.steps.AcceptStep.TheVariants.{Voted};
ghost use Rattle.paxos_spec.specs.declared.steps.Counted.TheVariants.{Chosen};

use crate::entry::{OwnedEntry, cast};
use crate::memory::Memory;
use crate::replica::Replica;
use crate::said::{Recipients, Said, accepts};
use crate::step::ReplicaStep;
use paxos_leader::Leader;
use paxos_spec::{AcceptStep, Body, Counted};
use wire_core::{NoMemory, OwnedValue, Value};

impl Replica {
    /// A value is offered to it: it stands outstanding at the log's end, and all five are asked to vote for it. `None`
    /// exactly where the replica isn't primary, something is outstanding, or the log is full.
    #[tactic(auto, unfolding(paxos_spec::specs::Replica::on_offer))]
    pub fn offer(&self, me: u8, value: &Value) -> Result<Option<ReplicaStep>, NoMemory>
        ensures { IfOk result (λ step. step ≡ step_at_offer me self.now value.now) }
    {
        let leader = &self.memory.leader;
        if !leader.ready() || !leader.is_idle() || self.acceptor.is_full() {
            return Ok(None);
        }
        let slot = self.acceptor.length();
        let mut leader = leader.copy()?;
        leader.propose(slot, value)?;
        let accepts = accepts(self.alloc, me, slot, &leader)?;
        let memory = self.memory.with_leader(leader);
        Ok(Some(ReplicaStep::new(None, memory, accepts)))
    }

    /// What is outstanding, to all five once more. `None` exactly where nothing is.
    pub fn accept_again(&self, me: u8) -> Result<Option<Said>, NoMemory>
        ensures { IfOk result (λ said. mails_of said ≡ accept_out me (reach self.now.acceptor) self.now.memory.leader) }
    {
        accepts(self.alloc, me, self.acceptor.length(), &self.memory.leader)
    }

    /// The memory of a voter: what leads below the ballot steps down.
    fn voter(&self, ballot: u64) -> Result<Memory, NoMemory>
        ensures { IfOk result (λ memory. memory ≡ voter self.now.memory ballot) }
    {
        if self.memory.leader.ballot() < ballot {
            Ok(self.memory.down())
        } else {
            self.memory.copy()
        }
    }

    /// The step of a vote.
    fn vote(
        &self,
        me: u8,
        from: u8,
        ballot: u64,
        slot: u64,
        value: &Value,
    ) -> Result<ReplicaStep, NoMemory>
        ensures { IfOk result (λ step. step ≡ accepted me self.now.memory from ballot slot value.now Voted) }
    {
        let cast = cast(self.alloc, ballot, value)?;
        let memory = self.voter(ballot)?;
        let said = Said::to(me, Body::Accepted { ballot, slot }, from);
        Ok(ReplicaStep::new(Some(OwnedEntry::Vote { cast }), memory, Some(said)))
    }

    /// An Accept comes: the replica is asked to vote for this value at this slot. `None` exactly where the ballot isn't
    /// below the promise, and the slot has its value or the log is full.
    #[tactic(auto, unfolding(paxos_spec::specs::Replica::on_accept))]
    pub fn on_accept(
        &self,
        me: u8,
        from: u8,
        ballot: u64,
        slot: u64,
        value: &Value,
    ) -> Result<Option<ReplicaStep>, NoMemory>
        ensures { IfOk result (λ step. step ≡ step_at_accept me self.now from ballot slot value.now) }
    {
        match self.acceptor.accept_step(ballot, slot, value) {
            AcceptStep::Late => Ok(None),
            AcceptStep::Refuse { promised } => {
                let memory = self.memory.copy()?;
                let body = Body::Refuse { ballot, promised };
                Ok(Some(ReplicaStep::reply(memory, me, body, from)))
            }
            AcceptStep::Behind { length } => {
                let memory = self.memory.with_goal(slot, from)?;
                let body = Body::Fetch { slot: length };
                Ok(Some(ReplicaStep::reply(memory, me, body, from)))
            }
            AcceptStep::Again => {
                let memory = self.memory.copy()?;
                let body = Body::Accepted { ballot, slot };
                Ok(Some(ReplicaStep::reply(memory, me, body, from)))
            }
            AcceptStep::Voted => Ok(Some(self.vote(me, from, ballot, slot, value)?)),
        }
    }

    /// The third Accepted: the value is learned, and told to the others.
    fn choose(
        &self,
        me: u8,
        ballot: u64,
        slot: u64,
        value: &Value,
        leader: Leader,
    ) -> Result<ReplicaStep, NoMemory>
        ensures { IfOk result (λ step.
            step ≡ tallied_out me self.now.memory ballot slot (Some value.now) leader Chosen) }
    {
        let cast = cast(self.alloc, ballot, value)?;
        let value = OwnedValue::of(self.alloc, value)?;
        let said = Said {
            sender: me,
            recipients: Recipients::Others,
            body: Body::Chosen {
                slot,
                ballot,
                value,
            },
        };
        Ok(ReplicaStep::new(
            Some(OwnedEntry::Learn { cast }),
            self.memory.with_leader(leader),
            Some(said),
        ))
    }

    /// An Accepted comes from a replica, from 0 to 4. The third one chooses: what was outstanding is learned, and told
    /// to the others. `None` exactly where the slot isn't the next one with room for it, this replica doesn't lead at
    /// the ballot with that slot outstanding, or that one's was counted.
    #[tactic(auto, unfolding(paxos_spec::specs::Replica::on_accepted))]
    pub fn on_accepted(
        &self,
        me: u8,
        from: u8,
        ballot: u64,
        slot: u64,
    ) -> Result<Option<ReplicaStep>, NoMemory>
        requires { from < 5 }
        ensures { IfOk result (λ step. step ≡ step_at_accepted me self.now from ballot slot) }
    {
        if slot != self.acceptor.length() || self.acceptor.is_full() {
            return Ok(None);
        }
        let Some(value) = self.memory.leader.outstanding() else {
            return Ok(None);
        };
        let mut leader = self.memory.leader.copy()?;
        match leader.on_accepted(from, ballot, slot) {
            Counted::Late => Ok(None),
            Counted::More => Ok(Some(ReplicaStep::quiet(self.memory.with_leader(leader)))),
            Counted::Chosen => Ok(Some(self.choose(me, ballot, slot, &value, leader)?)),
        }
    }
}
