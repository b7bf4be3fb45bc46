ghost use Rattle.std.specs.Prelude.{◌≡◌, max, IfOk};
ghost use Rattle.paxos_replica.specs.Seen.{mails_of};
ghost use Rattle.paxos_spec.specs.Events.{on_lead, step_at_chosen, step_at_fetch};
ghost use Rattle.paxos_spec.specs.Replica.{fetch_more, once_learned, onwards};
ghost use Rattle.wire_core.specs.declared.entry.Entry.TheVariants as entry;

use crate::entry::{OwnedEntry, cast};
use crate::replica::Replica;
use crate::said::{Said, accepts};
use crate::step::ReplicaStep;
use paxos_leader::Leader;
use paxos_spec::{Body, ChosenStep, Stage};
use wire_core::{NoMemory, OwnedValue, Value};

impl Replica {
    /// The next slot is fetched from the guide where the log is short of the goal.
    fn fetch_more(&self, me: u8, at: u64) -> Option<Said>
        ensures { mails_of result ≡ fetch_more me at self.now.memory }
    {
        if at < self.memory.goal {
            Some(Said::to(me, Body::Fetch { slot: at }, self.memory.guide))
        } else {
            None
        }
    }

    /// What its leader comes to, and what it says, once a message brought the log to this length, where this ballot is
    /// promised.
    fn onwards(&self, me: u8, promise: u64, at: u64) -> Result<(Leader, Option<Said>), NoMemory>
        ensures { IfOk result (λ x. (x.0, mails_of x.1) ≡ onwards me promise at self.now.memory) }
    {
        let leader = &self.memory.leader;
        match leader.stage() {
            Stage::Inheriting | Stage::Primary => {
                Ok((leader.stepped_down(), self.fetch_more(me, at)))
            }
            _ if leader.ballot() < promise => {
                Ok((leader.stepped_down(), self.fetch_more(me, at)))
            }
            Stage::Catching if at == leader.sought() => {
                let mut arrived = leader.copy()?;
                arrived.reached();
                let accepts = accepts(self.alloc, me, at, &arrived)?;
                Ok((arrived, accepts))
            }
            Stage::Follower | Stage::Candidate | Stage::Catching => {
                Ok((leader.copy()?, self.fetch_more(me, at)))
            }
        }
    }

    /// The step of what is learned.
    fn learn(&self, me: u8, ballot: u64, at: u64, value: &Value) -> Result<ReplicaStep, NoMemory>
        ensures { IfOk result (λ step. step ≡ once_learned (entry.Learn ballot value.now) self.now.memory
            (onwards me (max self.now.acceptor.promise ballot) at self.now.memory)) }
    {
        let cast = cast(self.alloc, ballot, value)?;
        let promise = self.acceptor.promised().max(ballot);
        let (leader, said) = self.onwards(me, promise, at)?;
        Ok(ReplicaStep::new(
            Some(OwnedEntry::Learn { cast }),
            self.memory.with_leader(leader),
            said,
        ))
    }

    /// A Chosen comes: at this slot this value was chosen, at this ballot. `None` exactly where the slot has its value
    /// or the log is full.
    #[tactic(auto, unfolding(paxos_spec::specs::Replica::on_chosen))]
    pub fn on_chosen(
        &self,
        me: u8,
        from: u8,
        slot: u64,
        ballot: u64,
        value: &Value,
    ) -> Result<Option<ReplicaStep>, NoMemory>
        ensures { IfOk result (λ step. step ≡ step_at_chosen me self.now from slot ballot value.now) }
    {
        match self.acceptor.chosen_step(slot) {
            ChosenStep::Late => Ok(None),
            ChosenStep::Behind { length } => {
                let memory = self.memory.with_goal(slot, from)?;
                let body = Body::Fetch { slot: length };
                Ok(Some(ReplicaStep::reply(memory, me, body, from)))
            }
            ChosenStep::Learned => {
                Ok(Some(self.learn(me, ballot, slot.saturating_add(1), value)?))
            }
        }
    }

    /// A Fetch comes: what was chosen at the slot is told. `None` exactly from the log's length on.
    pub fn on_fetch(&self, me: u8, from: u8, slot: u64) -> Result<Option<ReplicaStep>, NoMemory>
        ensures { IfOk result (λ step. step ≡ step_at_fetch me self.now from slot) }
    {
        match self.acceptor.entry(slot) {
            None => Ok(None),
            Some((ballot, value)) => {
                let value = OwnedValue::of(self.alloc, &value)?;
                let memory = self.memory.copy()?;
                let body = Body::Chosen {
                    slot,
                    ballot,
                    value,
                };
                Ok(Some(ReplicaStep::reply(memory, me, body, from)))
            }
        }
    }

    /// Another replica says that it leads at this ballot, with a log of this length. Below the promise it is refused;
    /// else the ballot is heard of, and what this log lacks is fetched.
    #[tactic(auto, unfolding(paxos_spec::specs::Events::on_lead))]
    pub fn on_lead(
        &self,
        me: u8,
        from: u8,
        ballot: u64,
        length: u64,
    ) -> Result<ReplicaStep, NoMemory>
        ensures { IfOk result (λ step. step ≡ on_lead me self.now.acceptor self.now.memory from ballot length) }
    {
        let promised = self.acceptor.promised();
        let slot = self.acceptor.length();
        let mut memory = self.memory.copy()?;
        if ballot < promised {
            let body = Body::Refuse { ballot, promised };
            return Ok(ReplicaStep::reply(memory, me, body, from));
        }
        memory.seen = memory.seen.max(ballot);
        if slot < length {
            memory.goal = length;
            memory.guide = from;
            Ok(ReplicaStep::reply(memory, me, Body::Fetch { slot }, from))
        } else {
            Ok(ReplicaStep::quiet(memory))
        }
    }
}
