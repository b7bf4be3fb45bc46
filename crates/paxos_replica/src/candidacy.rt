ghost use Rattle.std.specs.Prelude.{◌≡◌, ◌<◌, IfOk};
ghost use Rattle.std.specs.Option.{option_copied};
ghost use Rattle.paxos_spec.specs.Events.{step_at_campaign, step_at_promise, step_at_refuse};
ghost use Rattle.paxos_spec.specs.Replica.{on_prepare, promise_of};
ghost use Rattle.paxos_spec.specs.Votes.{cast};

use crate::entry::OwnedEntry;
use crate::replica::Replica;
use crate::said::{Recipients, Said, accepts};
use crate::step::ReplicaStep;
use paxos_spec::{Body, LeadStep, PrepareStep, Stage};
use wire_core::{NoMemory, OwnedValue, Value};

impl Replica {
    /// It runs for election, as replica `me`, from 0 to 4: it promises the least ballot of its own in a later round
    /// than all that it promised or heard of, and asks all five for their promises. `None` exactly where it is primary
    /// or that ballot exceeds 64 bits.
    #[tactic(auto, unfolding(paxos_spec::specs::Replica::on_campaign))]
    pub fn campaign(&self, me: u8) -> Result<Option<ReplicaStep>, NoMemory>
        requires { me < 5 }
        ensures { IfOk result (λ step. step ≡ step_at_campaign me self.now) }
    {
        if self.memory.leader.ready() {
            return Ok(None);
        }
        let above = self.acceptor.promised().max(self.memory.seen);
        let mut leader = self.memory.leader.stepped_down();
        let Some(ballot) = leader.campaign(above, me) else {
            return Ok(None);
        };
        let prepares = Said {
            sender: me,
            recipients: Recipients::All,
            body: Body::Prepare { ballot },
        };
        Ok(Some(ReplicaStep::new(
            Some(OwnedEntry::Promise { ballot }),
            self.memory.with_leader(leader),
            Some(prepares),
        )))
    }

    /// The promise that it answers.
    fn promise(&self, ballot: u64) -> Result<Body, NoMemory>
        ensures { IfOk result (λ body. body ≡ promise_of self.now.acceptor ballot) }
    {
        let length = self.acceptor.length();
        match self.acceptor.vote() {
            None => Ok(Body::Promise {
                ballot,
                length,
                vote: 0,
                value: None,
            }),
            Some((vote, value)) => Ok(Body::Promise {
                ballot,
                length,
                vote,
                value: Some(OwnedValue::of(self.alloc, &value)?),
            }),
        }
    }

    /// A Prepare comes. Below the promise it is refused. At the promise, or above it, where the replica promises the
    /// ballot and steps down, its length and its vote are told.
    #[tactic(auto, unfolding(paxos_spec::specs::Replica::on_prepare))]
    pub fn on_prepare(&self, me: u8, from: u8, ballot: u64) -> Result<ReplicaStep, NoMemory>
        ensures { IfOk result (λ step. step ≡ on_prepare me self.now.acceptor self.now.memory from ballot) }
    {
        match self.acceptor.prepare_step(ballot) {
            PrepareStep::Refuse { promised } => {
                let memory = self.memory.copy()?;
                Ok(ReplicaStep::reply(memory, me, Body::Refuse { ballot, promised }, from))
            }
            PrepareStep::Again => {
                let promise = self.promise(ballot)?;
                let memory = self.memory.copy()?;
                Ok(ReplicaStep::reply(memory, me, promise, from))
            }
            PrepareStep::Promise => {
                let promise = self.promise(ballot)?;
                let entry = Some(OwnedEntry::Promise { ballot });
                Ok(ReplicaStep::new(entry, self.memory.down(), Some(Said::to(me, promise, from))))
            }
        }
    }

    /// A Promise comes from a replica, from 0 to 4: its log has this length, and its vote for the slot at the end is of
    /// ballot `vote` for this value; without a value, or at ballot 0, it has none. `None` exactly where this replica is
    /// no candidate at that ballot, or that one's was counted.
    #[tactic(auto, unfolding(paxos_spec::specs::Replica::on_promise))]
    pub fn on_promise(
        &self,
        me: u8,
        from: u8,
        ballot: u64,
        length: u64,
        vote: u64,
        value: Option<&Value>,
    ) -> Result<Option<ReplicaStep>, NoMemory>
        requires { from < 5 }
        ensures { IfOk result (λ step.
            step ≡ step_at_promise me self.now from ballot length (cast vote (option_copied value.entry))) }
    {
        let own = self.acceptor.length();
        let mut leader = self.memory.leader.copy()?;
        match leader.on_promise(from, ballot, length, vote, value, own)? {
            LeadStep::Late => Ok(None),
            LeadStep::More | LeadStep::Ready => {
                Ok(Some(ReplicaStep::quiet(self.memory.with_leader(leader))))
            }
            LeadStep::Catch { from: source, slot } => {
                let mut memory = self.memory.with_leader(leader);
                memory.goal = slot;
                memory.guide = source;
                Ok(Some(ReplicaStep::reply(memory, me, Body::Fetch { slot: own }, source)))
            }
            LeadStep::Inherit => {
                let accepts = accepts(self.alloc, me, own, &leader)?;
                Ok(Some(ReplicaStep::new(None, self.memory.with_leader(leader), accepts)))
            }
        }
    }

    /// A Refuse of this ballot comes, by a replica that promised that one: the candidacy or the lead is over, and the
    /// greater ballot is remembered. `None` exactly where the replica follows, has another ballot, or the promise isn't
    /// above it.
    #[tactic(auto, unfolding(paxos_spec::specs::Replica::on_refuse))]
    pub fn on_refuse(&self, ballot: u64, promised: u64) -> Option<ReplicaStep>
        ensures { result ≡ step_at_refuse self.now ballot promised }
    {
        let leader = &self.memory.leader;
        if leader.stage() == Stage::Follower || leader.ballot() != ballot || promised <= ballot {
            return None;
        }
        let mut memory = self.memory.down();
        memory.seen = self.memory.seen.max(promised);
        Some(ReplicaStep::quiet(memory))
    }
}
