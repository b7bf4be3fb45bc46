ghost use Rattle.std.specs.Prelude.{◌≡◌, ◌<◌, true, IfOk, OnOk, OnErr};
ghost use Rattle.std.specs.Option.{option_copied};
ghost use Rattle.paxos_leader.specs.Seen.{ballot_above};
ghost use Rattle.paxos_spec.specs.Leader.{arrive, bare, campaign, is_catching, is_idle, lead_accepted, lead_promise};
ghost use Rattle.paxos_spec.specs.Leader.{lead_reached, new_leader, propose, ready, stepped_down, third_promise};
ghost use Rattle.paxos_spec.specs.Leader.{value_out};
ghost use Rattle.paxos_spec.specs.Votes.{cast};

use crate::quorum::{Members, NOBODY, has, is_majority, joined};
use crate::tally::Tally;
use paxos_spec::{Counted, LeadStep, Proposal, Stage};
use std::alloc::Global;
use std::marker::Model;
use std::mem::replace;
use wire_core::{NoMemory, OwnedValue, Value};

/// Ballots go round: one for each of the five replicas.
const BALLOTS_A_ROUND: u64 = 5;

/// One replica on its way to lead. It keeps its allocator.
#[derive(Debug, Drop)]
pub struct Leader {
    alloc: Global,
    stage: Stage,
    ballot: u64,
    /// The Promises of this candidacy.
    tally: Tally,
    /// The length to catch up to.
    sought: u64,
    /// The value to inherit there.
    pending: Option<OwnedValue>,
    /// What is outstanding.
    out: Option<Proposal>,
    /// Who accepted it.
    counted: Members,
}

impl Model for Leader {
    ghost use Rattle.paxos_spec.specs.Leader.{LeaderState};

    ghost Value = { LeaderState };

    ghost view = { λ l. record {
      stage = l.stage;
      ballot = l.ballot;
      tally = l.tally;
      sought = l.sought;
      pending = l.pending;
      out = l.out;
      counted = l.counted;
    } };
}

/// The ballot of a new candidate: its own, and above this one. `None` exactly where it exceeds 64 bits.
fn ballot_above(above: u64, index: u8) -> Option<u64>
    requires { index < 5 }
    ensures { result ≡ ballot_above above index }
{
    let round = above / BALLOTS_A_ROUND + 1;
    round
        .checked_mul(BALLOTS_A_ROUND)?
        .checked_add(u64::from(index))
}

/// A copy of the value, where there is one.
fn copy_of_value(alloc: Global, value: &Option<OwnedValue>) -> Result<Option<OwnedValue>, NoMemory>
    ensures { IfOk result (λ copy. copy ≡ value.now) }
{
    match value {
        None => Ok(None),
        Some(value) => Ok(Some(value.copy(alloc)?)),
    }
}

/// A copy of the proposal, where there is one.
fn copy_of_proposal(
    alloc: Global,
    proposal: &Option<Proposal>,
) -> Result<Option<Proposal>, NoMemory>
    ensures { IfOk result (λ copy. copy ≡ proposal.now) }
{
    match proposal {
        None => Ok(None),
        Some(proposal) => Ok(Some(Proposal {
            slot: proposal.slot,
            value: proposal.value.copy(alloc)?,
        })),
    }
}

impl Leader {
    /// A Follower of ballot 0.
    pub fn new(alloc: Global) -> Leader
        ensures { result ≡ new_leader }
    {
        Leader {
            alloc,
            stage: Stage::Follower,
            ballot: 0,
            tally: Tally::new(),
            sought: 0,
            pending: None,
            out: None,
            counted: NOBODY,
        }
    }

    /// How far it is.
    pub fn stage(&self) -> Stage
        ensures { result ≡ self.now.stage }
    {
        self.stage
    }

    /// The ballot of its last candidacy, at first 0.
    pub fn ballot(&self) -> u64
        ensures { result ≡ self.now.ballot }
    {
        self.ballot
    }

    /// Whether it is Primary.
    pub fn ready(&self) -> bool
        ensures { result ≡ ready self.now }
    {
        self.stage == Stage::Primary
    }

    /// The value that stands outstanding. `None` exactly where none does.
    pub fn outstanding(&self) -> Option<Value<'_>>
        ensures { result ≡ value_out self.now.out }
    {
        match &self.out {
            None => None,
            Some(out) => Some(out.value.as_value()),
        }
    }

    /// Whether nothing is outstanding.
    pub fn is_idle(&self) -> bool
        ensures { result ≡ is_idle self.now.out }
    {
        self.out.is_none()
    }

    /// The length that its log has to reach, while it is Catching.
    pub fn sought(&self) -> u64
        ensures { result ≡ self.now.sought }
    {
        self.sought
    }

    /// Another one, the same in all. It costs a copy of each value that this one has.
    pub fn copy(&self) -> Result<Leader, NoMemory>
        ensures { IfOk result (λ leader. leader ≡ self.now) }
    {
        Ok(Leader {
            alloc: self.alloc,
            stage: self.stage,
            ballot: self.ballot,
            tally: self.tally.copy(self.alloc)?,
            sought: self.sought,
            pending: copy_of_value(self.alloc, &self.pending)?,
            out: copy_of_proposal(self.alloc, &self.out)?,
            counted: self.counted,
        })
    }

    /// A new candidacy of this replica, from 0 to 4, at the ballot `(above / 5 + 1) * 5 + index`. `None` exactly where
    /// that exceeds 64 bits, and then nothing changed.
    pub fn campaign(&mut self, above: u64, index: u8) -> Option<u64>
        requires { index < 5 }
        ensures { (self.new, result) ≡ campaign self.old above index }
    {
        let ballot = ballot_above(above, index)?;
        self.restart(Stage::Candidate, ballot);
        Some(ballot)
    }

    /// A Promise of this replica, from 0 to 4: its log has this length, and its vote for the slot at the end is of
    /// ballot `vote` for this value; without a value, or at ballot 0, it has none. `own` is the length of the own log.
    /// `Late` exactly where the stage isn't Candidate, the ballot isn't the candidacy's, or this replica's was
    /// counted; then nothing changed. Without memory nothing changed.
    pub fn on_promise(
        &mut self,
        from: u8,
        ballot: u64,
        length: u64,
        vote: u64,
        value: Option<&Value>,
        own: u64,
    ) -> Result<LeadStep, NoMemory>
        requires { from < 5 }
        ensures ok { IfOk result (λ step.
            (self.new, step) ≡ lead_promise self.old from ballot length (cast vote (option_copied value.entry)) own) }
        ensures err { OnErr result (self.new ≡ self.old) }
    {
        if self.stage != Stage::Candidate || self.ballot != ballot || self.tally.has(from) {
            return Ok(LeadStep::Late);
        }
        self.tally.tell(self.alloc, from, length, vote, value)?;
        if self.tally.is_complete() {
            Ok(self.third_promise(own))
        } else {
            Ok(LeadStep::More)
        }
    }

    /// The log reached the length that was sought: the arrival there. The stage is Catching, and the length is
    /// [`Leader::sought`].
    pub fn reached(&mut self) -> LeadStep
        requires { is_catching self.old.stage ≡ true }
        ensures { (self.new, result) ≡ lead_reached self.old }
    {
        let pending = self.pending.take();
        self.arrive(self.sought, pending)
    }

    /// The value stands outstanding at this slot from now on. To be called where it is [`Leader::ready`] and
    /// [`Leader::is_idle`]. Without memory nothing changed.
    pub fn propose(&mut self, slot: u64, value: &Value) -> Result<(), NoMemory>
        requires stage { ready self.old ≡ true }
        requires idle { is_idle self.old.out ≡ true }
        ensures ok { OnOk result (self.new ≡ propose self.old slot value.now) }
        ensures err { OnErr result (self.new ≡ self.old) }
    {
        let value = OwnedValue::of(self.alloc, value)?;
        self.restart(Stage::Primary, self.ballot);
        self.out = Some(Proposal { slot, value });
        Ok(())
    }

    /// An Accepted of this replica, from 0 to 4. `Late` exactly where the stage is neither Inheriting nor Primary, the
    /// ballot isn't its own, nothing is outstanding at that slot, or this replica's was counted; then nothing changed.
    /// `Chosen` is the third: nothing is outstanding any more, and the stage is Primary.
    pub fn on_accepted(&mut self, from: u8, ballot: u64, slot: u64) -> Counted
        requires { from < 5 }
        ensures { (self.new, result) ≡ lead_accepted self.old from ballot slot }
    {
        let step = self.accepted_step(from, ballot, slot);
        match step {
            Counted::Late => {}
            Counted::More => self.counted = joined(&self.counted, from),
            Counted::Chosen => self.restart(Stage::Primary, self.ballot),
        }
        step
    }

    /// It is a Follower from now on. All but the ballot is forgotten.
    pub fn step_down(&mut self)
        ensures { self.new ≡ stepped_down self.old }
    {
        self.restart(Stage::Follower, self.ballot);
    }

    /// A Follower of the same ballot, as [`Leader::step_down`] leaves it.
    pub fn stepped_down(&self) -> Leader
        ensures { result ≡ stepped_down self.now }
    {
        let mut leader = Leader::new(self.alloc);
        leader.ballot = self.ballot;
        leader
    }

    /// What an Accepted comes to.
    fn accepted_step(&self, from: u8, ballot: u64, slot: u64) -> Counted
        requires { from < 5 }
        ensures { result ≡ (lead_accepted self.now from ballot slot).1 }
    {
        let Some(out) = &self.out else {
            return Counted::Late;
        };
        let is_leading = self.stage == Stage::Inheriting || self.stage == Stage::Primary;
        if !is_leading || self.ballot != ballot || out.slot != slot || has(&self.counted, from) {
            Counted::Late
        } else if is_majority(&joined(&self.counted, from)) {
            Counted::Chosen
        } else {
            Counted::More
        }
    }

    /// Of this stage and ballot, and nothing else.
    fn restart(&mut self, stage: Stage, ballot: u64)
        ensures { self.new ≡ bare stage ballot }
    {
        self.stage = stage;
        self.ballot = ballot;
        self.tally = Tally::new();
        self.sought = 0;
        self.pending = None;
        self.out = None;
        self.counted = NOBODY;
    }

    /// The arrival at a length, where this value pends.
    fn arrive(&mut self, at: u64, pending: Option<OwnedValue>) -> LeadStep
        ensures { (self.new, result) ≡ arrive self.old at pending }
    {
        match pending {
            None => {
                self.restart(Stage::Primary, self.ballot);
                LeadStep::Ready
            }
            Some(value) => {
                self.restart(Stage::Inheriting, self.ballot);
                self.out = Some(Proposal { slot: at, value });
                LeadStep::Inherit
            }
        }
    }

    /// What the third Promise comes to, with a log of this length.
    fn third_promise(&mut self, own: u64) -> LeadStep
        ensures { (self.new, result) ≡ third_promise self.old self.old.tally own }
    {
        let tally = replace(&mut self.tally, Tally::new());
        let longest = tally.longest();
        let source = tally.source();
        let pending = tally.into_pending();
        if own < longest {
            self.restart(Stage::Catching, self.ballot);
            self.sought = longest;
            self.pending = pending;
            LeadStep::Catch {
                from: source,
                slot: longest,
            }
        } else if own == longest {
            self.arrive(own, pending)
        } else {
            self.arrive(own, None)
        }
    }
}
