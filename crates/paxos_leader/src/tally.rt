ghost use Rattle.std.specs.Prelude.{◌≡◌, ◌<◌, nat_le, IfOk, OnOk, OnErr};
ghost use Rattle.std.specs.Option.{option_copied};
ghost use Rattle.paxos_spec.specs.Five.{has, how_many};
ghost use Rattle.paxos_spec.specs.Leader.{no_tally, tallied};
ghost use Rattle.paxos_spec.specs.Votes.{cast, value_of, vote_seen};

use crate::quorum::{Members, NOBODY, has, is_majority, joined};
use paxos_spec::Cast;
use std::alloc::Global;
use std::marker::Model;
use wire_core::{NoMemory, OwnedValue, Value};

/// Greater than each replica's number.
const NO_REPLICA: u8 = 5;

/// What a candidate keeps of the Promises that it counted.
#[derive(Debug, Drop)]
pub struct Tally {
    /// Who told.
    tellers: Members,
    /// The greatest length told.
    longest: u64,
    /// The least replica that told it.
    source: u8,
    /// The vote of the greatest ballot told with it, of equal ones the first.
    best: Option<Cast>,
}

impl Model for Tally {
    ghost use Rattle.paxos_spec.specs.Leader.{Tally as TallyState};

    ghost Value = { TallyState };

    ghost use Rattle.paxos_spec.specs.Votes.{vote_seen};

    ghost view = { λ t. record {
      tellers = t.tellers;
      longest = t.longest;
      source = t.source;
      best = vote_seen t.best;
    } };
}

/// The vote as it was told, in a copy: none without a ballot above 0 and a value.
fn vote_told(alloc: Global, ballot: u64, value: Option<&Value>) -> Result<Option<Cast>, NoMemory>
    ensures { IfOk result (λ vote. vote_seen vote ≡ cast ballot (option_copied value.entry)) }
{
    match value {
        Some(value) if ballot > 0 => {
            let value = OwnedValue::of(alloc, value)?;
            Ok(Some(Cast { ballot, value }))
        }
        _ => Ok(None),
    }
}

/// A copy of the vote, where there is one.
fn copy_of_vote(alloc: Global, vote: &Option<Cast>) -> Result<Option<Cast>, NoMemory>
    ensures { IfOk result (λ copy. copy ≡ vote.now) }
{
    match vote {
        None => Ok(None),
        Some(vote) => Ok(Some(Cast {
            ballot: vote.ballot,
            value: vote.value.copy(alloc)?,
        })),
    }
}

/// The ballot of the vote as it was told, 0 where there is none.
fn ballot_told(ballot: u64, value: Option<&Value>) -> u64
    ensures { result ≡ (cast ballot (option_copied value.entry)).ballot }
{
    match value {
        None => 0,
        Some(_) => ballot,
    }
}

impl Tally {
    /// Nobody told anything.
    pub fn new() -> Tally
        ensures { result ≡ no_tally }
    {
        Tally {
            tellers: NOBODY,
            longest: 0,
            source: NO_REPLICA,
            best: None,
        }
    }

    /// Whether the replica's Promise was counted.
    pub fn has(&self, from: u8) -> bool
        requires { from < 5 }
        ensures { result ≡ has self.now.tellers from }
    {
        has(&self.tellers, from)
    }

    /// Whether three told.
    pub fn is_complete(&self) -> bool
        ensures { result ≡ nat_le 3 (how_many self.now.tellers) }
    {
        is_majority(&self.tellers)
    }

    /// The greatest length told.
    pub fn longest(&self) -> u64
        ensures { result ≡ self.now.longest }
    {
        self.longest
    }

    /// The least replica that told it.
    pub fn source(&self) -> u8
        ensures { result ≡ self.now.source }
    {
        self.source
    }

    /// Counts a Promise: the replica has a log of this length, and this vote for the slot at its end, or none where no
    /// ballot above 0 and value are given. Without memory nothing changed.
    pub fn tell(
        &mut self,
        alloc: Global,
        from: u8,
        length: u64,
        vote: u64,
        value: Option<&Value>,
    ) -> Result<(), NoMemory>
        requires { from < 5 }
        ensures ok { OnOk result (self.new ≡ tallied self.old from length (cast vote (option_copied value.entry))) }
        ensures err { OnErr result (self.new ≡ self.old) }
    {
        if self.longest < length {
            self.best = vote_told(alloc, vote, value)?;
            self.longest = length;
            self.source = from;
        } else if self.longest == length {
            if self.best_ballot() < ballot_told(vote, value) {
                self.best = vote_told(alloc, vote, value)?;
            }
            self.source = self.source.min(from);
        }
        self.tellers = joined(&self.tellers, from);
        Ok(())
    }

    /// Another one, the same in all.
    pub fn copy(&self, alloc: Global) -> Result<Tally, NoMemory>
        ensures { IfOk result (λ tally. tally ≡ self.now) }
    {
        Ok(Tally {
            tellers: self.tellers,
            longest: self.longest,
            source: self.source,
            best: copy_of_vote(alloc, &self.best)?,
        })
    }

    /// The value of the best vote, where there is one.
    pub fn into_pending(self) -> Option<OwnedValue>
        ensures { result ≡ value_of self.best }
    {
        match self.best {
            Some(vote) if vote.ballot > 0 => Some(vote.value),
            _ => None,
        }
    }

    /// The ballot of the best vote, 0 where there is none.
    fn best_ballot(&self) -> u64
        ensures { result ≡ self.now.best.ballot }
    {
        match &self.best {
            None => 0,
            Some(vote) => vote.ballot,
        }
    }
}
