ghost use Rattle.std.specs.Prelude.{◌≡◌, ◌<◌, ◌^◌, nat_le, option_map, slice_get, IfOk, OnOk, OnErr};
ghost use Rattle.paxos_spec.specs.Acceptor.{accept_entry, accept_step, acted, chosen_entry, chosen_step, follow};
ghost use Rattle.paxos_spec.specs.Acceptor.{is_late, most_slots, new_acceptor, prepare_entry, prepare_step, reach};
ghost use Rattle.paxos_spec.specs.Acceptor.{stands};
ghost use Rattle.wire_core.specs.declared.entry.Entry.TheVariants as entry;
ghost use Rattle.paxos_acceptor.specs.Seen.{pair_of, standing};
ghost use Rattle.paxos_spec.specs.Votes.{vote_seen};

use paxos_spec::{AcceptStep, Cast, ChosenStep, PrepareStep};
use std::alloc::Global;
use std::cmp::Ordering;
use std::marker::Model;
use wire_core::{Entry, NoMemory, OwnedValue, Value, is_same_value};

/// The most slots that a log has.
const MOST_SLOTS: u64 = 1 << 58;

/// The kind of the entry that the last step made.
#[derive(Clone, Copy, Debug, PartialEq, Eq)]
enum Made {
    Nothing,
    Promise,
    Vote,
    Learn,
}

/// What a replica promised, voted for and learned.
#[derive(Debug, Drop)]
pub struct Acceptor {
    alloc: Global,
    /// The ballot below which nothing is followed.
    promise: u64,
    /// The vote for the slot at the log's end.
    vote: Option<Cast>,
    /// What was learned, by slot.
    log: Vec<Cast>,
    made: Made,
}

impl Model for Acceptor {
    ghost use Rattle.paxos_spec.specs.Acceptor.{Acceptor};

    ghost Value = { Acceptor };

    ghost use Rattle.paxos_acceptor.specs.Seen.{entry_made};
    ghost use Rattle.paxos_spec.specs.Votes.{vote_seen};

    ghost view = { λ a. record {
      state = record { promise = a.promise; vote = vote_seen a.vote; log = a.log.items };
      entry = entry_made a.made a.promise a.vote a.log.items;
    } };
}

/// The value with its ballot, in a copy.
fn cast(alloc: Global, ballot: u64, value: &Value) -> Result<Cast, NoMemory>
    ensures { IfOk result (λ cast. cast ≡ record { ballot = ballot; value = value.now }) }
{
    let value = OwnedValue::of(alloc, value)?;
    Ok(Cast { ballot, value })
}

/// Whether this vote stands.
fn is_standing(vote: &Option<Cast>, ballot: u64, value: &Value) -> bool
    ensures { result ≡ stands (vote_seen vote.now) ballot value.now }
{
    match vote {
        None => false,
        Some(vote) => {
            ballot > 0 && vote.ballot == ballot && is_same_value(&vote.value.as_value(), value)
        }
    }
}

impl Acceptor {
    /// An acceptor that promised, voted for and learned nothing.
    pub fn new(alloc: Global) -> Acceptor
        ensures { result ≡ record { state = new_acceptor; entry = None } }
    {
        Acceptor {
            alloc,
            promise: 0,
            vote: None,
            log: Vec::new(alloc),
            made: Made::Nothing,
        }
    }

    /// Folds in an entry of the replica's journal. A Learn past 2^58 slots, a Boot and an Epoch change nothing that is
    /// kept. Without memory nothing changed.
    pub fn recover(&mut self, e: &Entry) -> Result<(), NoMemory>
        ensures ok { OnOk result (self.new ≡ record { state = follow self.old.state e.now; entry = None }) }
        ensures err { OnErr result (self.new ≡ self.old) }
    {
        match e {
            Entry::Boot { .. } | Entry::Epoch { .. } => {}
            Entry::Promise { ballot } => self.promise = self.promise.max(*ballot),
            Entry::Vote { ballot, value } => {
                self.vote = Some(cast(self.alloc, *ballot, value)?);
                self.promise = self.promise.max(*ballot);
            }
            Entry::Learn { ballot, value } => {
                if !self.is_full() {
                    self.learn(*ballot, value)?;
                }
            }
        }
        self.made = Made::Nothing;
        Ok(())
    }

    /// A Prepare of this ballot. `Refuse` exactly below the promise, `Again` exactly at it; else the ballot is
    /// promised.
    pub fn on_prepare(&mut self, ballot: u64) -> PrepareStep
        ensures step { result ≡ prepare_step self.old.state ballot }
        ensures entry { self.new ≡ acted self.old.state (prepare_entry ballot result) }
    {
        let step = self.prepare_step(ballot);
        if step == PrepareStep::Promise {
            self.promise = ballot;
            self.made = Made::Promise;
        } else {
            self.made = Made::Nothing;
        }
        step
    }

    /// An Accept of the value at this ballot for this slot. The first that applies: `Refuse` below the promise; `Late`
    /// where the slot has its value or the log is full; `Behind` where the slot is above the length; `Again` where the
    /// same vote stands; else the value has the vote, and the ballot is promised. Without memory nothing changed.
    pub fn on_accept(
        &mut self,
        ballot: u64,
        slot: u64,
        value: &Value,
    ) -> Result<AcceptStep, NoMemory>
        ensures step { IfOk result (λ step. step ≡ accept_step self.old.state ballot slot value.now) }
        ensures entry { IfOk result (λ step. self.new ≡ acted self.old.state (accept_entry ballot value.now step)) }
        ensures err { OnErr result (self.new ≡ self.old) }
    {
        let step = self.accept_step(ballot, slot, value);
        if step == AcceptStep::Voted {
            self.vote = Some(cast(self.alloc, ballot, value)?);
            self.promise = ballot;
            self.made = Made::Vote;
        } else {
            self.made = Made::Nothing;
        }
        Ok(step)
    }

    /// A Chosen of the value at this ballot for this slot. `Late` and `Behind` by the same tests as for an Accept; else
    /// the log has the value, no vote stands, and the ballot is promised. Without memory nothing changed.
    pub fn on_chosen(
        &mut self,
        slot: u64,
        ballot: u64,
        value: &Value,
    ) -> Result<ChosenStep, NoMemory>
        ensures step { IfOk result (λ step. step ≡ chosen_step self.old.state slot) }
        ensures entry { IfOk result (λ step. self.new ≡ acted self.old.state (chosen_entry ballot value.now step)) }
        ensures err { OnErr result (self.new ≡ self.old) }
    {
        let step = self.chosen_step(slot);
        if step == ChosenStep::Learned {
            self.learn(ballot, value)?;
        } else {
            self.made = Made::Nothing;
        }
        Ok(step)
    }

    /// The entry that the last step made, which has to be durable before the step's answer is told. `None` exactly
    /// where that step was none of Promise, Voted and Learned.
    pub fn durable_entry(&self) -> Option<Entry<'_>>
        ensures { result ≡ self.now.entry }
    {
        match self.made {
            Made::Nothing => None,
            Made::Promise => Some(Entry::Promise {
                ballot: self.promise,
            }),
            Made::Vote => {
                let vote = self.vote.as_ref()?;
                Some(Entry::Vote {
                    ballot: vote.ballot,
                    value: vote.value.as_value(),
                })
            }
            Made::Learn => {
                let learned = self.log.last()?;
                Some(Entry::Learn {
                    ballot: learned.ballot,
                    value: learned.value.as_value(),
                })
            }
        }
    }

    /// The ballot below which nothing is followed, at first 0.
    pub fn promised(&self) -> u64
        ensures { result ≡ self.now.state.promise }
    {
        self.promise
    }

    /// The number of slots that were learned.
    pub fn length(&self) -> u64
        ensures { result ≡ reach self.now.state }
    {
        self.log.len() as u64
    }

    /// Whether the log has no room: it has 2^58 slots.
    pub fn is_full(&self) -> bool
        ensures { result ≡ nat_le most_slots (reach self.now.state) }
    {
        MOST_SLOTS <= self.length()
    }

    /// What [`Acceptor::on_prepare`] would answer.
    pub fn prepare_step(&self, ballot: u64) -> PrepareStep
        ensures { result ≡ prepare_step self.now.state ballot }
    {
        match ballot.cmp(&self.promise) {
            Ordering::Less => PrepareStep::Refuse {
                promised: self.promise,
            },
            Ordering::Equal => PrepareStep::Again,
            Ordering::Greater => PrepareStep::Promise,
        }
    }

    /// What [`Acceptor::on_accept`] would answer.
    pub fn accept_step(&self, ballot: u64, slot: u64, value: &Value) -> AcceptStep
        ensures { result ≡ accept_step self.now.state ballot slot value.now }
    {
        if ballot < self.promise {
            AcceptStep::Refuse {
                promised: self.promise,
            }
        } else if self.is_late(slot) {
            AcceptStep::Late
        } else if self.length() < slot {
            AcceptStep::Behind {
                length: self.length(),
            }
        } else if is_standing(&self.vote, ballot, value) {
            AcceptStep::Again
        } else {
            AcceptStep::Voted
        }
    }

    /// What [`Acceptor::on_chosen`] would answer.
    pub fn chosen_step(&self, slot: u64) -> ChosenStep
        ensures { result ≡ chosen_step self.now.state slot }
    {
        if self.is_late(slot) {
            ChosenStep::Late
        } else if self.length() < slot {
            ChosenStep::Behind {
                length: self.length(),
            }
        } else {
            ChosenStep::Learned
        }
    }

    /// The ballot and value of the vote. `None` exactly where no vote stands.
    pub fn vote(&self) -> Option<(u64, Value<'_>)>
        ensures { result ≡ option_map pair_of (standing self.now.state.vote) }
    {
        match &self.vote {
            None => None,
            Some(vote) => {
                if vote.ballot == 0 {
                    None
                } else {
                    Some((vote.ballot, vote.value.as_value()))
                }
            }
        }
    }

    /// The ballot and value that were learned at this slot. `None` exactly from the length on.
    pub fn entry(&self, slot: u64) -> Option<(u64, Value<'_>)>
        ensures { result ≡ option_map pair_of (slice_get self.now.state.log slot) }
    {
        let learned = self.log.get(slot as usize)?;
        Some((learned.ballot, learned.value.as_value()))
    }

    /// Whether the slot has its value, or the log is full.
    fn is_late(&self, slot: u64) -> bool
        ensures { result ≡ is_late self.now.state slot }
    {
        slot < self.length() || self.is_full()
    }

    /// Adds what was learned at the log's end. Without memory nothing changed.
    fn learn(&mut self, ballot: u64, value: &Value) -> Result<(), NoMemory>
        requires { reach self.old.state < 2 ^ 58 }
        ensures ok { OnOk result (self.new ≡ acted self.old.state (Some (entry.Learn ballot value.now))) }
        ensures err { OnErr result (self.new ≡ self.old) }
    {
        let learned = cast(self.alloc, ballot, value)?;
        self.log.push(learned)?;
        self.vote = None;
        self.promise = self.promise.max(ballot);
        self.made = Made::Learn;
        Ok(())
    }
}
