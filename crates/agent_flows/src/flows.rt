ghost use Rattle.std.specs.Prelude.{◌≡◌, ◌≤◌, ◌<◌, ◌++◌, ◌∷◌, [], not, filter, find, map, length, slice_get, true, Some, IfSome, IfOk, OnOk, OnErr};
ghost use Rattle.wire_core.specs.Members.{In};
ghost use Rattle.agent_spec.specs.declared.connection.Connection.{Connection as Kept};
ghost use Rattle.agent_spec.specs.Connections.{at_private, at_time, by_private, by_public, closed, has_private, is_idle, most};
ghost use Rattle.agent_spec.specs.Connections.{private_key, public_key, with_peer};
ghost use Rattle.agent_spec.specs.Wrapped.{met_again};
ghost use Rattle.agent_flows.specs.Changes.{made};
ghost use Rattle.agent_flows.specs.Flows.{first_then, opened, without};

use crate::change::Change;
use crate::keys::{private_key, public_key};
use crate::looked::Looked;
use crate::opened::Opened;
use crate::places::{forget, place_of, put};
use crate::slots::{look_on, nth, past_last, resumed, slot_at};
use agent_spec::Connection;
use indexmap::IndexMap;
use std::alloc::Global;
use std::marker::Model;
use wire_core::{FlowKey, Ip4, NoMemory};

/// The most connections that are kept.
const MOST: usize = 65_536;

/// Connections in the order in which they were opened, found by both keys.
#[derive(Drop)]
pub struct Flows {
    alloc: Global,
    /// In the order of opening. A connection that was closed leaves its slot empty.
    slots: Vec<Option<Connection>>,
    /// How many slots aren't empty.
    live: usize,
    by_private: IndexMap<FlowKey, usize>,
    by_public: IndexMap<FlowKey, usize>,
    looked: Looked,
}

impl Model for Flows {
    ghost use Rattle.std.specs.Prelude.{List};
    ghost use Rattle.indexmap.specs.IndexMap.{get};
    ghost use Rattle.wire_core.specs.Same.{same_key};
    ghost use Rattle.agent_spec.specs.declared.connection.Connection.{Connection as Kept};
    ghost use Rattle.agent_flows.specs.Slots.{IsKept, listed};

    ghost Value = { List Kept };

    ghost view = { λ t. listed t.slots.items };

    ghost invariant = { λ t.
        IsKept t.slots.items t.live (get same_key t.by_private) (get same_key t.by_public) t.looked };
}

impl Flows {
    /// No connections. Takes no memory.
    #[tactic(auto, unfolding(crate::specs::Slots::listed))]
    pub fn new(alloc: Global) -> Flows
        ensures { result ≡ [] }
    {
        Flows {
            alloc,
            slots: Vec::new(alloc),
            live: 0,
            by_private: IndexMap::new(alloc),
            by_public: IndexMap::new(alloc),
            looked: Looked::nothing(),
        }
    }

    /// The number of connections, at most 65,536.
    pub fn len(&self) -> usize
        ensures len { result ≡ length self.now }
        ensures most { length self.now ≤ most }
    {
        self.live
    }

    /// The connection of a machine's packets. `None` exactly where none has this private key.
    pub fn find_private(&self, key: &FlowKey) -> Option<Connection>
        ensures found { result ≡ by_private key.now self.now }
        ensures own { (c : Kept) → In c self.now → has_private key.now c ≡ true → result ≡ Some c }
    {
        slot_at(&self.slots, place_of(&self.by_private, key))
    }

    /// The connection of packets that leave. `None` exactly where none has this public key.
    pub fn find_public(&self, key: &FlowKey) -> Option<Connection>
        ensures { result ≡ by_public key.now self.now }
    {
        slot_at(&self.slots, place_of(&self.by_public, key))
    }

    /// The i-th opened of those that are kept, from 0. `None` exactly from their count on. Walks over those before it.
    pub fn connection(&self, i: usize) -> Option<Connection>
        ensures { result ≡ slice_get self.now i }
    {
        nth(&self.slots, i)
    }

    /// The connections alone, without empty slots.
    fn compacted(&self) -> Result<Flows, NoMemory>
        ensures { IfOk result (λ flows. flows ≡ self.now) }
    {
        let mut flows = Flows::new(self.alloc);
        for slot in self.slots.iter() {
            if let Some(c) = slot {
                flows.add(*c)?;
            }
        }
        Ok(flows)
    }

    /// The last slot needn't be looked at again for idleness, where all before it were. So a tick finds those that
    /// opened since the last one, and those that were moved together, already looked at.
    fn notice_last(&mut self)
        ensures { self.new ≡ self.old }
    {
        self.looked = past_last(&self.slots, self.looked);
    }

    /// One connection more, where there is room.
    fn add(&mut self, c: Connection) -> Result<(), NoMemory>
        requires private { by_private (private_key c) self.old ≡ None }
        requires public { by_public (public_key c) self.old ≡ None }
        requires few { length self.old < most }
        ensures ok { OnOk result (self.new ≡ self.old ++ c ∷ []) }
        ensures err { OnErr result (self.new ≡ self.old) }
    {
        self.slots.reserve(1)?;
        self.by_private.reserve(1)?;
        self.by_public.reserve(1)?;
        let place = self.slots.len();
        put(&mut self.by_private, private_key(&c), place);
        put(&mut self.by_public, public_key(&c), place);
        self.slots.push(Some(c)).unwrap();
        self.live += 1;
        self.notice_last();
        Ok(())
    }

    /// One connection more, where fewer than 65,536 are kept; else they stay as they were, as they do without memory.
    pub fn open(&mut self, c: Connection) -> Result<Opened, NoMemory>
        requires private { by_private (private_key c) self.old ≡ None }
        requires public { by_public (public_key c) self.old ≡ None }
        ensures ok { IfOk result (λ came. (self.new, came) ≡ opened self.old c) }
        ensures err { OnErr result (self.new ≡ self.old) }
    {
        if self.live >= MOST {
            return Ok(Opened::Full);
        }
        if self.slots.len() >= 2 * self.live + 64 {
            let mut flows = self.compacted()?;
            flows.add(c)?;
            *self = flows;
        } else {
            self.add(c)?;
        }
        Ok(Opened::Yes)
    }

    /// Changes the connection with this private key, if there is one.
    fn change(&mut self, key: &FlowKey, change: Change)
        ensures { self.new ≡ map (at_private key.now (made change)) self.old }
    {
        if let Some(place) = place_of(&self.by_private, key) {
            if let Some(c) = slot_at(&self.slots, Some(place)) {
                let changed = change.made(&c);
                self.slots[place] = Some(changed);
                self.looked = self.looked.with_use(changed.last);
            }
        }
    }

    /// The connection with this private key, if there is one, was used now (in milliseconds).
    pub fn touch(&mut self, key: &FlowKey, now: u64)
        ensures { self.new ≡ map (at_private key.now (at_time now)) self.old }
    {
        self.change(key, Change::Used { now });
    }

    /// The connection with this private key, if there is one, has this peer and number.
    pub fn set_peer(&mut self, key: &FlowKey, peer: Option<Ip4>, n: u64)
        ensures { self.new ≡ map (at_private key.now (with_peer peer n)) self.old }
    {
        self.change(key, Change::Peer { peer, n });
    }

    /// The connection with this private key, if there is one, was used now, and its peer is cleared where that is
    /// asked.
    pub fn meet_again(&mut self, key: &FlowKey, now: u64, clear: bool)
        ensures { self.new ≡ map (at_private key.now (met_again now clear)) self.old }
    {
        self.change(key, Change::Again { now, clear });
    }

    /// Takes out the connection with this private key. `None` exactly where there is none.
    pub fn close(&mut self, key: &FlowKey) -> Option<Connection>
        ensures result { result ≡ by_private key.now self.old }
        ensures own { (c : Kept) → In c self.old → has_private key.now c ≡ true → result ≡ Some c }
        ensures left { self.new ≡ closed key.now self.old }
    {
        let place = place_of(&self.by_private, key);
        match slot_at(&self.slots, place) {
            Some(c) => {
                let place = place.unwrap();
                forget(&mut self.by_private, private_key(&c));
                forget(&mut self.by_public, public_key(&c));
                self.slots[place] = None;
                self.live -= 1;
                Some(c)
            }
            None => None,
        }
    }

    /// Takes out the first opened of those that are idle for so long (in milliseconds). `None` exactly where none is. A
    /// walk by calls with one time looks at each connection at most once, and at none that can't be idle yet.
    pub fn expire(&mut self, now: u64, idle: u64) -> Option<Connection>
        ensures first { result ≡ find (is_idle now idle) self.old }
        ensures own { IfSome result (λ c. (d : Kept) → In d self.old → has_private (private_key c) d ≡ true → d ≡ c) }
        ensures left { self.new ≡ without result self.old }
        ensures walk { filter (is_idle now idle) self.old ≡ first_then result (filter (is_idle now idle) self.new) }
        ensures others { filter (λ c. not (is_idle now idle c)) self.new ≡ filter (λ c. not (is_idle now idle c)) self.old }
    {
        let from = resumed(&self.slots, self.looked, now, idle);
        self.looked = look_on(&self.slots, from, now, idle);
        let place = self.looked.at;
        match slot_at(&self.slots, Some(place)) {
            Some(c) => {
                forget(&mut self.by_private, private_key(&c));
                forget(&mut self.by_public, public_key(&c));
                self.slots[place] = None;
                self.live -= 1;
                Some(c)
            }
            None => None,
        }
    }

    /// Takes out all that are idle for so long (in milliseconds).
    pub fn forget_idle(&mut self, now: u64, idle: u64)
        ensures { self.new ≡ filter (λ c. not (is_idle now idle c)) self.old }
    {
        while self.expire(now, idle).is_some() {}
    }
}
