ghost use Rattle.std.specs.Prelude.{◌≡◌, OnOk, OnErr, IfOk};
ghost use Rattle.vip_config.specs.Claims.{claim, claimed, nothing_claimed, EndsAs, Tells};

use crate::broken::Broken;
use crate::place::Place;
use indexmap::IndexMap;
use std::alloc::Global;
use std::hash::Hash;
use std::marker::Model;
use wire_core::NoMemory;

/// A walk over members, each of which claims a key that may stand once. It remembers who has which key, and the first
/// member that breaks the rule; what comes later changes nothing.
#[derive(Drop)]
pub struct Walk<K: Eq + Hash, V> {
    owners: IndexMap<K, V>,
    broken: Option<Place>,
}

impl<K: Eq + Hash, V> Model for Walk<K, V> {
    ghost use Rattle.vip_config.specs.Claims.{Claimed};

    ghost Value = { Claimed K V };

    ghost view = { λ w. record { owners = w.owners.entries; broken = w.broken } };
}

impl<K: Eq + Hash + Drop, V: Drop> Walk<K, V> {
    /// Nothing is claimed.
    pub fn new(alloc: Global) -> Walk<K, V>
        ensures { result ≡ nothing_claimed }
    {
        Walk {
            owners: IndexMap::new(alloc),
            broken: None,
        }
    }

    /// A member claims a key for an owner. It breaks the rule where it doesn't fit, or where the key is claimed.
    pub fn claim(&mut self, place: Place, key: K, owner: V, fits: bool) -> Result<(), NoMemory>
        ensures { OnOk result (self.new ≡ claimed K.eq self.old (claim place key owner fits)) }
    {
        if self.broken.is_some() {
            return Ok(());
        }
        if !fits || self.owners.contains_key(&key) {
            self.broken = Some(place);
            return Ok(());
        }
        self.owners.insert(key, owner)?;
        Ok(())
    }

    /// Who has which key, or the first member that breaks the rule.
    pub fn end(self) -> Result<IndexMap<K, V>, Broken>
        ensures { EndsAs self result }
    {
        let Walk { owners, broken } = self;
        match broken {
            None => Ok(owners),
            Some(place) => Err(Broken::At(place)),
        }
    }

    /// Whether each member keeps the rule, or the first that breaks it.
    pub fn check(self) -> Result<(), Broken>
        ensures { Tells self.broken result }
    {
        match self.broken {
            None => Ok(()),
            Some(place) => Err(Broken::At(place)),
        }
    }
}
