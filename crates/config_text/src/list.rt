ghost use Rattle.std.specs.Prelude.{◌≡◌, Result, option_and_then, option_map};
ghost use Rattle.serde_json.specs.Find.{get};
ghost use Rattle.serde_json.specs.View.{items_view, view};
ghost use Rattle.config_text.specs.Faults.{Fault, Gives};
ghost use Rattle.config_text.specs.Members.{At, address_in, at, each, is_of_length, list_at, list_of_length, single};
ghost use Rattle.config_text.specs.Members.{socket_in};

use crate::fault::ConfigFault;
use crate::place::{Path, Place};
use crate::values::{address_in, socket_in};
use serde_json::Value;
use std::alloc::Global;
use wire_core::{Ip4, Items, Socket};

/// What a list may have as its members.
pub trait Entry: Sized {
    ghost entry: { At → Result Self Fault };

    /// The list's member at this place.
    fn read(place: &Place<'_>) -> Result<Self, ConfigFault>
        ensures { Gives result (entry (at place.now)) };
}

impl Entry for Socket {
    ghost entry = { single socket_in };

    fn read(place: &Place<'_>) -> Result<Socket, ConfigFault> {
        place.found(socket_in(place.value))
    }
}

impl Entry for Ip4 {
    ghost entry = { single address_in };

    fn read(place: &Place<'_>) -> Result<Ip4, ConfigFault> {
        place.found(address_in(place.value))
    }
}

/// Each member of a list with this path.
fn read_each<T: Entry + Drop>(
    alloc: Global,
    path: &str,
    values: &[Value],
) -> Result<Items<T>, ConfigFault>
    ensures { Gives result (each T.entry path.now 0 (items_view values.now)) }
{
    let mut entries = Items::new(alloc);
    for (index, value) in values.iter().enumerate() {
        let place = Place {
            alloc,
            path: Path::Item(path, index),
            value,
        };
        entries.push(T::read(&place)?)?;
    }
    Ok(entries)
}

/// Whether a list has from `low` to `high` members.
#[tactic(auto, using(crate::proofs::Lists::values_counted))]
fn is_of_length(values: &[Value], low: usize, high: usize) -> bool
    ensures { result ≡ is_of_length low high (items_view values.now) }
{
    low <= values.len() && values.len() <= high
}

/// The list that a value is, if it has from `low` to `high` members.
fn values_of<'a>(value: &'a Value, low: usize, high: usize) -> Option<&'a Vec<Value>>
    ensures { option_map (λ vs. items_view vs.now.items) result ≡ list_of_length low high (view value.now) }
{
    let values = value.as_array()?;
    if is_of_length(values, low, high) {
        Some(values)
    } else {
        None
    }
}

/// The list at a key, if it has from `low` to `high` members.
fn values_in<'a>(value: &'a Value, key: &str, low: usize, high: usize) -> Option<&'a Vec<Value>>
    ensures { option_map (λ vs. items_view vs.now.items) result
        ≡ option_and_then (list_of_length low high) (get key.now (view value.now)) }
{
    values_of(value.get(key)?, low, high)
}

impl<'a> Place<'a> {
    /// The list at a key, which has from `low` to `high` members.
    pub fn list<T: Entry + Drop>(
        &self,
        key: &str,
        low: usize,
        high: usize,
    ) -> Result<Items<T>, ConfigFault>
        ensures { Gives result (list_at T.entry low high (at self.now) key.now) }
    {
        let values = self.found_at(key, values_in(self.value, key, low, high))?;
        let path = self.key_path(key)?;
        read_each(self.alloc, &path, values)
    }
}
