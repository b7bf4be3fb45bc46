ghost use Rattle.std.specs.Prelude.{◌≡◌, ◌≤◌, IfOk, map, not, option_map, string_bytes, string_cmp};
ghost use Rattle.std.specs.BTreeMap.{keys};
ghost use Rattle.std.specs.List.{find, list_any};
ghost use Rattle.std.specs.List.Sorted.{IsStrictlySortedBy};
ghost use Rattle.std.specs.Option.{option_copied};
ghost use Rattle.std.specs.Str.{bytes_eq};
ghost use Rattle.serde_json.specs.View.{view};
ghost use Rattle.config_text.specs.Faults.{Gives};
ghost use Rattle.config_text.specs.Members.{address_in, at, member_at, nothing_but, number_in, object, port_in};
ghost use Rattle.config_text.specs.Members.{proto_in, socket_in, unlisted, whole_in};

use crate::fault::ConfigFault;
use crate::place::Place;
use crate::values::{address_in, number_in, proto_in, socket_in, whole_in};
use serde_json::{Map, Value};
use wire_core::{Ip4, Proto, Socket};

/// Whether a key is one of these.
fn is_among(listed: &[&str], key: &str) -> bool
    ensures { result ≡ list_any (λ other. bytes_eq key.now other.now) listed.now }
{
    listed.iter().any(|other| key == *other)
}

/// The first key that isn't one of these, in byte order.
fn first_unlisted<'a>(members: &'a Map<String, Value>, listed: &[&str]) -> Option<&'a String>
    ensures found { option_copied result
        ≡ find (λ key. not (list_any (λ other. bytes_eq (string_bytes key) other.now) listed.now)) (keys members.now) }
    ensures ordered { IsStrictlySortedBy string_cmp (keys members.now) }
{
    members.keys().find(|key| !is_among(listed, key.as_str()))
}

/// The first key of an object that isn't one of these, in byte order.
fn unlisted<'a>(value: &'a Value, listed: &[&str]) -> Option<&'a String>
    ensures { option_map (λ key. string_bytes key.now) result
        ≡ unlisted (map (λ k. k.now) listed.now) (view value.now) }
{
    first_unlisted(value.as_object()?, listed)
}

impl<'a> Place<'a> {
    /// A number from `low` to `high` at a key.
    pub fn number(&self, key: &str, low: u64, high: u64) -> Result<u64, ConfigFault>
        ensures read { Gives result (member_at (number_in low high) (at self.now) key.now) }
        ensures within { IfOk result (λ n. n ≤ high) }
    {
        let number = match self.value.get(key) {
            Some(value) => number_in(value, low, high),
            None => None,
        };
        self.found_at(key, number)
    }

    /// A number of 64 bits at a key.
    pub fn whole(&self, key: &str) -> Result<u64, ConfigFault>
        ensures { Gives result (member_at whole_in (at self.now) key.now) }
    {
        self.found_at(key, self.value.get(key).and_then(whole_in))
    }

    /// A port from 1 at a key.
    pub fn port(&self, key: &str) -> Result<u16, ConfigFault>
        ensures { Gives result (member_at port_in (at self.now) key.now) }
    {
        Ok(self.number(key, 1, 65535)? as u16)
    }

    /// An address at a key.
    pub fn address(&self, key: &str) -> Result<Ip4, ConfigFault>
        ensures { Gives result (member_at address_in (at self.now) key.now) }
    {
        self.found_at(key, self.value.get(key).and_then(address_in))
    }

    /// A socket at a key.
    pub fn socket(&self, key: &str) -> Result<Socket, ConfigFault>
        ensures { Gives result (member_at socket_in (at self.now) key.now) }
    {
        self.found_at(key, self.value.get(key).and_then(socket_in))
    }

    /// A protocol at a key.
    pub fn proto(&self, key: &str) -> Result<Proto, ConfigFault>
        ensures { Gives result (member_at proto_in (at self.now) key.now) }
    {
        self.found_at(key, self.value.get(key).and_then(proto_in))
    }

    /// That the value is an object.
    pub fn is_object(&self) -> Result<(), ConfigFault>
        ensures { Gives result (object (at self.now)) }
    {
        let members = self.value.as_object();
        self.found(members.map(|_| ()))
    }

    /// That the object has no key but these.
    pub fn nothing_but(&self, listed: &[&str]) -> Result<(), ConfigFault>
        ensures { Gives result (nothing_but (map (λ key. key.now) listed.now) (at self.now)) }
    {
        match unlisted(self.value, listed) {
            Some(key) => self.found_at(key.as_str(), None),
            None => Ok(()),
        }
    }
}
