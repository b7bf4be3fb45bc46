ghost use Rattle.std.specs.Prelude.{◌≡◌, ◌<◌, ◌≤◌, ◌++◌, ◌∷◌, [], map, length, IfOk, Ok};
ghost use Rattle.std.specs.List.{flat_map};
ghost use Rattle.wire_core.specs.Commands.{command_bytes, value_bytes};
ghost use Rattle.wire_core.specs.Members.{Each};
ghost use Rattle.wire_core.specs.Reading.{commands_in, value_at};
ghost use Rattle.wire_core.specs.Same.{same_value};
ghost use Rattle.wire_core.specs.Views.{IsWritable, command_of};

use crate::command::Command;
use crate::memory::NoMemory;
use crate::value::{Value, spelling_of, value_of_spelling};
use std::alloc::Global;
use std::marker::Model;

/// A value that owns its spelling.
#[derive(Debug, Drop)]
pub struct OwnedValue {
    bytes: Vec<u8>,
}

impl Model for OwnedValue {
    ghost use Rattle.std.specs.Prelude.{◌≡◌, List, Ok, []};
    ghost use Rattle.wire_core.specs.Commands.{LogCommand};

    ghost Value = { List LogCommand };

    ghost use Rattle.wire_core.specs.Reading.{value_at, commands_in};

    ghost view = { λ v. commands_in v.bytes.items };

    ghost invariant = { λ v. value_at v.bytes.items ≡ Ok (commands_in v.bytes.items, []) };
}

/// The spelling of these commands, of which there are 1 to 16.
fn spell_commands(alloc: Global, commands: &[Command]) -> Result<Vec<u8>, NoMemory>
    requires few { length commands.now ≤ 16 }
    requires writable { Each IsWritable commands.now }
    ensures { IfOk result (λ bytes. bytes.items ≡ value_bytes (map command_of commands.now)) }
{
    let mut bytes = Vec::new(alloc);
    bytes.push(commands.len() as u8)?;
    for command in commands {
        command.write(&mut bytes)?;
    }
    Ok(bytes)
}

impl OwnedValue {
    /// The value of these commands, of which there are 1 to 16, each with allowed fields.
    pub fn new(alloc: Global, commands: &[Command]) -> Result<OwnedValue, NoMemory>
        requires some { 0 < length commands.now }
        requires few { length commands.now ≤ 16 }
        requires writable { Each IsWritable commands.now }
        ensures { IfOk result (λ owned. owned ≡ map command_of commands.now) }
    {
        let bytes = spell_commands(alloc, commands)?;
        Ok(OwnedValue { bytes })
    }

    /// The value that these bytes spell.
    pub(crate) fn from_spelling(bytes: Vec<u8>) -> OwnedValue
        requires { value_at bytes.items ≡ Ok (commands_in bytes.items, []) }
        ensures { result ≡ commands_in bytes.items }
    {
        OwnedValue { bytes }
    }

    /// A copy of the value.
    pub fn of(alloc: Global, value: &Value) -> Result<OwnedValue, NoMemory>
        ensures { IfOk result (λ owned. owned ≡ value.now) }
    {
        let mut bytes = Vec::new(alloc);
        bytes.extend_from_slice(spelling_of(value))?;
        Ok(OwnedValue { bytes })
    }

    /// The value.
    pub fn as_value(&self) -> Value<'_>
        ensures { result ≡ self.now }
    {
        value_of_spelling(self.bytes.as_slice())
    }

    /// Another copy.
    pub fn copy(&self, alloc: Global) -> Result<OwnedValue, NoMemory>
        ensures { IfOk result (λ owned. owned ≡ self.now) }
    {
        OwnedValue::of(alloc, &self.as_value())
    }
}

/// Whether the two are spelled alike, so whether they are the same.
#[tactic(auto, unfolding(crate::specs::Same::same_value))]
pub fn is_same_value(left: &Value, right: &Value) -> bool
    ensures { result ≡ same_value left.now right.now }
{
    left.as_bytes() == right.as_bytes()
}
