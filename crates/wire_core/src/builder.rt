ghost use Rattle.std.specs.Prelude.{◌≡◌, ◌+◌, ◌*◌, ◌<◌, ◌≤◌, [], ◌∷◌, ◌++◌, length, slice_index, slice_set, vec_len, vec_capacity, IfOk, OnErr, OnOk};
ghost use Rattle.std.specs.List.{flat_map};
ghost use Rattle.wire_core.specs.Building.{IsBuilt, added};
ghost use Rattle.wire_core.specs.Commands.{AscendsFrom, Granted, IsMuxBoot, command_bytes, mux_boot_bytes, value_bytes};
ghost use Rattle.wire_core.specs.Members.{Each};
ghost use Rattle.wire_core.specs.Views.{IsWritable, command_of};

use crate::command::{Command, MuxBoot};
use crate::memory::NoMemory;
use crate::owned::OwnedValue;
use crate::writing::{put_u8, put_u16, put_u64};
use std::alloc::Global;
use std::marker::Model;

/// A value in the making: at most 16 commands, each spelled as it is added.
#[derive(Debug, Drop)]
pub struct ValueBuilder {
    /// The number of commands, and their spellings.
    bytes: Vec<u8>,
}

impl Model for ValueBuilder {
    ghost use Rattle.std.specs.Prelude.{List};
    ghost use Rattle.wire_core.specs.Building.{IsBuilt, added};
    ghost use Rattle.wire_core.specs.Commands.{LogCommand};

    ghost Value = { List LogCommand };

    ghost view = { λ b. added b.bytes.items };

    ghost invariant = { λ b. IsBuilt b.bytes.items };
}

/// Appends muxes with their boots, ten bytes each.
fn put_mux_boots(out: &mut Vec<u8>, muxes: &[MuxBoot])
    requires { vec_len out.old + 10 * length muxes.now ≤ vec_capacity out.old }
    ensures bytes { out.new.items ≡ out.old.items ++ flat_map mux_boot_bytes muxes.now }
    ensures fields { Each IsMuxBoot muxes.now }
{
    for m in muxes {
        put_u16(out, m.mux);
        put_u64(out, m.boot);
    }
}

/// Appends the spelling of a Granted.
fn write_granted(out: &mut Vec<u8>, n: u64, muxes: &[MuxBoot]) -> Result<(), NoMemory>
    requires { length muxes.now ≤ 16 }
    ensures ok { OnOk result (out.new.items ≡ out.old.items ++ command_bytes (Granted n muxes.now)) }
    ensures err { OnErr result (out.new.items ≡ out.old.items) }
    ensures fields { IfOk result (λ done. Each IsMuxBoot muxes.now) }
{
    out.reserve(10 + 10 * muxes.len())?;
    put_u8(out, 2);
    put_u64(out, n);
    put_u8(out, muxes.len() as u8);
    put_mux_boots(out, muxes);
    Ok(())
}

/// Counts one command more, which was appended.
fn count_one(bytes: &mut Vec<u8>)
    requires some { 0 < length bytes.old.items }
    requires few { slice_index bytes.old.items 0 < 16 }
    ensures { bytes.new.items ≡ slice_set bytes.old.items 0 (slice_index bytes.old.items 0 + 1) }
{
    bytes[0] += 1;
}

impl ValueBuilder {
    /// No commands.
    pub fn new(alloc: Global) -> Result<ValueBuilder, NoMemory>
        ensures { IfOk result (λ builder. builder ≡ []) }
    {
        let mut bytes = Vec::new(alloc);
        bytes.push(0)?;
        Ok(ValueBuilder { bytes })
    }

    /// The number of commands, from 0 to 16.
    pub fn len(&self) -> usize
        ensures len { result ≡ length self.now }
        ensures few { result ≤ 16 }
    {
        usize::from(self.bytes[0])
    }

    /// Adds a command with allowed fields, where there are fewer than 16. Without memory the commands stay.
    pub fn push(&mut self, command: &Command) -> Result<(), NoMemory>
        requires few { length self.old < 16 }
        requires writable { IsWritable command.now }
        ensures ok { OnOk result (self.new ≡ self.old ++ command_of command.now ∷ []) }
        ensures err { OnErr result (self.new ≡ self.old) }
    {
        command.write(&mut self.bytes)?;
        count_one(&mut self.bytes);
        Ok(())
    }

    /// Adds a Granted, where there are fewer than 16 commands: these muxes in these boots, 1 to 16 by strictly
    /// ascending numbers, have the row of lease `n`. Without memory the commands stay.
    pub fn push_granted(&mut self, n: u64, muxes: &[MuxBoot]) -> Result<(), NoMemory>
        requires few { length self.old < 16 }
        requires some { 0 < length muxes.now }
        requires named { length muxes.now ≤ 16 }
        requires ascend { AscendsFrom 0 muxes.now }
        ensures ok { OnOk result (self.new ≡ self.old ++ Granted n muxes.now ∷ []) }
        ensures err { OnErr result (self.new ≡ self.old) }
    {
        write_granted(&mut self.bytes, n, muxes)?;
        count_one(&mut self.bytes);
        Ok(())
    }

    /// The value of the commands, of which there is at least one. Takes no memory.
    pub fn finish(self) -> OwnedValue
        requires { 0 < length self }
        ensures { result ≡ self }
    {
        let ValueBuilder { bytes } = self;
        OwnedValue::from_spelling(bytes)
    }
}
