ghost use Rattle.std.specs.Prelude.{◌≡◌, ◌<◌, ◌≤◌, [], length, slice_get, Ok, Some, IsOk};
ghost use Rattle.wire_core.specs.Commands.{Freed, IsValue, Release, value_bytes};
ghost use Rattle.wire_core.specs.Reading.{Gives, command_at, commands_at, commands_in, commands_of, fault_at, granted_at, lease_at, mux_boot_at, mux_boots_at, read_value, reserve_at, rest_of, up_at, value_at};
ghost use Rattle.wire_core.specs.Views.{command_of, pairs_of};

use crate::address::Ip4;
use crate::command::{Command, MuxBoot};
use crate::items::Items;
use crate::reading::{FieldFault, take_count, take_u8, take_u16, take_u32, take_u64};
use std::marker::Model;

/// What is wrong with a value's or an entry's bytes: the first fault from left to right.
#[derive(Clone, Copy, Debug, PartialEq, Eq)]
pub enum ValueFault {
    /// The bytes run out.
    Short,
    /// The field at this offset isn't allowed.
    Field(usize),
}

#[tactic(auto, unfolding(crate::specs::Reading::reserve_at))]
fn take_reserve(bytes: &[u8]) -> Result<(Command<'_>, &[u8]), FieldFault>
    ensures { Gives (λ x. (command_of x.0, x.1.now)) result (reserve_at bytes.now) }
{
    let (agent, rest) = take_u16(bytes)?;
    let (boot, rest) = take_u64(rest)?;
    let (machine, rest) = take_u32(rest)?;
    let (seq, rest) = take_u64(rest)?;
    Ok((
        Command::Reserve {
            agent,
            boot,
            machine: Ip4(machine),
            seq,
        },
        rest,
    ))
}

#[tactic(auto, unfolding(crate::specs::Reading::up_at))]
fn take_up(bytes: &[u8]) -> Result<(Command<'_>, &[u8]), FieldFault>
    ensures { Gives (λ x. (command_of x.0, x.1.now)) result (up_at bytes.now) }
{
    let (agent, rest) = take_u16(bytes)?;
    let (boot, rest) = take_u64(rest)?;
    Ok((Command::Up { agent, boot }, rest))
}

#[tactic(auto, unfolding(crate::specs::Reading::lease_at))]
fn take_release(bytes: &[u8]) -> Result<(Command<'_>, &[u8]), FieldFault>
    ensures { Gives (λ x. (command_of x.0, x.1.now)) result (lease_at Release bytes.now) }
{
    let (n, rest) = take_u64(bytes)?;
    Ok((Command::Release { n }, rest))
}

#[tactic(auto, unfolding(crate::specs::Reading::lease_at))]
fn take_freed(bytes: &[u8]) -> Result<(Command<'_>, &[u8]), FieldFault>
    ensures { Gives (λ x. (command_of x.0, x.1.now)) result (lease_at Freed bytes.now) }
{
    let (n, rest) = take_u64(bytes)?;
    Ok((Command::Freed { n }, rest))
}

#[tactic(auto, unfolding(crate::specs::Reading::mux_boot_at))]
fn take_mux_boot(bytes: &[u8], least: u32) -> Result<(MuxBoot, &[u8]), FieldFault>
    ensures { Gives (λ x. (x.0, x.1.now)) result (mux_boot_at least bytes.now) }
{
    let (mux, rest) = take_u16(bytes)?;
    if u32::from(mux) < least {
        return Err(FieldFault::NotAllowed { left: bytes.len() });
    }
    let (boot, rest) = take_u64(rest)?;
    Ok((MuxBoot { mux, boot }, rest))
}

/// The bytes after so many muxes with their boots.
fn skip_mux_boots(bytes: &[u8], count: u8) -> Result<&[u8], FieldFault>
    ensures { Gives (λ x. x.now) result (rest_of (mux_boots_at count 0 bytes.now)) }
{
    let mut rest = bytes;
    let mut least = 0u32;
    for _ in 0..count {
        let (mux_boot, after) = take_mux_boot(rest, least)?;
        least = mux_boot.mux as u32 + 1;
        rest = after;
    }
    Ok(rest)
}

/// The bytes of so many muxes with their boots, and the bytes after them.
fn take_pairs(bytes: &[u8], count: u8) -> Result<(&[u8], &[u8]), FieldFault>
    ensures { Gives (λ x. (pairs_of x.0.now, x.1.now)) result (mux_boots_at count 0 bytes.now) }
{
    match skip_mux_boots(bytes, count) {
        Ok(after) => {
            let (pairs, _) = bytes.split_at(bytes.len() - after.len());
            Ok((pairs, after))
        }
        Err(fault) => Err(fault),
    }
}

#[tactic(auto, unfolding(crate::specs::Reading::granted_at))]
fn take_granted(bytes: &[u8]) -> Result<(Command<'_>, &[u8]), FieldFault>
    ensures { Gives (λ x. (command_of x.0, x.1.now)) result (granted_at bytes.now) }
{
    let (n, rest) = take_u64(bytes)?;
    let (count, rest) = take_count(rest)?;
    let (pairs, rest) = take_pairs(rest, count)?;
    Ok((Command::Granted { n, pairs }, rest))
}

/// The command at the front.
#[tactic(auto, unfolding(crate::specs::Reading::command_at))]
fn take_command(bytes: &[u8]) -> Result<(Command<'_>, &[u8]), FieldFault>
    ensures { Gives (λ x. (command_of x.0, x.1.now)) result (command_at bytes.now) }
{
    let (kind, rest) = take_u8(bytes)?;
    match kind {
        1 => take_reserve(rest),
        2 => take_granted(rest),
        3 => take_release(rest),
        4 => take_freed(rest),
        5 => take_up(rest),
        _ => Err(FieldFault::NotAllowed { left: bytes.len() }),
    }
}

/// The bytes after so many commands.
fn skip_commands(bytes: &[u8], count: u8) -> Result<&[u8], FieldFault>
    ensures { Gives (λ x. x.now) result (rest_of (commands_at count bytes.now)) }
{
    let mut rest = bytes;
    for _ in 0..count {
        let (_, after) = take_command(rest)?;
        rest = after;
    }
    Ok(rest)
}

/// The bytes after the value at the front.
#[tactic(auto, unfolding(crate::specs::Reading::value_at))]
fn skip_value(bytes: &[u8]) -> Result<&[u8], FieldFault>
    ensures { Gives (λ x. x.now) result (rest_of (value_at bytes.now)) }
{
    let (count, rest) = take_count(bytes)?;
    skip_commands(rest, count)
}

/// The spelling of a value, owned.
pub type ValueBytes = Items<u8>;

/// A list of 1 to 16 commands, spelled in bytes that it borrows.
#[derive(Debug, Drop)]
pub struct Value<'a> {
    bytes: &'a [u8],
}

impl<'a> Model for Value<'a> {
    ghost use Rattle.std.specs.Prelude.{◌≡◌, List, Ok, []};
    ghost use Rattle.wire_core.specs.Commands.{LogCommand};

    ghost Value = { List LogCommand };

    ghost use Rattle.wire_core.specs.Reading.{value_at, commands_in};

    ghost view = { λ v. commands_in v.bytes.now };

    ghost invariant = { λ v. value_at v.bytes.now ≡ Ok (commands_in v.bytes.now, []) };
}

/// The bytes of a value, and what stands behind its count byte.
fn split_count(bytes: &[u8]) -> (u8, &[u8])
    requires { IsOk (value_at bytes.now) }
    ensures count { result.0 ≡ length (commands_in bytes.now) }
    ensures few { (0 < length (commands_in bytes.now)) × (length (commands_in bytes.now) ≤ 16) }
    ensures read { commands_of (commands_at result.0 result.1.now) ≡ commands_in bytes.now }
    ensures ok { IsOk (commands_at result.0 result.1.now) }
{
    match bytes {
        [] => unreachable!(),
        [count, rest @ ..] => (*count, rest),
    }
}

/// The command at this place among so many.
fn command_from(bytes: &[u8], count: u8, i: usize) -> Command<'_>
    requires read { IsOk (commands_at count bytes.now) }
    requires within { i < count }
    ensures { slice_get (commands_of (commands_at count bytes.now)) i ≡ Some (command_of result) }
{
    match take_command(bytes) {
        Err(_) => unreachable!(),
        Ok((command, after)) => {
            if i == 0 {
                command
            } else {
                command_from(after, count - 1, i - 1)
            }
        }
    }
}

/// The bytes of a value are its spelling.
fn spelling(bytes: &[u8]) -> &[u8]
    requires { value_at bytes.now ≡ Ok (commands_in bytes.now, []) }
    ensures { result.now ≡ value_bytes (commands_in bytes.now) }
{
    bytes
}

/// The bytes of a value spell allowed commands.
fn keeps_rules(bytes: &[u8])
    requires { value_at bytes.now ≡ Ok (commands_in bytes.now, []) }
    ensures { IsValue (commands_in bytes.now) }
{
    let _ = bytes;
}

impl FieldFault {
    /// The fault by its offset among so many bytes.
    pub fn at(self, total: usize) -> ValueFault
        ensures { result ≡ fault_at total self }
    {
        match self {
            FieldFault::Short => ValueFault::Short,
            FieldFault::NotAllowed { left } => ValueFault::Field(total.saturating_sub(left)),
        }
    }
}

/// The value at the front, and the bytes after it.
pub fn take_value(bytes: &[u8]) -> Result<(Value<'_>, &[u8]), FieldFault>
    ensures { Gives (λ x. (x.0, x.1.now)) result (value_at bytes.now) }
{
    match skip_value(bytes) {
        Ok(rest) => {
            let (front, _) = bytes.split_at(bytes.len() - rest.len());
            Ok((Value { bytes: front }, rest))
        }
        Err(fault) => Err(fault),
    }
}

impl<'a> Value<'a> {
    /// The value at the front, and its length in bytes. `Short` exactly where the bytes run out first, `Field` with
    /// its offset exactly at the first field that isn't allowed.
    pub fn read(bytes: &'a [u8]) -> Result<(Value<'a>, usize), ValueFault>
        ensures { Gives (λ x. (x.0, x.1)) result (read_value bytes.now) }
    {
        match take_value(bytes) {
            Ok((value, rest)) => Ok((value, bytes.len() - rest.len())),
            Err(fault) => Err(fault.at(bytes.len())),
        }
    }

    /// The number of commands, from 1 to 16.
    pub fn len(&self) -> usize
        ensures len { result ≡ length self.now }
        ensures few { (0 < result) × (result ≤ 16) }
    {
        usize::from(split_count(self.bytes).0)
    }

    /// The command at this place, from 0. Reads over the commands before it.
    pub fn command(&self, i: usize) -> Command<'a>
        requires { i < length self.now }
        ensures { slice_get self.now i ≡ Some (command_of result) }
    {
        let (count, rest) = split_count(self.bytes);
        command_from(rest, count, i)
    }

    /// Every value has 1 to 16 commands, each with allowed fields. It does nothing else than to say so.
    pub fn keeps_rules(&self)
        ensures { IsValue self.now }
    {
        keeps_rules(self.bytes);
    }

    /// The value's one spelling.
    pub fn as_bytes(&self) -> &'a [u8]
        ensures { result.now ≡ value_bytes self.now }
    {
        spelling(self.bytes)
    }
}

/// The value that these bytes spell.
pub(crate) fn value_of_spelling(bytes: &[u8]) -> Value<'_>
    requires { value_at bytes.now ≡ Ok (commands_in bytes.now, []) }
    ensures { result ≡ commands_in bytes.now }
{
    Value { bytes }
}

/// The bytes that spell the value.
pub(crate) fn spelling_of<'a>(value: &Value<'a>) -> &'a [u8]
    ensures { value_at result.now ≡ Ok (value.now, []) }
{
    value.bytes
}
