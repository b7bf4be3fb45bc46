ghost use Rattle.std.specs.Prelude.{◌≡◌, ◌+◌, ◌≤◌, [], ◌∷◌, ◌++◌, OnOk, OnErr, IsOk, length, vec_len, vec_capacity};
ghost use Rattle.wire_core.specs.Commands.{value_bytes};
ghost use Rattle.wire_core.specs.Entries.{IsEntry, boot_at, entry_at, entry_bytes, read_entry};
ghost use Rattle.wire_core.specs.Numbers.{number_bytes};
ghost use Rattle.wire_core.specs.Reading.{Gives};

use crate::items::Items;
use crate::memory::NoMemory;
use crate::reading::{FieldFault, take_u8, take_u16, take_u64};
use crate::value::{Value, ValueFault, take_value};
use crate::writing::{put_bytes, put_u8, put_u16, put_u64};

/// The spelling of an entry, owned.
pub type EntryBytes = Items<u8>;

/// The bodies of a journal in order, each the spelling of an entry.
pub type BodyList = Items<EntryBytes>;

/// What a node makes durable before it says it.
#[derive(Debug, Drop)]
pub enum Entry<'a> {
    /// The node was opened in this boot. `role` is 1 for a replica, 2 for a mux, 3 for an agent; any byte is read.
    Boot {
        version: u8,
        role: u8,
        index: u16,
        boot: u64,
    },
    /// A replica follows no lower ballot from now on.
    Promise {
        ballot: u64,
    },
    /// A replica accepted the value at this ballot for the slot at its log's end.
    Vote {
        ballot: u64,
        value: Value<'a>,
    },
    /// A replica learned that the value was chosen at this ballot for the slot at its log's end.
    Learn {
        ballot: u64,
        value: Value<'a>,
    },
    /// A mux obeys no lower epoch from now on.
    Epoch {
        epoch: u64,
    },
}

#[tactic(auto, unfolding(crate::specs::Entries::boot_at))]
fn take_boot(bytes: &[u8]) -> Result<(Entry<'_>, &[u8]), FieldFault>
    ensures { Gives (λ x. (x.0, x.1.now)) result (boot_at bytes.now) }
{
    let (version, rest) = take_u8(bytes)?;
    let (role, rest) = take_u8(rest)?;
    let (index, rest) = take_u16(rest)?;
    let (boot, rest) = take_u64(rest)?;
    Ok((
        Entry::Boot {
            version,
            role,
            index,
            boot,
        },
        rest,
    ))
}

/// The entry at the front, and the bytes after it.
#[tactic(auto, unfolding(crate::specs::Entries::entry_at))]
fn take_entry(bytes: &[u8]) -> Result<(Entry<'_>, &[u8]), FieldFault>
    ensures { Gives (λ x. (x.0, x.1.now)) result (entry_at bytes.now) }
{
    let (kind, rest) = take_u8(bytes)?;
    match kind {
        1 => take_boot(rest),
        2 => {
            let (ballot, rest) = take_u64(rest)?;
            Ok((Entry::Promise { ballot }, rest))
        }
        3 => {
            let (ballot, rest) = take_u64(rest)?;
            let (value, rest) = take_value(rest)?;
            Ok((Entry::Vote { ballot, value }, rest))
        }
        4 => {
            let (ballot, rest) = take_u64(rest)?;
            let (value, rest) = take_value(rest)?;
            Ok((Entry::Learn { ballot, value }, rest))
        }
        5 => {
            let (epoch, rest) = take_u64(rest)?;
            Ok((Entry::Epoch { epoch }, rest))
        }
        _ => Err(FieldFault::NotAllowed { left: bytes.len() }),
    }
}

/// Appends a kind byte and a number.
fn write_number(out: &mut Vec<u8>, kind: u8, number: u64) -> Result<(), NoMemory>
    ensures ok { OnOk result (out.new.items ≡ out.old.items ++ (kind ∷ [] ++ number_bytes 8 number)) }
    ensures err { OnErr result (out.new.items ≡ out.old.items) }
    ensures room { vec_len out.old + 9 ≤ vec_capacity out.old → IsOk result }
{
    out.reserve(9)?;
    put_u8(out, kind);
    put_u64(out, number);
    Ok(())
}

/// Appends a kind byte, a ballot and a value.
fn write_value(out: &mut Vec<u8>, kind: u8, ballot: u64, value: &Value) -> Result<(), NoMemory>
    ensures ok { OnOk result (out.new.items
        ≡ out.old.items ++ (kind ∷ [] ++ number_bytes 8 ballot ++ value_bytes value.now)) }
    ensures err { OnErr result (out.new.items ≡ out.old.items) }
    ensures room { vec_len out.old + 9 + length (value_bytes value.now) ≤ vec_capacity out.old → IsOk result }
{
    let bytes = value.as_bytes();
    out.reserve(bytes.len().saturating_add(9))?;
    put_u8(out, kind);
    put_u64(out, ballot);
    put_bytes(out, bytes);
    Ok(())
}

impl<'a> Entry<'a> {
    /// The entry that these bytes spell as a whole. `Short` exactly where they run out first, `Field` with its offset
    /// exactly at the first field that isn't allowed, or at the first byte left over.
    pub fn read(bytes: &'a [u8]) -> Result<Entry<'a>, ValueFault>
        ensures { Gives (λ x. x) result (read_entry bytes.now) }
    {
        match take_entry(bytes) {
            Err(fault) => Err(fault.at(bytes.len())),
            Ok((entry, rest)) => {
                if rest.is_empty() {
                    Ok(entry)
                } else {
                    Err(ValueFault::Field(bytes.len().saturating_sub(rest.len())))
                }
            }
        }
    }

    /// Every entry has allowed fields, each within its width. It does nothing else than to say so.
    pub fn keeps_rules(&self)
        ensures { IsEntry self.now }
    {
        match self {
            Entry::Boot {
                version,
                role,
                index,
                boot,
            } => {
                let _ = (*version, *role, *index, *boot);
            }
            Entry::Promise { ballot } => {
                let _ballot = *ballot;
            }
            Entry::Vote { ballot, value } | Entry::Learn { ballot, value } => {
                let _ballot = *ballot;
                value.keeps_rules();
            }
            Entry::Epoch { epoch } => {
                let _epoch = *epoch;
            }
        }
    }

    /// Appends the entry's one spelling. It takes memory only where `out` has no room for them,
    /// and without memory `out` stays as it was.
    pub fn write(&self, out: &mut Vec<u8>) -> Result<(), NoMemory>
        ensures ok { OnOk result (out.new.items ≡ out.old.items ++ entry_bytes self.now) }
        ensures err { OnErr result (out.new.items ≡ out.old.items) }
        ensures room { vec_len out.old + length (entry_bytes self.now) ≤ vec_capacity out.old → IsOk result }
    {
        match self {
            Entry::Boot {
                version,
                role,
                index,
                boot,
            } => {
                out.reserve(13)?;
                put_u8(out, 1);
                put_u8(out, *version);
                put_u8(out, *role);
                put_u16(out, *index);
                put_u64(out, *boot);
            }
            Entry::Promise { ballot } => write_number(out, 2, *ballot)?,
            Entry::Vote { ballot, value } => write_value(out, 3, *ballot, value)?,
            Entry::Learn { ballot, value } => write_value(out, 4, *ballot, value)?,
            Entry::Epoch { epoch } => write_number(out, 5, *epoch)?,
        }
        Ok(())
    }
}
