ghost use Rattle.std.specs.Prelude.{◌≡◌, IfOk};
ghost use Rattle.paxos_replica.specs.Seen.{entry_of};

use paxos_spec::Cast;
use std::alloc::Global;
use wire_core::{Entry, NoMemory, OwnedValue, Value};

/// An entry that a replica makes, owned.
#[derive(Debug, Drop)]
pub enum OwnedEntry {
    Promise { ballot: u64 },
    Vote { cast: Cast },
    Learn { cast: Cast },
}

/// The value with its ballot, in a copy.
pub fn cast(alloc: Global, ballot: u64, value: &Value) -> Result<Cast, NoMemory>
    ensures { IfOk result (λ cast. cast ≡ record { ballot = ballot; value = value.now }) }
{
    let value = OwnedValue::of(alloc, value)?;
    Ok(Cast { ballot, value })
}

/// A copy of a value with its ballot.
fn copy_of_cast(alloc: Global, cast: &Cast) -> Result<Cast, NoMemory>
    ensures { IfOk result (λ copy. copy ≡ cast.now) }
{
    Ok(Cast {
        ballot: cast.ballot,
        value: cast.value.copy(alloc)?,
    })
}

impl OwnedEntry {
    /// The entry.
    pub fn as_entry(&self) -> Entry<'_>
        ensures { result ≡ entry_of self.now }
    {
        match self {
            OwnedEntry::Promise { ballot } => Entry::Promise { ballot: *ballot },
            OwnedEntry::Vote { cast } => Entry::Vote {
                ballot: cast.ballot,
                value: cast.value.as_value(),
            },
            OwnedEntry::Learn { cast } => Entry::Learn {
                ballot: cast.ballot,
                value: cast.value.as_value(),
            },
        }
    }

    /// A copy.
    pub fn copy(&self, alloc: Global) -> Result<OwnedEntry, NoMemory>
        ensures { IfOk result (λ copy. copy ≡ self.now) }
    {
        match self {
            OwnedEntry::Promise { ballot } => Ok(OwnedEntry::Promise { ballot: *ballot }),
            OwnedEntry::Vote { cast } => Ok(OwnedEntry::Vote {
                cast: copy_of_cast(alloc, cast)?,
            }),
            OwnedEntry::Learn { cast } => Ok(OwnedEntry::Learn {
                cast: copy_of_cast(alloc, cast)?,
            }),
        }
    }
}
