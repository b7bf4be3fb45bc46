ghost use Rattle.std.specs.Prelude.{◌≡◌, IfOk, None, Some, option_map};
ghost use Rattle.std.specs.Option.{option_copied};
ghost use Rattle.paxos_replica.specs.Seen.{entry_of, mails_of};
ghost use Rattle.paxos_spec.specs.Replica.{quiet, reply};

use crate::entry::OwnedEntry;
use crate::memory::Memory;
use crate::said::Said;
use paxos_spec::Body;
use std::alloc::Global;
use std::marker::Model;
use wire_core::{Entry, NoMemory};

/// A step that a replica takes: what it makes durable, its memory after it, and what it says once the entry is durable.
#[derive(Debug, Drop)]
pub struct ReplicaStep {
    entry: Option<OwnedEntry>,
    memory: Memory,
    said: Option<Said>,
}

impl Model for ReplicaStep {
    ghost use Rattle.std.specs.Prelude.{option_map};
    ghost use Rattle.paxos_replica.specs.Seen.{entry_of, mails_of};
    ghost use Rattle.paxos_spec.specs.Replica.{Out};

    ghost Value = { Out };

    ghost view = { λ s. record {
      entry = option_map entry_of s.entry;
      memory = s.memory;
      sends = mails_of s.said;
    } };
}

impl ReplicaStep {
    /// A step of these parts.
    pub(crate) fn new(entry: Option<OwnedEntry>, memory: Memory, said: Option<Said>) -> ReplicaStep
        ensures { result ≡ record {
          entry = option_map entry_of entry;
          memory = memory;
          sends = mails_of said;
        } }
    {
        ReplicaStep {
            entry,
            memory,
            said,
        }
    }

    /// Nothing but memory changes.
    pub(crate) fn quiet(memory: Memory) -> ReplicaStep
        ensures { result ≡ quiet memory }
    {
        ReplicaStep::new(None, memory, None)
    }

    /// This is said to one replica, and nothing but memory changes.
    pub(crate) fn reply(memory: Memory, me: u8, body: Body, to: u8) -> ReplicaStep
        ensures { result ≡ reply memory me body to }
    {
        ReplicaStep::new(None, memory, Some(Said::to(me, body, to)))
    }

    /// The memory after it; the rest is let go.
    pub(crate) fn into_memory(self) -> Memory
        ensures { result ≡ self.memory }
    {
        self.memory
    }

    /// What has to be durable before [`ReplicaStep::said`] is told. `None` exactly where the step makes no entry.
    pub fn entry(&self) -> Option<Entry<'_>>
        ensures { result ≡ self.now.entry }
    {
        match &self.entry {
            None => None,
            Some(entry) => Some(entry.as_entry()),
        }
    }

    /// The entry in a copy.
    pub fn copy_of_entry(&self, alloc: Global) -> Result<Option<OwnedEntry>, NoMemory>
        ensures { IfOk result (λ entry. option_map entry_of entry ≡ self.now.entry) }
    {
        match &self.entry {
            None => Ok(None),
            Some(entry) => Ok(Some(entry.copy(alloc)?)),
        }
    }

    /// The entry; the rest is let go.
    pub fn into_entry(self) -> Option<OwnedEntry>
        ensures { option_map entry_of result ≡ self.entry }
    {
        self.entry
    }

    /// What is said. `None` exactly where nothing is.
    pub fn said(&self) -> Option<&Said>
        ensures { mails_of (option_copied result) ≡ self.now.sends }
    {
        self.said.as_ref()
    }
}
