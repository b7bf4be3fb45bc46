ghost use Rattle.std.specs.Prelude.{◌≡◌, OnErr, OnOk};
ghost use Rattle.wire_core.specs.Steps.{no_step, with_act, with_entry, with_note, with_send};

use crate::act::{Act, ActList};
use crate::entry::EntryBytes;
use crate::items::Items;
use crate::memory::NoMemory;
use crate::note::{Note, NoteList};
use crate::outgoing::{Outgoing, SendList};
use std::alloc::Global;

/// What one input makes a node do: at most one entry, which is durable before a datagram leaves, and what happened,
/// in order.
#[derive(Debug, Drop)]
pub struct Step {
    pub entry: Option<EntryBytes>,
    pub acts: ActList,
    pub notes: NoteList,
    pub sends: SendList,
}

impl Step {
    /// Nothing so far. Takes no memory.
    pub fn new(alloc: Global) -> Step
        ensures { result ≡ no_step }
    {
        Step {
            entry: None,
            acts: Items::new(alloc),
            notes: Items::new(alloc),
            sends: Items::new(alloc),
        }
    }

    /// Writes the entry, unless one is written: the first stays.
    pub fn write(&mut self, entry: Option<EntryBytes>)
        ensures { self.new ≡ with_entry entry self.old }
    {
        if self.entry.is_none() {
            self.entry = entry;
        }
    }

    /// Adds an act at the end. Without memory the step stays.
    pub fn act(&mut self, act: Act) -> Result<(), NoMemory>
        ensures ok { OnOk result (self.new ≡ with_act act self.old) }
        ensures err { OnErr result (self.new ≡ self.old) }
    {
        self.acts.push(act)
    }

    /// Adds a note at the end. Without memory the step stays.
    pub fn note(&mut self, note: Note) -> Result<(), NoMemory>
        ensures ok { OnOk result (self.new ≡ with_note note self.old) }
        ensures err { OnErr result (self.new ≡ self.old) }
    {
        self.notes.push(note)
    }

    /// Adds a datagram at the end. Without memory the step stays.
    pub fn send(&mut self, send: Outgoing) -> Result<(), NoMemory>
        ensures ok { OnOk result (self.new ≡ with_send send self.old) }
        ensures err { OnErr result (self.new ≡ self.old) }
    {
        self.sends.push(send)
    }
}
