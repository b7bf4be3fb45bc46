ghost use Rattle.std.specs.Prelude.{◌≡◌, ◌∷◌, ◌++◌, [], Ok, Some, None, length, map, IfOk, OnOk};
ghost use Rattle.outside_io.specs.Faults.{HasCause};
ghost use Rattle.outside_io.specs.Link.{sent_with};
ghost use Rattle.outside_io.specs.Telling.{Tells};
ghost use Rattle.world_nodes.specs.Disks.{as_taken, outbox_sent};

use outside_io::{Arrival, Failed, Link};
use std::alloc::{AllocError, Global};
use wire_core::{Items, NoMemory, Outgoing, SendList, Socket};

/// A link that keeps what one step sends, in order. Nothing comes from it.
#[derive(Drop)]
pub struct Outbox {
    alloc: Global,
    list: Vec<Outgoing>,
    faults: u64,
}

impl Outbox {
    pub fn new(alloc: Global) -> Outbox
        ensures { outbox_sent result ≡ Some [] }
    {
        Outbox {
            alloc,
            list: Vec::new(alloc),
            faults: 0,
        }
    }

    fn keep(&mut self, to: &Socket, bytes: &[u8]) -> Result<(), NoMemory>
        ensures kept { OnOk result (self.new.list.items
            ≡ self.old.list.items ++ record { to = to.now; bytes = bytes.now } ∷ []) }
        ensures faults { self.new.faults ≡ self.old.faults }
    {
        let bytes = Items::from_vec(bytes.to_vec(self.alloc)?);
        self.list.push(Outgoing { to: *to, bytes })?;
        Ok(())
    }

    /// What was sent, or that there was no memory to keep it.
    pub fn into_sent(self) -> Result<SendList, NoMemory>
        ensures { IfOk result (λ list. outbox_sent self ≡ Some (map as_taken list)) }
    {
        let Outbox { list, faults, .. } = self;
        if faults == 0 {
            Ok(Items::from_vec(list))
        } else {
            Err(AllocError)
        }
    }
}

impl Link for Outbox {
    ghost answers = { λ link. None };

    ghost sent = { λ link. outbox_sent link };

    ghost waiting = { λ link. None };

    ghost next_faults = { λ link. 0 };

    ghost send_faults = { λ link. link.faults };

    fn next(&mut self, buf: &mut [u8]) -> Result<Option<Arrival>, Failed>
        ensures none { result ≡ Ok None }
        ensures same { self.new ≡ self.old }
        ensures room { length buf.new ≡ length buf.old }
    {
        let _ = buf;
        Ok(None)
    }

    fn send(&mut self, to: &Socket, bytes: &[u8]) -> Result<(), Failed>
        ensures told { Tells (outbox_sent self.old) (outbox_sent self.new) (sent_with to.now bytes.now result) }
        ensures cause { HasCause self.old.faults self.new.faults result }
    {
        if self.keep(to, bytes).is_err() {
            self.faults = self.faults.saturating_add(1);
            return Err(Failed);
        }
        Ok(())
    }
}
