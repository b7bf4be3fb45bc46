// What a program hands in where it has nothing of the kind: each call that answers a Result fails.
ghost use Rattle.std.specs.Prelude.{◌≡◌, ◌≤◌, None, Ok, length};
ghost use Rattle.outside_io.specs.Faults.{Rose, HasFailed};

use crate::disk::Disk;
use crate::failed::Failed;
use crate::host::Host;
use crate::link::{Arrival, Link};
use crate::snapshot::Snapshot;
use std::alloc::Global;
use wire_core::{NoMemory, Socket};

// One fault more.
fn count_fault(faults: &mut u64) -> Failed
    ensures rose { Rose faults.old faults.new }
    ensures later { faults.old ≤ faults.new }
{
    *faults = faults.saturating_add(1);
    Failed
}

/// A link whose every call fails.
#[derive(Debug, Drop)]
pub struct NoLink {
    next_faults: u64,
    send_faults: u64,
}

impl NoLink {
    /// A link that has counted no fault.
    pub fn new() -> NoLink
        ensures { result ≡ record { next_faults = 0; send_faults = 0 } }
    {
        NoLink {
            next_faults: 0,
            send_faults: 0,
        }
    }
}

impl Link for NoLink {
    ghost answers = { λ _. None };

    ghost sent = { λ _. None };

    ghost waiting = { λ _. None };

    ghost next_faults = { λ link. link.next_faults };

    ghost send_faults = { λ link. link.send_faults };

    fn next(&mut self, buf: &mut [u8]) -> Result<Option<Arrival>, Failed>
        ensures fails { HasFailed self.old.next_faults self.new.next_faults result }
        ensures room { length buf.new ≡ length buf.old }
        ensures send_faults { self.new.send_faults ≡ self.old.send_faults }
    {
        Err(count_fault(&mut self.next_faults))
    }

    fn send(&mut self, _to: &Socket, _bytes: &[u8]) -> Result<(), Failed>
        ensures fails { HasFailed self.old.send_faults self.new.send_faults result }
        ensures next_faults { self.new.next_faults ≡ self.old.next_faults }
    {
        Err(count_fault(&mut self.send_faults))
    }
}

/// A disk whose every call fails.
#[derive(Debug, Drop)]
pub struct NoDisk {
    faults: u64,
}

impl NoDisk {
    /// A disk that has counted no fault.
    pub fn new() -> NoDisk
        ensures { result ≡ record { faults = 0 } }
    {
        NoDisk { faults: 0 }
    }
}

impl Disk for NoDisk {
    ghost history = { λ _. None };

    ghost faults = { λ disk. disk.faults };

    fn len(&mut self) -> Result<u64, Failed>
        ensures fails { HasFailed self.old.faults self.new.faults result }
    {
        Err(count_fault(&mut self.faults))
    }

    fn read(&mut self, _at: u64, buf: &mut [u8]) -> Result<usize, Failed>
        ensures room { length buf.new ≡ length buf.old }
        ensures fails { HasFailed self.old.faults self.new.faults result }
    {
        Err(count_fault(&mut self.faults))
    }

    fn write_at(&mut self, _at: u64, _bytes: &[u8]) -> Result<(), Failed>
        ensures fails { HasFailed self.old.faults self.new.faults result }
    {
        Err(count_fault(&mut self.faults))
    }

    fn cut(&mut self, _len: u64) -> Result<(), Failed>
        ensures fails { HasFailed self.old.faults self.new.faults result }
    {
        Err(count_fault(&mut self.faults))
    }

    fn sync(&mut self) -> Result<(), Failed>
        ensures fails { HasFailed self.old.faults self.new.faults result }
    {
        Err(count_fault(&mut self.faults))
    }
}

impl Snapshot for NoDisk {
    fn snapshot(&self, _alloc: Global) -> Result<NoDisk, NoMemory>
        ensures { result ≡ Ok self.now }
    {
        Ok(NoDisk {
            faults: self.faults,
        })
    }

    fn has_failed(&self) -> bool {
        self.faults != 0
    }
}

/// A host that hands out nothing: `bind` and `open_disk` fail.
#[derive(Debug, Drop)]
pub struct NoHost {
    link_faults: u64,
    disk_faults: u64,
}

impl NoHost {
    /// A host that has counted no fault.
    pub fn new() -> NoHost
        ensures { result ≡ record { link_faults = 0; disk_faults = 0 } }
    {
        NoHost {
            link_faults: 0,
            disk_faults: 0,
        }
    }
}

impl Host for NoHost {
    type L = NoLink;

    type D = NoDisk;

    ghost calls = { λ _. None };

    ghost link_faults = { λ host. host.link_faults };

    ghost disk_faults = { λ host. host.disk_faults };

    fn bind(&mut self, _at: &Socket) -> Result<NoLink, Failed>
        ensures fails { HasFailed self.old.link_faults self.new.link_faults result }
        ensures disk_faults { self.new.disk_faults ≡ self.old.disk_faults }
    {
        Err(count_fault(&mut self.link_faults))
    }

    fn open_disk(&mut self, _name: &str) -> Result<NoDisk, Failed>
        ensures fails { HasFailed self.old.disk_faults self.new.disk_faults result }
        ensures link_faults { self.new.link_faults ≡ self.old.link_faults }
    {
        Err(count_fault(&mut self.disk_faults))
    }

    fn back_link(&mut self, link: NoLink) {
        if link.next_faults != 0 {
            count_fault(&mut self.link_faults);
        }
    }

    fn back_disk(&mut self, disk: NoDisk) {
        if disk.faults != 0 {
            count_fault(&mut self.disk_faults);
        }
    }
}
