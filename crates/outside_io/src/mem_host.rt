// A host in memory.
ghost use Rattle.std.specs.Prelude.{◌≡◌, ◌≤◌, [], Some, option_map, IfSome};
ghost use Rattle.outside_io.specs.Faults.{Rose};
ghost use Rattle.outside_io.specs.Host.{OpenDisk};
ghost use Rattle.outside_io.specs.Telling.{Tells};
ghost use Rattle.outside_io.specs.MemoryHost.{host_calls, call_of, IsFresh};

use crate::failed::Failed;
use crate::host::Host;
use crate::mem_link::{MemAnswer, MemLink};
use crate::memory::Failing;
use crate::snapshot::Snapshot;
use std::alloc::Global;
use wire_core::{Items, Socket};

/// A disk and its name.
#[derive(Drop)]
pub struct NamedDisk<D: Snapshot> {
    pub name: Items<u8>,
    pub disk: D,
}

/// What a link is to do: the answers of `next`, and the numbers, from 0, of the calls of `send` that are to fail.
#[derive(Drop)]
pub struct LinkScript {
    pub list: Vec<MemAnswer>,
    pub failing: Vec<u64>,
}

/// A call that a host in memory has kept. `Opened` has a copy of the disk as it was when it was handed out.
#[derive(Drop)]
pub enum KeptCall<D: Snapshot> {
    Bound { at: Socket, given: bool },
    Opened { name: Vec<u8>, disk: D },
    NotOpened { name: Vec<u8> },
    LinkBack { link: MemLink },
    DiskBack { disk: D },
}

/// A host in memory: it hands out the links and disks that it was given, each once, and keeps each call.
#[derive(Drop)]
pub struct MemHost<D: Snapshot> {
    alloc: Global,
    links: Vec<LinkScript>,
    disks: Vec<NamedDisk<D>>,
    failing: Failing,
    kept: Vec<KeptCall<D>>,
    lent: usize,
    forgot: bool,
    link_faults: u64,
    disk_faults: u64,
}

impl<D: Snapshot> MemHost<D> {
    /// A host that hands out these links in order, and these disks by their names. Of the calls of `bind` and
    /// `open_disk` those with the numbers in `failing` fail, from 0.
    pub fn new(
        alloc: Global,
        links: Vec<LinkScript>,
        disks: Vec<NamedDisk<D>>,
        failing: Vec<u64>,
    ) -> MemHost<D>
        ensures calls { host_calls D.history result ≡ Some [] }
        ensures faults { (result.link_faults ≡ 0) × (result.disk_faults ≡ 0) }
    {
        MemHost {
            alloc,
            links,
            disks,
            failing: Failing::new(failing),
            kept: Vec::new(alloc),
            lent: 0,
            forgot: false,
            link_faults: 0,
            disk_faults: 0,
        }
    }

    /// The calls that it has kept, in order: all, unless there was no memory for one.
    pub fn into_calls(self) -> Vec<KeptCall<D>>
        ensures { result ≡ self.kept }
    {
        let MemHost { kept, .. } = self;
        kept
    }

    // Keeps a call where there is room for it; where there is none, nothing is told from then on.
    fn keep(&mut self, call: KeptCall<D>)
        ensures told { Tells (host_calls D.history self.old) (host_calls D.history self.new)
            (call_of D.history call) }
        ensures same { self.new ≡ record self.old { kept = self.new.kept; forgot = self.new.forgot } }
    {
        if self.kept.len() < self.kept.capacity() {
            self.kept.push(call).unwrap();
        } else {
            self.forgot = true;
        }
    }

    // Counts a failed bind.
    fn fail_link(&mut self) -> Failed
        ensures rose { Rose self.old.link_faults self.new.link_faults }
        ensures later { self.old.link_faults ≤ self.new.link_faults }
        ensures same { self.new ≡ record self.old { link_faults = self.new.link_faults } }
    {
        self.link_faults = self.link_faults.saturating_add(1);
        Failed
    }

    // Counts a failed opening.
    fn fail_disk(&mut self) -> Failed
        ensures rose { Rose self.old.disk_faults self.new.disk_faults }
        ensures later { self.old.disk_faults ≤ self.new.disk_faults }
        ensures same { self.new ≡ record self.old { disk_faults = self.new.disk_faults } }
    {
        self.disk_faults = self.disk_faults.saturating_add(1);
        Failed
    }

    // Whether a call of `bind` or `open_disk` may go on: it isn't to fail, and there is room to keep it and the return
    // of each object.
    fn begin(&mut self) -> bool
        ensures told { host_calls D.history self.new ≡ host_calls D.history self.old }
        ensures links { self.new.link_faults ≡ self.old.link_faults }
        ensures disks { self.new.disk_faults ≡ self.old.disk_faults }
    {
        let room = self.kept.reserve(self.lent.saturating_add(2)).is_ok();
        !self.failing.call() && room
    }
}

// The next link.
fn take_link(links: &mut Vec<LinkScript>) -> Option<LinkScript> {
    if links.is_empty() {
        return None;
    }
    Some(links.remove(0))
}

// Takes the disk of this name out.
fn take_disk<D: Snapshot>(disks: &mut Vec<NamedDisk<D>>, name: &[u8]) -> Option<D> {
    let at = disks.iter().position(|d| d.name.as_slice() == name)?;
    let NamedDisk { disk, .. } = disks.swap_remove(at);
    Some(disk)
}

// A disk that has counted no fault, and a copy of it.
fn with_copy<D: Snapshot>(disk: D, alloc: Global) -> Option<(D, D)>
    ensures copy { IfSome result (λ x. D.history x.1 ≡ D.history x.0) }
    ensures sure { IfSome result (λ x. D.faults x.0 ≡ 0) }
{
    if disk.has_failed() {
        return None;
    }
    let copy = disk.snapshot(alloc).ok()?;
    Some((disk, copy))
}

impl<D: Snapshot> MemHost<D> {
    // The next link, where the call may go on and there is one.
    fn find_link(&mut self) -> Option<MemLink>
        ensures new { IfSome result (λ link. IsFresh link) }
        ensures told { host_calls D.history self.new ≡ host_calls D.history self.old }
        ensures links { self.new.link_faults ≡ self.old.link_faults }
        ensures disks { self.new.disk_faults ≡ self.old.disk_faults }
    {
        if !self.begin() {
            return None;
        }
        let LinkScript { list, failing } = take_link(&mut self.links)?;
        self.lent = self.lent.saturating_add(1);
        Some(MemLink::new(self.alloc, list, failing))
    }

    // The disk of this name with a copy of it, where the call may go on, there is such a disk and there is memory.
    fn find_disk(&mut self, name: &str) -> Option<(D, D)>
        ensures copy { IfSome result (λ x. D.history x.1 ≡ D.history x.0) }
        ensures sure { IfSome result (λ x. D.faults x.0 ≡ 0) }
        ensures told { host_calls D.history self.new ≡ host_calls D.history self.old }
        ensures links { self.new.link_faults ≡ self.old.link_faults }
        ensures disks { self.new.disk_faults ≡ self.old.disk_faults }
    {
        if !self.begin() {
            return None;
        }
        let disk = take_disk(&mut self.disks, name.as_bytes())?;
        self.lent = self.lent.saturating_add(1);
        with_copy(disk, self.alloc)
    }

    // Keeps a call of `open_disk`, with the copy of the disk that is handed out.
    fn keep_name(&mut self, name: &str, copy: Option<D>)
        ensures told { Tells (host_calls D.history self.old) (host_calls D.history self.new)
            (OpenDisk name.now (option_map D.history copy)) }
        ensures same { self.new ≡ record self.old { kept = self.new.kept; forgot = self.new.forgot } }
    {
        match name.as_bytes().to_vec(self.alloc) {
            Ok(name) => match copy {
                Some(disk) => self.keep(KeptCall::Opened { name, disk }),
                None => self.keep(KeptCall::NotOpened { name }),
            },
            Err(_) => self.forgot = true,
        }
    }
}

impl<D: Snapshot> Host for MemHost<D> {
    type L = MemLink;

    type D = D;

    ghost calls = { λ host. host_calls D.history host };

    ghost link_faults = { λ host. host.link_faults };

    ghost disk_faults = { λ host. host.disk_faults };

    fn bind(&mut self, at: &Socket) -> Result<MemLink, Failed> {
        match self.find_link() {
            Some(link) => {
                self.keep(KeptCall::Bound {
                    at: *at,
                    given: true,
                });
                Ok(link)
            }
            None => {
                self.keep(KeptCall::Bound {
                    at: *at,
                    given: false,
                });
                Err(self.fail_link())
            }
        }
    }

    fn open_disk(&mut self, name: &str) -> Result<D, Failed> {
        match self.find_disk(name) {
            Some((disk, copy)) => {
                self.keep_name(name, Some(copy));
                Ok(disk)
            }
            None => {
                self.keep_name(name, None);
                Err(self.fail_disk())
            }
        }
    }

    fn back_link(&mut self, link: MemLink) {
        self.lent = self.lent.saturating_sub(1);
        if link.next_faults() != 0 {
            let _ = self.fail_link();
        }
        self.keep(KeptCall::LinkBack { link });
    }

    fn back_disk(&mut self, disk: D) {
        self.lent = self.lent.saturating_sub(1);
        if disk.has_failed() {
            let _ = self.fail_disk();
        }
        self.keep(KeptCall::DiskBack { disk });
    }
}
