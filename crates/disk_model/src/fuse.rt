ghost use Rattle.std.specs.Prelude.{◌≡◌, ◌≤◌, ◌<◌, ◌-◌, Some, length, OnOk, OnErr, IfOk, IsErr};
ghost use Rattle.outside_io.specs.Disk.{ReadsAnImage, wrote, shortened, HasLength, Reads, Does, Syncs, Within};
ghost use Rattle.outside_io.specs.Faults.{Rose, HasCause};
ghost use Rattle.disk_model.specs.Fuses.{Passes};

use crate::state::MemDisk;
use outside_io::{Disk, Failed};
use std::alloc::Global;
use std::marker::Model;
use wire_core::NoMemory;

/// A disk that passes so many calls to its disk, and then fails every call.
#[derive(Drop)]
pub struct Fuse {
    disk: MemDisk,
    left: u64,
    faults: u64,
}

impl Model for Fuse {
    ghost use Rattle.disk_model.specs.Disks.{FuseState};

    ghost Value = { FuseState };

    ghost view = { λ fuse. record { disk = fuse.disk; left = fuse.left; faults = fuse.faults } };
}

impl Fuse {
    /// A fuse that passes `k` calls. It has counted no fault.
    pub fn new(disk: MemDisk, k: u64) -> Fuse
        ensures { result ≡ record { disk = disk; left = k; faults = 0 } }
    {
        Fuse {
            disk,
            left: k,
            faults: 0,
        }
    }

    /// The disk as it stands.
    pub fn disk(self) -> MemDisk
        ensures { result ≡ self.disk }
    {
        let Fuse { disk, .. } = self;
        disk
    }

    /// Another fuse with the same calls left and faults, over a copy of the disk.
    pub fn copy(&self, alloc: Global) -> Result<Fuse, NoMemory>
        ensures { IfOk result (λ copy. copy ≡ self.now) }
    {
        Ok(Fuse {
            disk: self.disk.copy(alloc)?,
            left: self.left,
            faults: self.faults,
        })
    }

    /// How often a call has failed.
    pub fn faults(&self) -> u64
        ensures { result ≡ self.now.faults }
    {
        self.faults
    }

    // Spends one of the calls that pass.
    fn spend(&mut self) -> Result<(), Failed>
        ensures passed { OnOk result (0 < self.old.left) }
        ensures spent { OnOk result (self.new ≡ record self.old { left = self.old.left - 1 }) }
        ensures stopped { OnErr result (self.old.left ≡ 0) }
        ensures fails { OnErr result (Rose self.old.faults self.new.faults) }
        ensures later { self.old.faults ≤ self.new.faults }
        ensures same { self.new.disk ≡ self.old.disk }
        ensures left { self.new.left ≡ self.old.left - 1 }
    {
        if self.left == 0 {
            return Err(self.fail());
        }
        self.left -= 1;
        Ok(())
    }

    // Counts a fault.
    fn fail(&mut self) -> Failed
        ensures rose { Rose self.old.faults self.new.faults }
        ensures later { self.old.faults ≤ self.new.faults }
        ensures disk { self.new.disk ≡ self.old.disk }
        ensures left { self.new.left ≡ self.old.left }
    {
        self.faults = self.faults.saturating_add(1);
        Failed
    }
}

impl Disk for Fuse {
    ghost history = { λ fuse. Some fuse.disk.history };

    ghost faults = { λ fuse. fuse.faults };

    fn len(&mut self) -> Result<u64, Failed>
        ensures passes { Passes self.old self.new result }
        ensures length { HasLength (Some self.old.disk.history) result }
        ensures same { self.new.disk.history ≡ self.old.disk.history }
        ensures cause { HasCause self.old.faults self.new.faults result }
    {
        self.spend()?;
        match self.disk.len() {
            Ok(n) => Ok(n),
            Err(_) => Err(self.fail()),
        }
    }

    fn read(&mut self, at: u64, buf: &mut [u8]) -> Result<usize, Failed>
        ensures passes { Passes self.old self.new result }
        ensures bytes { Reads (Some self.old.disk.history) at buf.old buf.new result }
        ensures image { OnOk result (ReadsAnImage (Some self.old.disk.history)) }
        ensures room { length buf.new ≡ length buf.old }
        ensures same { self.new.disk.history ≡ self.old.disk.history }
        ensures cause { HasCause self.old.faults self.new.faults result }
    {
        self.spend()?;
        match self.disk.read(at, buf) {
            Ok(n) => Ok(n),
            Err(_) => Err(self.fail()),
        }
    }

    fn write_at(&mut self, at: u64, bytes: &[u8]) -> Result<(), Failed>
        requires { Within (Some self.old.disk.history) at }
        ensures passes { Passes self.old self.new result }
        ensures written { Does (wrote at bytes.now) (Some self.old.disk.history)
            (Some self.new.disk.history) result }
        ensures same { OnErr result (self.new.disk.history ≡ self.old.disk.history) }
        ensures cause { HasCause self.old.faults self.new.faults result }
    {
        self.spend()?;
        match self.disk.write_at(at, bytes) {
            Ok(()) => Ok(()),
            Err(_) => Err(self.fail()),
        }
    }

    fn cut(&mut self, len: u64) -> Result<(), Failed>
        requires { Within (Some self.old.disk.history) len }
        ensures passes { Passes self.old self.new result }
        ensures cut { Does (shortened len) (Some self.old.disk.history) (Some self.new.disk.history) result }
        ensures same { OnErr result (self.new.disk.history ≡ self.old.disk.history) }
        ensures cause { HasCause self.old.faults self.new.faults result }
    {
        self.spend()?;
        match self.disk.cut(len) {
            Ok(()) => Ok(()),
            Err(_) => Err(self.fail()),
        }
    }

    fn sync(&mut self) -> Result<(), Failed>
        ensures passes { Passes self.old self.new result }
        ensures kept { Syncs (Some self.old.disk.history) (Some self.new.disk.history) result }
        ensures cause { HasCause self.old.faults self.new.faults result }
    {
        self.spend()?;
        match self.disk.sync() {
            Ok(()) => Ok(()),
            Err(_) => Err(self.fail()),
        }
    }
}
