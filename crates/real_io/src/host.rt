ghost use Rattle.std.specs.Prelude.{◌≡◌, None};

use crate::disk::FileDisk;
use crate::faults::counted;
use crate::link::UdpLink;
use outside_io::{Failed, Host};
use std::fs::File;
use std::net::Net;
use std::rt::Files;
use wire_core::Socket;

/// The machine that the program runs on: its UDP sockets, and the files of the folder that it runs in.
#[derive(Drop)]
pub struct RealHost<'a, R> {
    rt: &'a R,
    link_faults: u64,
    disk_faults: u64,
}

impl<'a, R> RealHost<'a, R> {
    /// The machine, of which no call has failed.
    pub fn new(rt: &'a R) -> Self
        ensures { (result.link_faults ≡ 0) × (result.disk_faults ≡ 0) }
    {
        RealHost {
            rt,
            link_faults: 0,
            disk_faults: 0,
        }
    }
}

impl<'a, R: Net + Files<File = File>> Host for RealHost<'a, R> {
    type L = UdpLink;

    type D = FileDisk;

    ghost calls = { λ _. None };

    ghost link_faults = { λ host. host.link_faults };

    ghost disk_faults = { λ host. host.disk_faults };

    fn bind(&mut self, at: &Socket) -> Result<UdpLink, Failed> {
        counted(&mut self.link_faults, UdpLink::bind(self.rt, at))
    }

    fn open_disk(&mut self, name: &str) -> Result<FileDisk, Failed> {
        counted(&mut self.disk_faults, FileDisk::open(self.rt, name))
    }

    fn back_link(&mut self, link: UdpLink) {
        if link.next_faults() != 0 {
            self.link_faults = self.link_faults.saturating_add(1);
        }
    }

    fn back_disk(&mut self, disk: FileDisk) {
        if disk.faults() != 0 {
            self.disk_faults = self.disk_faults.saturating_add(1);
        }
    }
}
