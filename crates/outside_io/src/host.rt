ghost use Rattle.std.specs.Prelude.{◌≡◌, List, ℕ, Option, IfOk};
ghost use Rattle.outside_io.specs.Faults.{HasCause, CountsFaulty};
ghost use Rattle.outside_io.specs.Host.{HostCall, BackLink, BackDisk, bind_call, open_call, IsNewLink};
ghost use Rattle.outside_io.specs.Telling.{Tells};

use crate::disk::Disk;
use crate::failed::Failed;
use crate::link::Link;
use wire_core::Socket;

/// What hands out links and disks, and takes them back.
pub trait Host {
    type L: Link;

    type D: Disk;

    /// All calls so far in order, where they are known.
    ghost calls: { Self → Option (List HostCall) };

    /// How often `bind` failed or a link came back whose `next` had failed.
    ghost link_faults: { Self → ℕ };

    /// How often `open_disk` failed or a disk came back of which a call had failed.
    ghost disk_faults: { Self → ℕ };

    /// A link whose own end is `at`. It has counted no fault, and tells of nothing that came or went.
    fn bind(&mut self, at: &Socket) -> Result<Self::L, Failed>
        ensures told { Tells (calls self.old) (calls self.new) (bind_call at.now result) }
        ensures new { IfOk result (λ link. IsNewLink (Self.L.next_faults link) (Self.L.send_faults link)
            (Self.L.answers link) (Self.L.sent link)) }
        ensures cause { HasCause (link_faults self.old) (link_faults self.new) result }
        ensures disk_faults { disk_faults self.new ≡ disk_faults self.old };

    /// The disk of this name, made where there is none. It has counted no fault.
    fn open_disk(&mut self, name: &str) -> Result<Self::D, Failed>
        ensures told { Tells (calls self.old) (calls self.new) (open_call Self.D.history name.now result) }
        ensures new { IfOk result (λ disk. Self.D.faults disk ≡ 0) }
        ensures cause { HasCause (disk_faults self.old) (disk_faults self.new) result }
        ensures link_faults { link_faults self.new ≡ link_faults self.old };

    /// Takes a link back. The link count rises exactly where a `next` of it has failed. Takes no memory.
    fn back_link(&mut self, link: Self::L)
        ensures told { Tells (calls self.old) (calls self.new) (BackLink (Self.L.answers link) (Self.L.sent link)) }
        ensures count { CountsFaulty (link_faults self.old) (link_faults self.new) (Self.L.next_faults link) }
        ensures disk_faults { disk_faults self.new ≡ disk_faults self.old };

    /// Takes a disk back. The disk count rises exactly where a call of it has failed. Takes no memory.
    fn back_disk(&mut self, disk: Self::D)
        ensures told { Tells (calls self.old) (calls self.new) (BackDisk (Self.D.history disk)) }
        ensures count { CountsFaulty (disk_faults self.old) (disk_faults self.new) (Self.D.faults disk) }
        ensures link_faults { link_faults self.new ≡ link_faults self.old };
}
