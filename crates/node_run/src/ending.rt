ghost use Rattle.std.specs.Prelude.{◌≡◌};
ghost use Rattle.node_run.specs.Ending.{of_fault, of_served};

use crate::serving::{ServeFault, Served};
use node_disk::NodeFault;

/// How the run of a node on its host ended.
#[derive(Clone, Copy, Debug, PartialEq, Eq)]
pub enum NodeEnding {
    /// All turns were taken.
    Done(Served),
    /// A call of a disk failed, or the host had no disk of its name.
    DiskFault,
    /// The journal isn't of its form, or has an entry of another role: the file and the offset in it, in bytes.
    Damaged { second: bool, offset: u64 },
    /// The journal is another node's.
    WrongDisk,
    /// The journal's boot is the last number that there is.
    Spent,
    /// An entry would pass the journal's bound.
    Full,
    /// The host had no link at the node's socket, or a `next` of it failed.
    LinkFault,
    NoMemory,
}

/// How a run ends where the node has this fault.
pub fn of_fault(fault: &NodeFault) -> NodeEnding
    ensures { result ≡ of_fault fault.now }
{
    match fault {
        NodeFault::Disk => NodeEnding::DiskFault,
        NodeFault::Damaged { second, offset } => NodeEnding::Damaged {
            second: *second,
            offset: *offset,
        },
        NodeFault::WrongDisk { .. } => NodeEnding::WrongDisk,
        NodeFault::Spent { .. } => NodeEnding::Spent,
        NodeFault::Full { .. } => NodeEnding::Full,
        NodeFault::NoMemory => NodeEnding::NoMemory,
    }
}

/// How a run ends where the node was served so.
pub fn of_served(served: &Result<Served, ServeFault>) -> NodeEnding
    ensures { result ≡ of_served served.now }
{
    match served {
        Ok(served) => NodeEnding::Done(*served),
        Err(ServeFault::Node(fault)) => of_fault(fault),
        Err(ServeFault::Link) => NodeEnding::LinkFault,
    }
}
