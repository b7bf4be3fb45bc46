use crate::address::Ip4;
use crate::connection::Conn;
use crate::items::Items;
use crate::range::Range;

/// An IPv4 packet, header and payload, without a frame byte.
pub type PacketBytes = Items<u8>;

/// What a step does to leases, connections and packets. A lease is named by a number `n`, the place of the Reserve
/// that made it.
#[derive(Debug, Drop)]
pub enum Act {
    /// The managers learned a lease of the range for the machine.
    Reserve { n: u64, range: Range, machine: Ip4 },
    /// The managers learned that muxes have the lease's row.
    Grant { n: u64 },
    /// The managers learned that the lease is given back, or lost with its agent.
    Free { n: u64 },
    /// The managers learned that no mux has the lease's row any more.
    Freed { n: u64 },
    /// An agent holds the lease.
    Hold { n: u64 },
    /// An agent gives the lease back.
    Drop { n: u64 },
    /// An agent opens the connection.
    Open { c: Conn },
    /// An agent closes the connection.
    Close { c: Conn },
    /// An agent was restarted, and with it all that it held.
    Lose { agent: u16 },
    /// An agent hands the packet to a machine of its own.
    Hand { machine: Ip4, bytes: PacketBytes },
}

pub type ActList = Items<Act>;
