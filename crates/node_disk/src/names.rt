ghost use Rattle.std.specs.Prelude.{◌≡◌, ◌<◌, ◌^◌, IfOk, OnOk};
ghost use Rattle.node_spec.specs.Bodies.{IsSpelled};
ghost use Rattle.node_disk.specs.Judging.{boot_entry, index_of, role_of};
ghost use Rattle.wire_core.specs.Entries.{IsEntry};
ghost use Rattle.wire_core.specs.declared.entry.Entry.TheVariants.{Boot};

use std::alloc::Global;
use wire_core::{Entry, EntryBytes, NoMemory, NodeId};

/// The role byte of a node in its Boot entries: 1 for a replica, 2 for a mux, 3 for an agent.
pub fn role_of(who: NodeId) -> u8
    ensures value { result ≡ role_of who }
    ensures byte { result < 256 }
{
    match who {
        NodeId::Replica(_) => 1,
        NodeId::Mux(_) => 2,
        NodeId::Agent(_) => 3,
    }
}

/// The number of a node among those of its role.
pub fn index_of(who: NodeId) -> u16
    ensures value { result ≡ index_of who }
    ensures fits { result < 2 ^ 16 }
{
    match who {
        NodeId::Replica(index) => u16::from(index),
        NodeId::Mux(index) => index,
        NodeId::Agent(index) => index,
    }
}

/// The Boot entry of this node in this boot.
pub fn boot_bytes(alloc: Global, who: NodeId, boot: u64) -> Result<EntryBytes, NoMemory>
    ensures bytes { IfOk result (λ bytes. bytes ≡ boot_entry who boot) }
    ensures spelled { IfOk result IsSpelled }
    ensures allowed { OnOk result (IsEntry (Boot 1 (role_of who) (index_of who) boot)) }
{
    let entry = Entry::Boot {
        version: 1,
        role: role_of(who),
        index: index_of(who),
        boot,
    };
    let mut bytes = Vec::new(alloc);
    entry.write(&mut bytes)?;
    Ok(EntryBytes::from_vec(bytes))
}
