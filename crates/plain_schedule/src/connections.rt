ghost use Rattle.std.specs.Prelude.{◌≡◌, ◌<◌, ◌≤◌, ◌+◌, ◌++◌, ◌∷◌, [], Some, if◌then◌else◌, OnOk, OnErr};
ghost use Rattle.indexmap.specs.IndexMap.{get, spare};
ghost use Rattle.wire_core.specs.declared.flow.FlowKey.{FlowKey as Key};
ghost use Rattle.wire_core.specs.Same.{same_key};
ghost use Rattle.plain_schedule.specs.Connections.{has_private, has_public, newest};

use indexmap::IndexMap;
use std::alloc::Global;
use std::marker::Model;
use wire_core::{FlowKey, NoMemory};

/// A connection of a machine through a port of its lease.
#[derive(Clone, Copy, Debug, PartialEq, Eq)]
pub struct Connection {
    /// The key of the machine's packets: from the machine and its port to the remote end.
    pub private: FlowKey,
    /// The key of the packets that leave: from the VIP and a port of the lease to the remote end.
    pub public: FlowKey,
    /// The lease. The connection ends with it.
    pub n: u64,
}

/// The connections that were opened, in order, found by both keys.
#[derive(Drop)]
pub struct Connections {
    opened: Vec<Connection>,
    by_private: IndexMap<FlowKey, Connection>,
    by_public: IndexMap<FlowKey, Connection>,
}

impl Model for Connections {
    ghost use Rattle.std.specs.Prelude.{List};
    ghost use Rattle.indexmap.specs.IndexMap.{get};
    ghost use Rattle.plain_schedule.specs.declared.connections.Connection.{Connection as Opened};

    ghost Value = { List Opened };

    ghost use Rattle.wire_core.specs.Same.{same_key};
    ghost use Rattle.plain_schedule.specs.Connections.{IsIndexed};

    ghost view = { λ c. c.opened.items };

    ghost invariant = { λ c. IsIndexed c.opened.items (get same_key c.by_private) (get same_key c.by_public) };
}

/// The connection of a key from now on.
fn put(map: &mut IndexMap<FlowKey, Connection>, key: FlowKey, connection: Connection)
    requires { 0 < spare map.old }
    ensures { (k : Key)
        → get same_key map.new k ≡ (if same_key key k then Some connection else get same_key map.old k) }
{
    map.insert(key, connection).unwrap();
}

impl Connections {
    /// No connections.
    pub fn new(alloc: Global) -> Connections
        ensures { result ≡ [] }
    {
        Connections {
            opened: Vec::new(alloc),
            by_private: IndexMap::new(alloc),
            by_public: IndexMap::new(alloc),
        }
    }

    /// The newest connection with this private key.
    pub fn newest_private(&self, key: &FlowKey) -> Option<Connection>
        ensures { result ≡ newest (has_private key.now) self.now }
    {
        self.by_private.get(key).copied()
    }

    /// The newest connection with this public key.
    pub fn newest_public(&self, key: &FlowKey) -> Option<Connection>
        ensures { result ≡ newest (has_public key.now) self.now }
    {
        self.by_public.get(key).copied()
    }

    /// One connection more. Without memory they stay as they were.
    pub fn open(&mut self, connection: Connection) -> Result<(), NoMemory>
        ensures ok { OnOk result (self.new ≡ self.old ++ connection ∷ []) }
        ensures err { OnErr result (self.new ≡ self.old) }
    {
        self.opened.reserve(1)?;
        self.by_private.reserve(1)?;
        self.by_public.reserve(1)?;
        put(&mut self.by_private, connection.private, connection);
        put(&mut self.by_public, connection.public, connection);
        self.opened.push(connection).unwrap();
        Ok(())
    }
}
