ghost use Rattle.std.specs.Prelude.{◌≡◌};
ghost use Rattle.agent_flows.specs.Changes.{made};

use agent_spec::Connection;
use wire_core::Ip4;

/// What a call changes in a connection. No key changes.
#[derive(Clone, Copy, Debug, PartialEq, Eq)]
pub enum Change {
    /// It is used now.
    Used { now: u64 },
    /// It has this peer and number.
    Peer { peer: Option<Ip4>, n: u64 },
    /// It is used now, and its peer may be cleared.
    Again { now: u64, clear: bool },
}

impl Change {
    /// The connection after the change.
    pub fn made(self, c: &Connection) -> Connection
        ensures { result ≡ made self c.now }
    {
        match self {
            Change::Used { now } => Connection { last: now, ..*c },
            Change::Peer { peer, n } => Connection { peer, n, ..*c },
            Change::Again { now, clear } => Connection {
                last: now,
                peer: if clear { None } else { c.peer },
                ..*c
            },
        }
    }
}
