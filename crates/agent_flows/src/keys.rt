ghost use Rattle.std.specs.Prelude.{◌≡◌};
ghost use Rattle.agent_spec.specs.Connections.{conn_of, private_key, public_key};

use agent_spec::Connection;
use wire_core::{Conn, FlowKey};

/// The key of the machine's packets: from the machine and its own port.
#[tactic(auto, unfolding(agent_spec::specs::Connections::private_key))]
pub fn private_key(c: &Connection) -> FlowKey
    ensures { result ≡ private_key c.now }
{
    FlowKey {
        src: c.machine,
        dst: c.remote,
        sport: c.sport,
        dport: c.rport,
        proto: c.proto,
    }
}

/// The key of the packets that leave: from the VIP and the port of the lease.
#[tactic(auto, unfolding(agent_spec::specs::Connections::public_key))]
pub fn public_key(c: &Connection) -> FlowKey
    ensures { result ≡ public_key c.now }
{
    FlowKey {
        src: c.vip,
        dst: c.remote,
        sport: c.port,
        dport: c.rport,
        proto: c.proto,
    }
}

/// The connection as acts name it.
pub fn conn_of(c: &Connection) -> Conn
    ensures { result ≡ conn_of c.now }
{
    Conn {
        vip: c.vip,
        proto: c.proto,
        port: c.port,
        remote: c.remote,
        rport: c.rport,
        machine: c.machine,
        sport: c.sport,
    }
}
