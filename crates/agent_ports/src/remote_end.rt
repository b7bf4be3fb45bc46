ghost use Rattle.std.specs.Prelude.{◌≡◌};
ghost use Rattle.agent_ports.specs.Full.{end_of, end_of_connection, public_at};

use agent_spec::Connection;
use wire_core::{FlowKey, Ip4, Proto};

/// A remote end, for the packets of one machine through its VIP.
#[derive(Clone, Copy, Debug, PartialEq, Eq, Hash)]
pub struct RemoteEnd {
    pub machine: Ip4,
    pub vip: Ip4,
    pub remote: Ip4,
    pub rport: u16,
    pub proto: Proto,
}

impl RemoteEnd {
    /// Where the packets with this key go.
    pub fn of(key: &FlowKey, vip: Ip4) -> RemoteEnd
        ensures { result ≡ end_of key.now vip }
    {
        RemoteEnd {
            machine: key.src,
            vip,
            remote: key.dst,
            rport: key.dport,
            proto: key.proto,
        }
    }

    /// Where the connection's packets go.
    pub fn of_connection(c: &Connection) -> RemoteEnd
        ensures { result ≡ end_of_connection c.now }
    {
        RemoteEnd {
            machine: c.machine,
            vip: c.vip,
            remote: c.remote,
            rport: c.rport,
            proto: c.proto,
        }
    }

    /// The public key of what leaves from a port.
    pub fn public_at(&self, port: u16) -> FlowKey
        ensures { result ≡ public_at self.now port }
    {
        FlowKey {
            src: self.vip,
            dst: self.remote,
            sport: port,
            dport: self.rport,
            proto: self.proto,
        }
    }
}
