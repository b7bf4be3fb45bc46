ghost use Rattle.std.specs.Prelude.{◌≡◌};
ghost use Rattle.wire_core.specs.Flows.{hash, proto_number, reverse};

use crate::address::Ip4;
use crate::fnv::{FNV_OFFSET, fnv_1a_address, fnv_1a_port, fnv_1a_step};

/// The transports that are carried: TCP (RFC 9293, protocol 6) and UDP (RFC 768, protocol 17).
#[derive(Clone, Copy, Debug, PartialEq, Eq, PartialOrd, Ord, Hash)]
pub enum Proto {
    Tcp,
    Udp,
}

impl Proto {
    /// The protocol's number in an IPv4 header: 6 for TCP, 17 for UDP.
    pub fn number(self) -> u8
        ensures { result ≡ proto_number self }
    {
        match self {
            Proto::Tcp => 6,
            Proto::Udp => 17,
        }
    }
}

/// The five numbers of a flow, as a packet of it carries them.
#[derive(Clone, Copy, Debug, PartialEq, Eq, PartialOrd, Ord, Hash)]
pub struct FlowKey {
    pub src: Ip4,
    pub dst: Ip4,
    pub sport: u16,
    pub dport: u16,
    pub proto: Proto,
}

impl FlowKey {
    /// The key of the packets that answer: both ends swapped.
    pub fn reverse(&self) -> FlowKey
        ensures { result ≡ reverse self.now }
    {
        FlowKey {
            src: self.dst,
            dst: self.src,
            sport: self.dport,
            dport: self.sport,
            proto: self.proto,
        }
    }

    /// 32-bit FNV-1a over 13 bytes, big-endian: source, destination, source port, destination port, protocol number.
    #[tactic(auto, unfolding(crate::specs::Flows::hash))]
    pub fn hash(&self) -> u32
        ensures { result ≡ hash self.now }
    {
        let ends = fnv_1a_address(fnv_1a_address(FNV_OFFSET, self.src), self.dst);
        let ports = fnv_1a_port(fnv_1a_port(ends, self.sport), self.dport);
        fnv_1a_step(ports, self.proto.number())
    }
}
