ghost use Rattle.std.specs.Prelude.{◌≡◌, length, take, OnOk, IfOk, None};
ghost use Rattle.wire_core.specs.declared.flow.Proto.TheVariants.{Tcp, Udp};
ghost use Rattle.packet_spec.specs.Headers.{ttl_of};
ghost use Rattle.packet_spec.specs.Packets.{read_packet, packet_fault, proto_of, carried, key_of, has_syn, has_ack};
ghost use Rattle.packet_spec.specs.Packets.{has_rst};

use ip_codec::Ip4View;
use packet_spec::PacketFault;
use std::marker::Model;
use tcp_udp_codec::Segment;
use wire_core::{FlowKey, Proto};

/// A packet without fault. In contracts it is the list of its bytes, up to its total length.
#[derive(Drop)]
pub struct Packet<'a> {
    ip: Ip4View<'a>,
    proto: Proto,
    segment: Segment<'a>,
}

impl<'a> Model for Packet<'a> {
    ghost use Rattle.std.specs.Prelude.{List, ℕ};

    ghost Value = { List ℕ };

    ghost view = { λ p. p.ip };

    ghost use Rattle.packet_edit.specs.Parts.{HasParts};

    ghost invariant = { λ p. HasParts p.ip p.proto p.segment };
}

/// The transport of a protocol number: 6 is TCP, 17 is UDP.
fn proto_of(number: u8) -> Option<Proto>
    ensures { result ≡ proto_of number }
{
    match number {
        6 => Some(Proto::Tcp),
        17 => Some(Proto::Udp),
        _ => None,
    }
}

impl<'a> Packet<'a> {
    #[tactic(auto, using(crate::proofs::ReadLaws::header_fault, crate::proofs::ReadLaws::not_transport, crate::proofs::ReadLaws::segment_read_fault, crate::proofs::ReadLaws::packet_read, crate::proofs::ReadLaws::parts_read))]
    fn read_parts(bytes: &'a [u8]) -> Result<Packet<'a>, PacketFault>
        ensures { result ≡ read_packet bytes.now }
    {
        let ip = match Ip4View::read(bytes) {
            Ok(ip) => ip,
            Err(fault) => return Err(PacketFault::Ip(fault)),
        };
        let proto = match proto_of(ip.proto_number()) {
            Some(proto) => proto,
            None => return Err(PacketFault::NotTransport),
        };
        match Segment::read(proto, ip.src(), ip.dst(), ip.payload()) {
            Ok(segment) => Ok(Packet { ip, proto, segment }),
            Err(fault) => Err(PacketFault::Segment(fault)),
        }
    }

    /// The packet at the front of the bytes, or its first fault: a fault of the header, `NotTransport`, a fault of the
    /// segment. Bytes past the total length are ignored.
    pub fn read(bytes: &'a [u8]) -> Result<Packet<'a>, PacketFault>
        ensures packet { result ≡ read_packet bytes.now }
        // What is lent is the front of the bytes, and neither it nor the bytes have a fault.
        ensures front { IfOk result (λ p. take (length p) bytes.now ≡ p) }
        ensures fine { IfOk result (λ p. packet_fault p ≡ None) }
        ensures buffer { OnOk result (packet_fault bytes.now ≡ None) }
    {
        Packet::read_parts(bytes)
    }

    /// The five numbers of the packet.
    #[tactic(auto, unfolding(packet_spec::specs::Packets::key_of))]
    pub fn key(&self) -> FlowKey
        ensures { result ≡ key_of self.now }
    {
        FlowKey {
            src: self.ip.src(),
            dst: self.ip.dst(),
            sport: self.segment.sport(),
            dport: self.segment.dport(),
            proto: self.proto,
        }
    }

    /// Whether it is a TCP segment with SYN.
    #[tactic(auto, unfolding(packet_spec::specs::Packets::has_syn))]
    pub fn syn(&self) -> bool
        ensures { result ≡ has_syn self.now }
    {
        self.segment.syn()
    }

    /// Whether it is a TCP segment with ACK.
    #[tactic(auto, unfolding(packet_spec::specs::Packets::has_ack))]
    pub fn ack(&self) -> bool
        ensures { result ≡ has_ack self.now }
    {
        self.segment.ack()
    }

    /// Whether it is a TCP segment with RST.
    #[tactic(auto, unfolding(packet_spec::specs::Packets::has_rst))]
    pub fn rst(&self) -> bool
        ensures { result ≡ has_rst self.now }
    {
        self.segment.rst()
    }

    /// The time to live, in hops.
    pub fn ttl(&self) -> u8
        ensures { result ≡ ttl_of self.now }
    {
        self.ip.ttl()
    }

    /// The IPv4 packet, with the parts of its header.
    pub fn ip(&self) -> &Ip4View<'a>
        ensures { result.now ≡ self.now }
    {
        &self.ip
    }

    /// The total length, in bytes.
    pub fn len(&self) -> usize
        ensures { result ≡ length self.now }
    {
        self.ip.whole().len()
    }

    /// The bytes up to the total length.
    pub fn whole(&self) -> &'a [u8]
        ensures { result.now ≡ self.now }
    {
        self.ip.whole()
    }
}
