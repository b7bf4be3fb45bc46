ghost use Rattle.std.specs.Prelude.{◌≡◌, ◌+◌, ◌*◌, ◌≤◌, length, IfSome};
ghost use Rattle.wire_core.specs.declared.flow.Proto.TheVariants.{Tcp, Udp};
ghost use Rattle.packet_spec.specs.Segments.{read_segment, source_port, destination_port, is_syn, is_ack, is_rst};
ghost use Rattle.packet_spec.specs.Segments.{segment_mss, udp_length};

use crate::options::{data_offset, mss_at};
use crate::pseudo::segment_sum;
use packet_spec::{SegmentFault, word_at};
use std::marker::Model;
use wire_core::{Ip4, Proto};

/// The fewest bytes of a TCP header, and a UDP header's.
const LEAST_TCP: usize = 20;

const UDP_HEADER: usize = 8;

/// Control bits of TCP, in byte 13.
const SYN: u8 = 0x02;

const RST: u8 = 0x04;

const ACK: u8 = 0x10;

/// A segment without fault. In contracts it is its protocol and the list of its bytes.
#[derive(Drop)]
pub struct Segment<'a> {
    proto: Proto,
    bytes: &'a [u8],
}

impl<'a> Model for Segment<'a> {
    ghost use Rattle.packet_spec.specs.Segments as segments;

    ghost Value = { segments.Segment };

    ghost view = { λ s. record { proto = s.proto; bytes = s.bytes.now } };

    ghost invariant = { λ s. segments.HasFields s.proto s.bytes.now };
}

#[tactic(auto, unfolding(packet_spec::specs::Segments::read_segment, packet_spec::specs::Segments::segment_fault))]
fn read_tcp(src: Ip4, dst: Ip4, bytes: &[u8]) -> Result<Segment<'_>, SegmentFault>
    requires { length bytes.now ≤ 65535 }
    ensures { result ≡ read_segment Tcp src dst bytes.now }
{
    if bytes.len() < LEAST_TCP {
        return Err(SegmentFault::Short);
    }
    let offset = data_offset(bytes);
    if offset < LEAST_TCP || bytes.len() < offset {
        return Err(SegmentFault::DataOffset);
    }
    if segment_sum(Proto::Tcp, src, dst, bytes) != 0xffff {
        return Err(SegmentFault::Sum);
    }
    Ok(Segment {
        proto: Proto::Tcp,
        bytes,
    })
}

#[tactic(auto, unfolding(packet_spec::specs::Segments::read_segment, packet_spec::specs::Segments::segment_fault))]
fn read_udp(src: Ip4, dst: Ip4, bytes: &[u8]) -> Result<Segment<'_>, SegmentFault>
    requires { length bytes.now ≤ 65535 }
    ensures { result ≡ read_segment Udp src dst bytes.now }
{
    if bytes.len() < UDP_HEADER {
        return Err(SegmentFault::Short);
    }
    let length = usize::from(word_at(bytes, 4));
    if length < UDP_HEADER || bytes.len() < length {
        return Err(SegmentFault::Length);
    }
    let segment = &bytes[..length];
    if word_at(segment, 6) != 0 && segment_sum(Proto::Udp, src, dst, segment) != 0xffff {
        return Err(SegmentFault::Sum);
    }
    Ok(Segment {
        proto: Proto::Udp,
        bytes: segment,
    })
}

impl<'a> Segment<'a> {
    /// The segment at the front of the bytes, which a packet from `src` to `dst` carries, or its first fault: `Short`,
    /// `DataOffset` (TCP), `Length` (UDP), `Sum`.
    pub fn read(
        proto: Proto,
        src: Ip4,
        dst: Ip4,
        bytes: &'a [u8],
    ) -> Result<Segment<'a>, SegmentFault>
        requires { length bytes.now ≤ 65535 }
        ensures { result ≡ read_segment proto src dst bytes.now }
    {
        match proto {
            Proto::Tcp => read_tcp(src, dst, bytes),
            Proto::Udp => read_udp(src, dst, bytes),
        }
    }

    /// The port that the segment comes from.
    pub fn sport(&self) -> u16
        ensures { result ≡ source_port self.now.bytes }
    {
        word_at(self.bytes, 0)
    }

    /// The port that the segment goes to.
    pub fn dport(&self) -> u16
        ensures { result ≡ destination_port self.now.bytes }
    {
        word_at(self.bytes, 2)
    }

    /// Whether TCP's SYN is set. False for UDP.
    pub fn syn(&self) -> bool
        ensures { result ≡ is_syn self.now.proto self.now.bytes }
    {
        self.proto == Proto::Tcp && self.bytes[13] / SYN % 2 == 1
    }

    /// Whether TCP's ACK is set. False for UDP.
    pub fn ack(&self) -> bool
        ensures { result ≡ is_ack self.now.proto self.now.bytes }
    {
        self.proto == Proto::Tcp && self.bytes[13] / ACK % 2 == 1
    }

    /// Whether TCP's RST is set. False for UDP.
    pub fn rst(&self) -> bool
        ensures { result ≡ is_rst self.now.proto self.now.bytes }
    {
        self.proto == Proto::Tcp && self.bytes[13] / RST % 2 == 1
    }

    /// The place, from the segment's first byte, of the value of the first option of kind 2 and length 4. `None` for
    /// UDP, and where the walk over the options ends without one.
    pub fn mss_at(&self) -> Option<usize>
        ensures place { result ≡ segment_mss self.now.proto self.now.bytes }
        ensures room { IfSome result (λ at. at + 2 ≤ length self.now.bytes) }
    {
        match self.proto {
            Proto::Tcp => mss_at(self.bytes),
            Proto::Udp => None,
        }
    }

    /// The bytes of the segment.
    pub fn bytes(&self) -> &'a [u8]
        ensures { result.now ≡ self.now.bytes }
    {
        self.bytes
    }
}
