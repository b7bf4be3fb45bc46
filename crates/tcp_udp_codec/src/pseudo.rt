// The checksum of a segment covers a pseudo-header before it (RFC 9293, section 3.1; RFC 768).
ghost use Rattle.std.specs.Prelude.{◌≡◌, ◌≤◌, length};
ghost use Rattle.packet_spec.specs.Segments.{proto_number, pseudo_header, covered};
ghost use Rattle.packet_spec.specs.Sums.{ones_sum, checksum};

use inet_sum::{checksum_parts, ones_sum_parts};
use packet_spec::{address_words, word_bytes};
use wire_core::{Ip4, Proto};

/// The protocol's number in the IPv4 header.
fn proto_number(proto: Proto) -> u8
    ensures { result ≡ proto_number proto }
{
    match proto {
        Proto::Tcp => 6,
        Proto::Udp => 17,
    }
}

/// Both addresses, a zero byte, the protocol and the segment's length.
#[tactic(auto, unfolding(packet_spec::specs::Segments::pseudo_header))]
fn pseudo_header(proto: Proto, src: Ip4, dst: Ip4, len: u16) -> [u8; 12]
    ensures { result ≡ pseudo_header proto src dst len }
{
    let (src_high, src_low) = address_words(src);
    let [src0, src1] = word_bytes(src_high);
    let [src2, src3] = word_bytes(src_low);
    let (dst_high, dst_low) = address_words(dst);
    let [dst0, dst1] = word_bytes(dst_high);
    let [dst2, dst3] = word_bytes(dst_low);
    let [len_high, len_low] = word_bytes(len);
    [
        src0,
        src1,
        src2,
        src3,
        dst0,
        dst1,
        dst2,
        dst3,
        0,
        proto_number(proto),
        len_high,
        len_low,
    ]
}

/// The one's complement sum of pseudo-header and segment: FFFF where the checksum in it is right.
pub fn segment_sum(proto: Proto, src: Ip4, dst: Ip4, segment: &[u8]) -> u16
    requires { length segment.now ≤ 65535 }
    ensures { result ≡ ones_sum (covered proto src dst segment.now) }
{
    ones_sum_parts(
        &pseudo_header(proto, src, dst, segment.len() as u16),
        segment,
    )
}

/// The checksum of pseudo-header and segment. Where it is to be written, the segment has 0 in its place.
pub fn segment_checksum(proto: Proto, src: Ip4, dst: Ip4, segment: &[u8]) -> u16
    requires { length segment.now ≤ 65535 }
    ensures { result ≡ checksum (covered proto src dst segment.now) }
{
    checksum_parts(
        &pseudo_header(proto, src, dst, segment.len() as u16),
        segment,
    )
}
