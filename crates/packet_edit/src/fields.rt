// The fields that a translation changes, and where they lie.
ghost use Rattle.std.specs.Prelude.{◌≡◌, ◌≤◌, ◌+◌, length, IfSome, Some, None};
ghost use Rattle.packet_spec.specs.Segments.{HasFields};
ghost use Rattle.packet_spec.specs.Packets.{packet_fault, carried};
ghost use Rattle.packet_spec.specs.Edits.{layout_of, put_source, put_destination, put_ttl, syn_mss, lower_word};
ghost use Rattle.packet_spec.specs.Edits.{clamp, segment_in};
ghost use Rattle.packet_spec.specs.Layouts.{LiesWithin};

use packet_spec::{Layout, put_address, put_word, word_at};
use tcp_udp_codec::mss_at;
use wire_core::{Ip4, Proto};

/// The protocol number of TCP.
const TCP: u8 = 6;

/// Where the addresses stand.
const SOURCE: usize = 12;

const DESTINATION: usize = 16;

/// Where the time to live stands.
pub(crate) const TTL: usize = 8;

/// TCP's SYN, in byte 13 of the segment.
const SYN: u8 = 0x02;

/// The greatest maximum segment size that leaves room for a second header within 1,500 bytes.
const GREATEST_MSS: u16 = 1440;

/// Where the parts of a packet without fault lie.
#[tactic(auto, using(packet_spec::proofs::LayoutLaws::laid_out, packet_spec::proofs::LayoutLaws::laid_fields, packet_spec::proofs::LayoutLaws::long_enough, packet_spec::proofs::LayoutLaws::udp_length_there), unfolding(packet_spec::specs::Edits::layout_of))]
pub(crate) fn layout_of(p: &[u8]) -> Layout
    requires { packet_fault p.now ≡ None }
    ensures long { 20 ≤ length p.now }
    ensures layout { result ≡ layout_of p.now }
    ensures fits { LiesWithin result (length p.now) }
    ensures fields { HasFields result.proto (segment_in result p.now) }
{
    let start = 4 * usize::from(p[0] % 16);
    if p[9] == TCP {
        Layout {
            proto: Proto::Tcp,
            start,
            end: usize::from(word_at(p, 2)),
        }
    } else {
        Layout {
            proto: Proto::Udp,
            start,
            end: start + usize::from(word_at(p, start + 4)),
        }
    }
}

/// Sets the source address and port.
#[tactic(auto, unfolding(packet_spec::specs::Edits::put_source))]
pub(crate) fn put_source(p: &mut [u8], l: &Layout, ip: Ip4, port: u16)
    requires { LiesWithin l.now (length p.old) }
    ensures { p.new ≡ put_source l.now ip port p.old }
{
    put_address(p, SOURCE, ip);
    put_word(p, l.start, port);
}

/// Sets the destination address and port.
#[tactic(auto, unfolding(packet_spec::specs::Edits::put_destination))]
pub(crate) fn put_destination(p: &mut [u8], l: &Layout, ip: Ip4, port: u16)
    requires { LiesWithin l.now (length p.old) }
    ensures { p.new ≡ put_destination l.now ip port p.old }
{
    put_address(p, DESTINATION, ip);
    put_word(p, l.start + 2, port);
}

/// Sets the time to live.
#[tactic(auto, unfolding(packet_spec::specs::Edits::put_ttl))]
pub(crate) fn put_ttl(p: &mut [u8], ttl: u8)
    requires { 20 ≤ length p.old }
    ensures { p.new ≡ put_ttl ttl p.old }
{
    p[TTL] = ttl;
}

/// The place of the maximum segment size that a SYN carries.
fn syn_mss(proto: Proto, segment: &[u8]) -> Option<usize>
    requires { HasFields proto segment.now }
    ensures place { result ≡ syn_mss proto segment.now }
    ensures room { IfSome result (λ at. at + 2 ≤ length segment.now) }
{
    match proto {
        Proto::Tcp if segment[13] / SYN % 2 == 1 => mss_at(segment),
        _ => None,
    }
}

/// Lowers a word that is greater than 1440 to it.
fn lower_word(p: &mut [u8], at: usize)
    requires { at + 2 ≤ length p.old }
    ensures { p.new ≡ lower_word (Some at) p.old }
{
    if word_at(p, at) > GREATEST_MSS {
        put_word(p, at, GREATEST_MSS);
    }
}

/// Lowers the maximum segment size of a SYN to 1440, where it is greater.
#[tactic(auto, unfolding(packet_spec::specs::Edits::clamp))]
pub(crate) fn clamp(p: &mut [u8], l: &Layout)
    requires fits { LiesWithin l.now (length p.old) }
    requires fields { HasFields l.now.proto (segment_in l.now p.old) }
    ensures { p.new ≡ clamp l.now p.old }
{
    if let Some(at) = syn_mss(l.proto, &p[l.start..l.end]) {
        lower_word(p, l.start + at);
    }
}
