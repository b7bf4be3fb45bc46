// Both checksums of a packet, worked out anew.
ghost use Rattle.std.specs.Prelude.{◌≡◌, ◌≤◌, ◌+◌, length};
ghost use Rattle.packet_spec.specs.Segments.{sum_place};
ghost use Rattle.packet_spec.specs.Edits.{put_header_sum, put_segment_sum, put_sums, sent_sum};
ghost use Rattle.packet_spec.specs.Layouts.{LiesWithin};

use inet_sum::checksum;
use packet_spec::{Layout, address_at, put_word, word_at};
use tcp_udp_codec::segment_checksum;
use wire_core::Proto;

/// Where the header's checksum stands.
const HEADER_SUM: usize = 10;

/// Where a segment's checksum stands, from its first byte.
fn sum_place(proto: Proto) -> usize
    ensures place { result ≡ sum_place proto }
    ensures within { result + 2 ≤ 18 }
{
    match proto {
        Proto::Tcp => 16,
        Proto::Udp => 6,
    }
}

/// A computed checksum as it is sent: UDP sends 0 as FFFF, for its 0 says that there is none.
fn sent_sum(proto: Proto, sum: u16) -> u16
    ensures { result ≡ sent_sum proto sum }
{
    match proto {
        Proto::Udp if sum == 0 => 0xffff,
        _ => sum,
    }
}

#[tactic(auto, unfolding(packet_spec::specs::Edits::put_header_sum))]
fn put_header_sum(p: &mut [u8], l: &Layout)
    requires { LiesWithin l.now (length p.old) }
    ensures { p.new ≡ put_header_sum l.now p.old }
{
    put_word(p, HEADER_SUM, 0);
    let sum = checksum(&p[..l.start]);
    put_word(p, HEADER_SUM, sum);
}

#[tactic(auto, unfolding(packet_spec::specs::Edits::put_segment_sum))]
fn put_segment_sum(p: &mut [u8], l: &Layout)
    requires { LiesWithin l.now (length p.old) }
    ensures { p.new ≡ put_segment_sum l.now p.old }
{
    let at = l.start + sum_place(l.proto);
    if l.proto == Proto::Udp && word_at(p, at) == 0 {
        return;
    }
    put_word(p, at, 0);
    let sum = segment_checksum(
        l.proto,
        address_at(p, 12),
        address_at(p, 16),
        &p[l.start..l.end],
    );
    put_word(p, at, sent_sum(l.proto, sum));
}

/// Computes both checksums.
pub(crate) fn put_sums(p: &mut [u8], l: &Layout)
    requires { LiesWithin l.now (length p.old) }
    ensures { p.new ≡ put_sums l.now p.old }
{
    put_header_sum(p, l);
    put_segment_sum(p, l);
}
