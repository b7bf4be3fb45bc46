ghost use Rattle.std.specs.Prelude.{◌≡◌, ◌+◌, ◌*◌, ◌≤◌, length};
ghost use Rattle.packet_spec.specs.Headers.{header_with, header_bytes};

use inet_sum::checksum;
use packet_spec::{Ip4Header, address_words, word_bytes};

/// The bytes of a header with this checksum.
fn header_with(h: &Ip4Header, sum: u16) -> [u8; 20]
    ensures { result ≡ header_with h.now sum }
{
    let [total_high, total_low] = word_bytes(h.total);
    let [id_high, id_low] = word_bytes(h.id);
    let [sum_high, sum_low] = word_bytes(sum);
    let df = if h.df { 0x40 } else { 0 };
    let (src_high, src_low) = address_words(h.src);
    let [src0, src1] = word_bytes(src_high);
    let [src2, src3] = word_bytes(src_low);
    let (dst_high, dst_low) = address_words(h.dst);
    let [dst0, dst1] = word_bytes(dst_high);
    let [dst2, dst3] = word_bytes(dst_low);
    [
        0x45, h.tos, total_high, total_low, id_high, id_low, df, 0, h.ttl, h.proto, sum_high,
        sum_low, src0, src1, src2, src3, dst0, dst1, dst2, dst3,
    ]
}

/// Writes the header: version 4, five words, the fragment offset 0, and the right checksum.
#[tactic(auto, unfolding(packet_spec::specs::Headers::header_bytes))]
pub fn write_header(h: &Ip4Header, out: &mut [u8; 20])
    ensures { out.new ≡ header_bytes h.now }
{
    let sum = checksum(&header_with(h, 0));
    *out = header_with(h, sum);
}
