// Sums of little-endian words with the carries kept in wide numbers.
ghost use Rattle.std.specs.Prelude.{◌≡◌, ◌≤◌, ◌<◌, ◌*◌, ◌^◌, length};
ghost use Rattle.packet_spec.specs.Folds.{folded, word_sum};

/// The sum with its carries folded in: 0 for 0, and else the number from 1 to 65535 that differs by a multiple of
/// 65535.
#[tactic(auto, unfolding(packet_spec::specs::Folds::folded))]
pub(crate) fn fold(sum: u64) -> u16
    ensures { result ≡ folded sum }
{
    if sum == 0 {
        0
    } else {
        ((sum - 1) % 65535 + 1) as u16
    }
}

/// The sum of what stands behind the last eight bytes of a block, as little-endian words.
#[tactic(auto, using(crate::proofs::BlockLaws::two_bytes_more, crate::proofs::BlockLaws::last_byte, crate::proofs::BlockLaws::no_byte))]
fn tail_sum(bytes: &[u8]) -> u64
    requires { length bytes.now < 8 }
    ensures sum { folded (256 * result) ≡ folded (word_sum bytes.now) }
    ensures bound { result < 2 ^ 20 }
{
    let mut sum = 0u64;
    let mut left = bytes;
    while let Some((word, rest)) = left.split_first_chunk::<2>() {
        sum += u64::from(u16::from_le_bytes(*word));
        left = rest;
    }
    match left {
        [last] => sum + u64::from(*last),
        _ => sum,
    }
}

/// The sum of a block as little-endian words, two times 32 bits at a step, with its carries still in it.
#[tactic(auto, using(crate::proofs::BlockLaws::chunk_more, crate::proofs::BlockLaws::tail_added))]
pub(crate) fn block_sum(bytes: &[u8]) -> u64
    requires { length bytes.now ≤ 65536 }
    ensures sum { folded (256 * result) ≡ folded (word_sum bytes.now) }
    ensures bound { result < 2 ^ 48 }
{
    let mut low = 0u64;
    let mut high = 0u64;
    let (words, rest) = bytes.as_chunks::<8>();
    for eight in words {
        let word = u64::from_le_bytes(*eight);
        low += word % 0x1_0000_0000;
        high += word / 0x1_0000_0000;
    }
    low + high + tail_sum(rest)
}
