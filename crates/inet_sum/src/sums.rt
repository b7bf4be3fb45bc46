ghost use Rattle.std.specs.Prelude.{◌≡◌, ◌%◌, ◌++◌, length};
ghost use Rattle.packet_spec.specs.Sums.{ones_sum, checksum};

use crate::blocks::{block_sum, fold};

/// The most bytes that are summed before the carries are folded in: the sums of 32-bit halves of so many stay far
/// below 2^64.
const BLOCK: usize = 0x1_0000;

/// The one's complement sum of the 16-bit words. An odd last byte is padded with a zero byte.
pub fn ones_sum(bytes: &[u8]) -> u16
    ensures { result ≡ ones_sum bytes.now }
{
    let mut sum = 0u16;
    let mut left = bytes;
    while left.len() > BLOCK {
        let (block, rest) = left.split_at(BLOCK);
        sum = fold(u64::from(sum) + 256 * block_sum(block));
        left = rest;
    }
    fold(u64::from(sum) + 256 * block_sum(left))
}

/// The one's complement sum of the words of `a`, which has an even number of bytes, and then of `b`.
pub fn ones_sum_parts(a: &[u8], b: &[u8]) -> u16
    requires { length a.now % 2 ≡ 0 }
    ensures { result ≡ ones_sum (a.now ++ b.now) }
{
    fold(u64::from(ones_sum(a)) + u64::from(ones_sum(b)))
}

/// The checksum: the one's complement of the one's complement sum of the 16-bit words. An odd last byte is padded
/// with a zero byte.
#[tactic(auto, unfolding(packet_spec::specs::Sums::checksum))]
pub fn checksum(bytes: &[u8]) -> u16
    ensures { result ≡ checksum bytes.now }
{
    u16::MAX - ones_sum(bytes)
}

/// The checksum of `a`, which has an even number of bytes, and then `b`.
#[tactic(auto, unfolding(packet_spec::specs::Sums::checksum))]
pub fn checksum_parts(a: &[u8], b: &[u8]) -> u16
    requires { length a.now % 2 ≡ 0 }
    ensures { result ≡ checksum (a.now ++ b.now) }
{
    u16::MAX - ones_sum_parts(a, b)
}
