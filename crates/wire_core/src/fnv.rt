// 32-bit FNV-1a.
ghost use Rattle.std.specs.Prelude.{◌≡◌};
ghost use Rattle.wire_core.specs.Flows.{fnv_1a_from, fnv_1a_step};
ghost use Rattle.wire_core.specs.Numbers.{number_bytes};

use crate::address::Ip4;
use byteorder::{BigEndian, ByteOrder};

/// FNV-1a's offset basis for 32 bits.
pub(crate) const FNV_OFFSET: u32 = 2_166_136_261;

/// FNV-1a's prime for 32 bits.
const FNV_PRIME: u32 = 16_777_619;

/// The hash with one more byte.
#[tactic(auto, unfolding(crate::specs::Flows::fnv_1a_step))]
pub(crate) fn fnv_1a_step(hash: u32, byte: u8) -> u32
    ensures { result ≡ fnv_1a_step hash byte }
{
    (hash ^ u32::from(byte)).wrapping_mul(FNV_PRIME)
}

/// The hash with these bytes more.
pub(crate) fn fnv_1a_from(hash: u32, bytes: &[u8]) -> u32
    ensures { result ≡ fnv_1a_from hash bytes.now }
{
    let mut hash = hash;
    for byte in bytes {
        hash = fnv_1a_step(hash, *byte);
    }
    hash
}

/// The hash with a port more, big-endian.
#[tactic(auto, unfolding(crate::specs::Numbers::number_bytes))]
pub(crate) fn fnv_1a_port(hash: u32, port: u16) -> u32
    ensures { result ≡ fnv_1a_from hash (number_bytes 2 port) }
{
    let mut bytes = [0; 2];
    BigEndian::write_u16(&mut bytes, port);
    fnv_1a_from(hash, &bytes)
}

/// The hash with an address more, big-endian.
#[tactic(auto, unfolding(crate::specs::Numbers::number_bytes))]
pub(crate) fn fnv_1a_address(hash: u32, ip: Ip4) -> u32
    ensures { result ≡ fnv_1a_from hash (number_bytes 4 ip.0) }
{
    let mut bytes = [0; 4];
    BigEndian::write_u32(&mut bytes, ip.0);
    fnv_1a_from(hash, &bytes)
}
