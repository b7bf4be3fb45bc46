ghost use Rattle.std.specs.Prelude.{◌≡◌, ◌+◌, ◌*◌, ◌≤◌, ◌==◌, length};
ghost use Rattle.packet_spec.specs.Headers.{read_ip, tos_of, ttl_of, has_df, protocol_of, source_of, destination_of};
ghost use Rattle.packet_spec.specs.Headers.{header_of, payload_of, header_length, total_length, is_header_sum_wrong};
ghost use Rattle.packet_spec.specs.Headers.{is_fragment, IsWhole};

use inet_sum::ones_sum;
use packet_spec::{IpFault, address_at, word_at};
use std::marker::Model;
use wire_core::Ip4;

/// The fewest bytes of a header.
const LEAST_HEADER: usize = 20;

/// A packet whose header has no fault. In contracts it is the list of its bytes, up to its total length.
#[derive(Drop)]
pub struct Ip4View<'a> {
    bytes: &'a [u8],
}

impl<'a> Model for Ip4View<'a> {
    ghost use Rattle.std.specs.Prelude.{List, ℕ};
    ghost use Rattle.packet_spec.specs.Headers.{IsWhole};

    ghost Value = { List ℕ };

    ghost view = { λ v. v.bytes.now };

    ghost invariant = { λ v. IsWhole v.bytes.now };
}

/// The length of the header in bytes.
fn header_length(bytes: &[u8]) -> usize
    requires { 1 ≤ length bytes.now }
    ensures { result ≡ header_length bytes.now }
{
    4 * usize::from(bytes[0] % 16)
}

/// Whether more fragments follow or the offset isn't 0: one of the lower 14 bits of the word behind the
/// identification is set.
fn is_fragment(bytes: &[u8]) -> bool
    requires { 20 ≤ length bytes.now }
    ensures { result ≡ is_fragment bytes.now }
{
    bytes[6] / 32 % 2 == 1 || word_at(bytes, 6) % 8192 != 0
}

impl<'a> Ip4View<'a> {
    /// The packet at the front of the bytes, or the first fault of its header: `Short`, `Version`, `HeaderLength`,
    /// `TotalLength`, `HeaderSum`, `Fragment`. Bytes past the total length are ignored.
    #[tactic(auto, unfolding(packet_spec::specs::Headers::read_ip, packet_spec::specs::Headers::ip_fault, packet_spec::specs::Headers::whole))]
    pub fn read(bytes: &'a [u8]) -> Result<Ip4View<'a>, IpFault>
        ensures { result ≡ read_ip bytes.now }
    {
        if bytes.len() < LEAST_HEADER {
            return Err(IpFault::Short);
        }
        if bytes[0] / 16 != 4 {
            return Err(IpFault::Version);
        }
        if bytes[0] % 16 < 5 {
            return Err(IpFault::HeaderLength);
        }
        let header = header_length(bytes);
        let total = usize::from(word_at(bytes, 2));
        if total < header || bytes.len() < total {
            return Err(IpFault::TotalLength);
        }
        if ones_sum(&bytes[..header]) != 0xffff {
            return Err(IpFault::HeaderSum);
        }
        if is_fragment(bytes) {
            return Err(IpFault::Fragment);
        }
        Ok(Ip4View {
            bytes: &bytes[..total],
        })
    }

    /// The type of service.
    pub fn tos(&self) -> u8
        ensures { result ≡ tos_of self.now }
    {
        self.bytes[1]
    }

    /// The time to live, in hops.
    pub fn ttl(&self) -> u8
        ensures { result ≡ ttl_of self.now }
    {
        self.bytes[8]
    }

    /// Whether 'don't fragment' is set.
    pub fn df(&self) -> bool
        ensures { result ≡ has_df self.now }
    {
        self.bytes[6] / 64 % 2 == 1
    }

    /// The number of the payload's protocol: 6 for TCP, 17 for UDP, 4 for a packet within this one.
    pub fn proto_number(&self) -> u8
        ensures { result ≡ protocol_of self.now }
    {
        self.bytes[9]
    }

    /// The address that the packet comes from.
    pub fn src(&self) -> Ip4
        ensures { result ≡ source_of self.now }
    {
        address_at(self.bytes, 12)
    }

    /// The address that the packet goes to.
    pub fn dst(&self) -> Ip4
        ensures { result ≡ destination_of self.now }
    {
        address_at(self.bytes, 16)
    }

    /// The header with its options.
    pub fn header(&self) -> &'a [u8]
        ensures { result.now ≡ header_of self.now }
    {
        let length = header_length(self.bytes);
        &self.bytes[..length]
    }

    /// What follows the header, up to the total length.
    pub fn payload(&self) -> &'a [u8]
        ensures bytes { result.now ≡ payload_of self.now }
        ensures within { length result.now ≤ 65535 }
    {
        let length = header_length(self.bytes);
        &self.bytes[length..]
    }

    /// Header and payload: as many bytes as the total length says.
    pub fn whole(&self) -> &'a [u8]
        ensures bytes { result.now ≡ self.now }
        ensures whole { IsWhole self.now }
    {
        self.bytes
    }
}
