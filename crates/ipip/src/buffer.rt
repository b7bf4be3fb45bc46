ghost use Rattle.std.specs.Prelude.{◌≡◌, ◌+◌, ◌≤◌, [], ◌++◌, take, drop, length, vec_capacity, IfOk};
ghost use Rattle.packet_spec.specs.Headers.{header_length, ttl_of};
ghost use Rattle.ipip.specs.Wrapping.{lowered};

use inet_sum::checksum;
use packet_spec::put_word;
use std::alloc::Global;
use std::marker::Model;
use wire_core::{NoMemory, put_bytes};

/// The most bytes of a packet in a datagram.
const ROOM: usize = 65_507;

/// The length of the outer header in bytes.
pub(crate) const OUTER: usize = 20;

/// Where the time to live and the header's checksum stand.
pub(crate) const TTL: usize = 8;

const HEADER_SUM: usize = 10;

/// A fixed buffer of 65,507 bytes. In contracts it is the list of the bytes that were last written.
#[derive(Debug, Drop)]
pub struct Buf {
    bytes: Vec<u8>,
}

impl Model for Buf {
    ghost use Rattle.std.specs.Prelude.{List, ℕ, ◌≤◌, vec_capacity};

    ghost Value = { List ℕ };

    ghost view = { λ b. b.bytes.items };

    ghost invariant = { λ b. 65507 ≤ vec_capacity b.bytes };
}

/// Replaces the bytes by a header and a packet, for which there is room.
fn fill(out: &mut Vec<u8>, header: &[u8], packet: &[u8])
    requires { length header.now + length packet.now ≤ vec_capacity out.old }
    ensures bytes { out.new.items ≡ header.now ++ packet.now }
    ensures room { vec_capacity out.old ≤ vec_capacity out.new }
{
    out.clear();
    put_bytes(out, header);
    put_bytes(out, packet);
}

/// Lowers the time to live by one, which it has, and makes the header's checksum right.
#[tactic(auto, unfolding(crate::specs::Wrapping::lowered, packet_spec::specs::Edits::layout_of, packet_spec::specs::Edits::put_ttl, packet_spec::specs::Edits::put_header_sum))]
fn lower_ttl(p: &mut [u8])
    requires header { 20 ≤ header_length p.old }
    requires within { header_length p.old ≤ length p.old }
    requires hops { 1 ≤ ttl_of p.old }
    ensures { p.new ≡ lowered 1 p.old }
{
    let header = 4 * usize::from(p[0] % 16);
    p[TTL] -= 1;
    put_word(p, HEADER_SUM, 0);
    let sum = checksum(&p[..header]);
    put_word(p, HEADER_SUM, sum);
}

/// Lowers the time to live of the packet behind the outer header.
fn lower_inner(p: &mut [u8])
    requires outer { 20 ≤ length p.old }
    requires header { 20 ≤ header_length (drop 20 p.old) }
    requires within { header_length (drop 20 p.old) ≤ length (drop 20 p.old) }
    requires hops { 1 ≤ ttl_of (drop 20 p.old) }
    ensures { p.new ≡ take 20 p.old ++ lowered 1 (drop 20 p.old) }
{
    let (_, inner) = p.split_at_mut(OUTER);
    lower_ttl(inner);
}

impl Buf {
    /// An empty buffer.
    pub fn new(alloc: Global) -> Result<Buf, NoMemory>
        ensures { IfOk result (λ b. b ≡ []) }
    {
        let bytes = Vec::with_capacity(alloc, ROOM)?;
        Ok(Buf { bytes })
    }

    /// What the last successful call wrote.
    pub fn bytes(&self) -> &[u8]
        ensures { result.now ≡ self.now }
    {
        self.bytes.as_slice()
    }

    /// Replaces the bytes by an outer header and a packet.
    pub(crate) fn put(&mut self, outer: &[u8; 20], packet: &[u8])
        requires { length packet.now ≤ 65000 }
        ensures { self.new ≡ outer.now ++ packet.now }
    {
        fill(&mut self.bytes, outer, packet);
    }

    /// The same, with the packet's time to live lowered by one.
    pub(crate) fn put_lowered(&mut self, outer: &[u8; 20], packet: &[u8])
        requires few { length packet.now ≤ 65000 }
        requires header { 20 ≤ header_length packet.now }
        requires within { header_length packet.now ≤ length packet.now }
        requires hops { 1 ≤ ttl_of packet.now }
        ensures { self.new ≡ outer.now ++ lowered 1 packet.now }
    {
        fill(&mut self.bytes, outer, packet);
        lower_inner(self.bytes.as_mut_slice());
    }
}
