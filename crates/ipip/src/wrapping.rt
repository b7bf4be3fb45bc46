ghost use Rattle.std.specs.Prelude.{◌≡◌, ◌+◌, ◌≤◌, drop, length, None, Some, MatchResult, OnOk, OnErr};
ghost use Rattle.packet_spec.specs.Headers.{IsWhole, header_bytes, ttl_of};
ghost use Rattle.ipip.specs.Wrapping.{outer_header, wrap_fault, wrapped};

use crate::buffer::{Buf, OUTER, TTL};
use ip_codec::{Ip4Header, Ip4View, write_header};
use wire_core::Ip4;

/// The longest packet that is wrapped, in bytes.
const LONGEST: usize = 65_000;

/// Where the type of service stands.
const TOS: usize = 1;

/// Why a packet isn't wrapped, in the order of the tests.
#[derive(Clone, Copy, Debug, PartialEq, Eq)]
pub enum WrapFault {
    /// It has more than 65,000 bytes.
    TooLong,
    /// Its time to live has run out.
    TtlOut,
}

/// What forbids it to wrap the packet and lower its time to live by so many hops.
#[tactic(auto, unfolding(crate::specs::Wrapping::wrap_fault))]
fn may_wrap(packet: &[u8], hops: u8) -> Result<(), WrapFault>
    requires { IsWhole packet.now }
    ensures cause { MatchResult result (λ _. wrap_fault hops packet.now ≡ None)
        (λ fault. wrap_fault hops packet.now ≡ Some fault) }
    ensures few { OnOk result (length packet.now ≤ 65000) }
    ensures hops { OnOk result (hops + 1 ≤ ttl_of packet.now) }
{
    if packet.len() > LONGEST {
        return Err(WrapFault::TooLong);
    }
    if packet[TTL] <= hops {
        return Err(WrapFault::TtlOut);
    }
    Ok(())
}

/// What forbids it to wrap the packet by [`wrap`]: `Ok` exactly where that call would write. Nothing is written.
pub fn can_wrap(inner: &Ip4View) -> Result<(), WrapFault>
    ensures { MatchResult result (λ _. wrap_fault 1 inner.now ≡ None)
        (λ fault. wrap_fault 1 inner.now ≡ Some fault) }
{
    may_wrap(inner.whole(), 1)
}

/// What forbids it to wrap the packet by [`wrap_local`]: `Ok` exactly where that call would write. Nothing is written.
pub fn can_wrap_local(inner: &Ip4View) -> Result<(), WrapFault>
    ensures { MatchResult result (λ _. wrap_fault 0 inner.now ≡ None)
        (λ fault. wrap_fault 0 inner.now ≡ Some fault) }
{
    may_wrap(inner.whole(), 0)
}

/// The outer header of a packet that may be wrapped.
fn outer_of(outer_src: Ip4, outer_dst: Ip4, packet: &[u8]) -> [u8; 20]
    requires whole { IsWhole packet.now }
    requires few { length packet.now ≤ 65000 }
    ensures { result ≡ header_bytes (outer_header outer_src outer_dst packet.now) }
{
    let header = Ip4Header {
        tos: packet[TOS],
        total: packet.len() as u16 + 20,
        id: 0,
        df: true,
        ttl: 64,
        proto: 4,
        src: outer_src,
        dst: outer_dst,
    };
    let mut out = [0; 20];
    write_header(&header, &mut out);
    out
}

/// Wraps a packet that is forwarded: behind an outer header, with its time to live lowered by one. `TooLong` exactly
/// where it has more than 65,000 bytes, else `TtlOut` exactly where its time to live is at most 1; `out` then stays as
/// it was.
#[tactic(auto, unfolding(crate::specs::Wrapping::wrapped))]
pub fn wrap(outer_src: Ip4, outer_dst: Ip4, inner: &Ip4View, out: &mut Buf) -> Result<(), WrapFault>
    ensures cause { MatchResult result (λ _. wrap_fault 1 inner.now ≡ None)
        (λ fault. wrap_fault 1 inner.now ≡ Some fault) }
    ensures ok { OnOk result (out.new ≡ wrapped 1 outer_src outer_dst inner.now) }
    ensures err { OnErr result (out.new ≡ out.old) }
{
    may_wrap(inner.whole(), 1)?;
    let outer = outer_of(outer_src, outer_dst, inner.whole());
    out.put_lowered(&outer, inner.whole());
    Ok(())
}

/// Wraps a packet of this host: as [`wrap`], but its time to live stays. `TtlOut` exactly where that is 0.
#[tactic(auto, unfolding(crate::specs::Wrapping::wrapped, crate::specs::Wrapping::lowered))]
pub fn wrap_local(
    outer_src: Ip4,
    outer_dst: Ip4,
    inner: &Ip4View,
    out: &mut Buf,
) -> Result<(), WrapFault>
    ensures cause { MatchResult result (λ _. wrap_fault 0 inner.now ≡ None)
        (λ fault. wrap_fault 0 inner.now ≡ Some fault) }
    ensures ok { OnOk result (out.new ≡ wrapped 0 outer_src outer_dst inner.now) }
    ensures err { OnErr result (out.new ≡ out.old) }
{
    may_wrap(inner.whole(), 0)?;
    let outer = outer_of(outer_src, outer_dst, inner.whole());
    out.put(&outer, inner.whole());
    Ok(())
}

/// Wraps a packet of this host where it lies, behind 20 bytes for the outer header: as [`wrap_local`], in the buffer
/// that is sent. `frame` stays as it was where the packet isn't wrapped.
#[tactic(auto, unfolding(crate::specs::Wrapping::wrapped, crate::specs::Wrapping::lowered))]
pub fn wrap_in_place(outer_src: Ip4, outer_dst: Ip4, frame: &mut [u8]) -> Result<(), WrapFault>
    requires room { 20 ≤ length frame.old }
    requires whole { IsWhole (drop 20 frame.old) }
    ensures cause { MatchResult result (λ _. wrap_fault 0 (drop 20 frame.old) ≡ None)
        (λ fault. wrap_fault 0 (drop 20 frame.old) ≡ Some fault) }
    ensures ok { OnOk result (frame.new ≡ wrapped 0 outer_src outer_dst (drop 20 frame.old)) }
    ensures err { OnErr result (frame.new ≡ frame.old) }
{
    let (outer, packet) = frame.split_at_mut(OUTER);
    may_wrap(packet, 0)?;
    let header = outer_of(outer_src, outer_dst, packet);
    outer.copy_from_slice(&header);
    Ok(())
}
