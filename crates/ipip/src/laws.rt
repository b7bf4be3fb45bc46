ghost use Rattle.std.specs.Prelude.{◌≡◌, ◌+◌, ◌-◌, ◌<◌, ◌^◌, ℕ, List, None, Ok};
ghost use Rattle.wire_core.specs.declared.address.Ip4.{Ip4};
ghost use Rattle.packet_spec.specs.Headers.{payload_of, ttl_of, whole};
ghost use Rattle.packet_spec.specs.Packets.{key_of, read_packet};
ghost use Rattle.packet_spec.specs.Edits.{restored, translate_destination};
ghost use Rattle.packet_spec.specs.Laws.{Becomes, IsSound};
ghost use Rattle.ipip.specs.Wrapping.{Unwrapped, UnwrapsAgain, lowered, unwrapped, wrap_fault, wrapped};

/// What [`crate::wrap`] and [`crate::wrap_local`] write, [`crate::unwrap`] reads again: the outer header has no fault.
pub fn unwraps_again()
    ensures { UnwrapsAgain }
{}

/// A law of a packet without fault that is forwarded with its time to live lowered, as [`crate::wrap`] does. It is
/// again one without fault, with the same key, control bits and payload. The receiver unwraps it, and reads it as it
/// is. Where it is then handed to a machine, the bytes are those of the packet that came, handed on over as many hops
/// in all.
pub fn forwarding()
    ensures lowered { (d : ℕ) (p : List ℕ) → IsSound p → Becomes p (lowered d p) (key_of p) (ttl_of p - d) }
    ensures payload { (d : ℕ) (p : List ℕ) → IsSound p → payload_of (lowered d p) ≡ payload_of p }
    ensures unwrapped { (d : ℕ) (src dst : Ip4) (p : List ℕ) → src.0 < 2 ^ 32 → dst.0 < 2 ^ 32 → IsSound p
        → wrap_fault d (whole p) ≡ None
        → unwrapped (wrapped d src dst (whole p))
        ≡ Ok (record { outer_src = src; outer_dst = dst; bytes = lowered d (whole p) }) }
    ensures read { (d : ℕ) (p : List ℕ) → IsSound p → read_packet (lowered d (whole p)) ≡ Ok (lowered d (whole p)) }
    ensures handed { (ip : Ip4) (port d e : ℕ) (p : List ℕ) → IsSound p
        → translate_destination ip port e (lowered d (whole p)) ≡ restored ip port (d + e) p }
    ensures restored { (ip : Ip4) (port d e : ℕ) (p : List ℕ) → IsSound p
        → restored ip port e (lowered d (whole p)) ≡ restored ip port (d + e) p }
{}
