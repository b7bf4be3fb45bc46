// What the definitions of edits come to, for whoever cites them.
ghost use Rattle.std.specs.Prelude.{◌≡◌, ◌-◌, ℕ, List, Ok};
ghost use Rattle.wire_core.specs.declared.address.Ip4.{Ip4};
ghost use Rattle.packet_spec.specs.Headers.{IsWhole, ttl_of, whole};
ghost use Rattle.packet_spec.specs.Packets.{has_ack, has_rst, has_syn, key_of, read_packet};
ghost use Rattle.packet_spec.specs.Edits.{clamp_mss, restored, set_destination, set_source, translate_destination};
ghost use Rattle.packet_spec.specs.Edits.{translate_source, translated};
ghost use Rattle.packet_spec.specs.Laws.{Becomes, IsEnd, IsSound, from_end, to_end};

/// A law of each edit of a packet without fault: it makes again a packet without fault, with as many bytes and the same
/// control bits. Its key has the new end; its time to live is lowered by so many hops, at most to 0, where it is handed
/// to a machine, and else stays.
pub fn edits_of_packets()
    ensures source { (ip : Ip4) (port : ℕ) (p : List ℕ) → IsSound p → IsEnd ip port
        → Becomes p (set_source ip port p) (from_end ip port (key_of p)) (ttl_of p) }
    ensures destination { (ip : Ip4) (port : ℕ) (p : List ℕ) → IsSound p → IsEnd ip port
        → Becomes p (set_destination ip port p) (to_end ip port (key_of p)) (ttl_of p) }
    ensures clamped { (p : List ℕ) → IsSound p → Becomes p (clamp_mss p) (key_of p) (ttl_of p) }
    ensures leaves { (ip : Ip4) (port : ℕ) (p : List ℕ) → IsSound p → IsEnd ip port
        → Becomes p (translate_source ip port p) (from_end ip port (key_of p)) (ttl_of p) }
    ensures handed { (ip : Ip4) (port d : ℕ) (p : List ℕ) → IsSound p → IsEnd ip port
        → Becomes p (translate_destination ip port d p) (to_end ip port (key_of p)) (ttl_of p - d) }
{}

/// A law of bytes with a packet without fault at their front: cut at its total length they are a whole packet without
/// fault, with the same key and control bits, which is read as it is. A translation cut at the total length is the
/// translation of what was cut there.
pub fn whole_packets()
    ensures sound { (p : List ℕ) → IsSound p → IsSound (whole p) }
    ensures whole { (p : List ℕ) → IsSound p → IsWhole (whole p) }
    ensures stays { (p : List ℕ) → IsWhole p → whole p ≡ p }
    ensures read { (p : List ℕ) → IsSound p → IsWhole p → read_packet p ≡ Ok p }
    ensures key { (p : List ℕ) → IsSound p → key_of (whole p) ≡ key_of p }
    ensures syn { (p : List ℕ) → IsSound p → has_syn (whole p) ≡ has_syn p }
    ensures ack { (p : List ℕ) → IsSound p → has_ack (whole p) ≡ has_ack p }
    ensures rst { (p : List ℕ) → IsSound p → has_rst (whole p) ≡ has_rst p }
    ensures leaves { (ip : Ip4) (port : ℕ) (p : List ℕ) → IsSound p → IsEnd ip port
        → whole (translate_source ip port p) ≡ translated ip port p }
    ensures handed { (ip : Ip4) (port d : ℕ) (p : List ℕ) → IsSound p → IsEnd ip port
        → whole (translate_destination ip port d p) ≡ restored ip port d p }
{}
