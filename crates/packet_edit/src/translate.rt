ghost use Rattle.std.specs.Prelude.{◌≡◌, ◌≤◌, None};
ghost use Rattle.packet_spec.specs.Headers.{ttl_of, whole};
ghost use Rattle.packet_spec.specs.Packets.{packet_fault};
ghost use Rattle.packet_spec.specs.Edits.{set_source, set_destination, clamp_mss, translate_source};
ghost use Rattle.packet_spec.specs.Edits.{translate_destination, translated, restored};

use crate::fields::{TTL, clamp, layout_of, put_destination, put_source, put_ttl};
use crate::sums::put_sums;
use wire_core::Ip4;

/// Sets the source address and port of the packet at the front of the bytes, which has no fault before or after.
#[tactic(auto, using(packet_spec::proofs::FineLaws::source_fine), unfolding(packet_spec::specs::Edits::set_source))]
pub fn set_source(p: &mut [u8], ip: Ip4, port: u16)
    requires { packet_fault p.old ≡ None }
    ensures packet { p.new ≡ set_source ip port p.old }
    ensures fine { packet_fault p.new ≡ None }
{
    let layout = layout_of(p);
    put_source(p, &layout, ip, port);
    put_sums(p, &layout);
}

/// Sets the destination address and port of the packet at the front of the bytes, which has no fault before or after.
#[tactic(auto, using(packet_spec::proofs::FineLaws::destination_fine), unfolding(packet_spec::specs::Edits::set_destination))]
pub fn set_destination(p: &mut [u8], ip: Ip4, port: u16)
    requires { packet_fault p.old ≡ None }
    ensures packet { p.new ≡ set_destination ip port p.old }
    ensures fine { packet_fault p.new ≡ None }
{
    let layout = layout_of(p);
    put_destination(p, &layout, ip, port);
    put_sums(p, &layout);
}

/// Lowers the maximum segment size to 1440, exactly where the packet at the front of the bytes, which has no fault, is
/// a TCP segment with SYN and the size is greater.
#[tactic(auto, using(packet_spec::proofs::FineLaws::clamp_fine), unfolding(packet_spec::specs::Edits::clamp_mss))]
pub fn clamp_mss(p: &mut [u8])
    requires { packet_fault p.old ≡ None }
    ensures packet { p.new ≡ clamp_mss p.old }
    ensures fine { packet_fault p.new ≡ None }
{
    let layout = layout_of(p);
    clamp(p, &layout);
    put_sums(p, &layout);
}

/// Translates the packet at the front of the bytes, which has no fault, for the network: sets the source and clamps the
/// maximum segment size, as [`set_source`] and [`clamp_mss`] do, with one computation of the checksums.
#[tactic(auto, using(packet_spec::proofs::FineLaws::translated_source_fine, packet_spec::proofs::JoinLaws::source_put_whole), unfolding(packet_spec::specs::Edits::translate_source))]
pub fn translate_source(p: &mut [u8], ip: Ip4, port: u16)
    requires { packet_fault p.old ≡ None }
    ensures packet { p.new ≡ translate_source ip port p.old }
    // Up to its total length it is the translation of the packet alone.
    ensures front { whole p.new ≡ translated ip port p.old }
    ensures fine { packet_fault p.new ≡ None }
{
    let layout = layout_of(p);
    clamp(p, &layout);
    put_source(p, &layout, ip, port);
    put_sums(p, &layout);
}

/// Translates the packet at the front of the bytes, which has no fault, for a machine: sets the destination, clamps the
/// maximum segment size and lowers the time to live by `lowered` hops, of which it has as many.
#[tactic(auto, using(packet_spec::proofs::FineLaws::translated_destination_fine, packet_spec::proofs::JoinLaws::destination_put_whole), unfolding(packet_spec::specs::Edits::translate_destination))]
pub fn translate_destination(p: &mut [u8], ip: Ip4, port: u16, lowered: u8)
    requires fine { packet_fault p.old ≡ None }
    requires hops { lowered ≤ ttl_of p.old }
    ensures packet { p.new ≡ translate_destination ip port lowered p.old }
    // Up to its total length it is what the machine gets of the packet alone.
    ensures front { whole p.new ≡ restored ip port lowered p.old }
    ensures fine { packet_fault p.new ≡ None }
{
    let layout = layout_of(p);
    let ttl = p[TTL] - lowered;
    clamp(p, &layout);
    put_ttl(p, ttl);
    put_destination(p, &layout, ip, port);
    put_sums(p, &layout);
}
