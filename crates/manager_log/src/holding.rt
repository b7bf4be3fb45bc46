ghost use Rattle.std.specs.Prelude.{◌≡◌, ◌<◌, ◌≤◌, ◌-◌, ◌==◌, length, map, filter, slice_index_or, Some, None, IfOk};
ghost use Rattle.std.specs.List.{list_all};
ghost use Rattle.manager_log.specs.Parts.{NumberedFrom};
ghost use Rattle.manager_spec.specs.Known.{has_boot, is_acked, is_acked_ever, is_near};
ghost use Rattle.manager_spec.specs.Proposal.{holders, mux_boot};
ghost use Rattle.wire_core.specs.Commands.{AscendsFrom};

use manager_spec::{Marks, Peer};
use std::alloc::Global;
use vip_config::Config;
use wire_core::{MuxBoot, NoMemory};

/// The greatest boot in which the mux acknowledged, 0 where it never did.
pub fn boot_in(boots: &[u64], mux: u16) -> u64
    ensures { result ≡ slice_index_or boots.now mux 0 }
{
    match boots.get(usize::from(mux)) {
        None => 0,
        Some(boot) => *boot,
    }
}

/// Whether it acknowledged in its known boot.
pub fn is_acked(boots: &[u64], peer: &Peer) -> bool
    ensures { result ≡ is_acked boots.now peer.now }
{
    boot_in(boots, peer.mux) == peer.boot
}

/// Whether it acknowledged in some boot.
pub fn is_acked_ever(boots: &[u64], peer: &Peer) -> bool
    ensures { result ≡ is_acked_ever boots.now peer.now }
{
    boot_in(boots, peer.mux) > 0
}

/// Whether a boot of the mux is known, and it isn't silent.
pub fn is_near(cfg: &Config, time: u64, peer: &Peer) -> bool
    ensures { result ≡ is_near cfg.now time peer.now }
{
    peer.boot > 0 && time.saturating_sub(peer.heard_at) <= cfg.timers().mux_silent
}

/// Whether each mux that isn't silent acknowledged in its known boot.
pub fn all_near_acked(cfg: &Config, time: u64, peers: &[Peer], boots: &[u64]) -> bool
    ensures { result ≡ list_all (is_acked boots.now) (filter (is_near cfg.now time) peers.now) }
{
    peers
        .iter()
        .filter(|peer| is_near(cfg, time, *peer))
        .all(|peer| is_acked(boots, peer))
}

/// Whether a boot of the mux is known.
pub fn has_boot(peer: &Peer) -> bool
    ensures { result ≡ has_boot peer.now }
{
    peer.boot > 0
}

/// How many muxes have the row in their known boot.
pub fn count_holders(peers: &[Peer], boots: &[u64]) -> usize
    ensures { result ≡ length (filter (is_acked boots.now) (filter has_boot peers.now)) }
{
    peers
        .iter()
        .filter(|peer| has_boot(*peer))
        .filter(|peer| is_acked(boots, *peer))
        .count()
}

/// Whether each mux acknowledged in some boot.
pub fn all_acked_ever(peers: &[Peer], boots: &[u64]) -> bool
    ensures { result ≡ list_all (is_acked_ever boots.now) peers.now }
{
    peers.iter().all(|peer| is_acked_ever(boots, peer))
}

/// Each mux that has the row in its known boot, with that boot.
fn collect_holders(alloc: Global, peers: &[Peer], marks: &Marks) -> Result<Vec<MuxBoot>, NoMemory>
    ensures { IfOk result (λ pairs. pairs.items ≡ map mux_boot (holders (filter has_boot peers.now) marks.now)) }
{
    let mut pairs = Vec::new(alloc);
    for peer in peers {
        if peer.boot > 0 && is_acked(marks.programmed.as_slice(), peer) {
            pairs.push(MuxBoot {
                mux: peer.mux,
                boot: peer.boot,
            })?;
        }
    }
    Ok(pairs)
}

/// The same: at most 16, by their numbers.
#[tactic(auto, using(crate::proofs::DueLaws::pairs_ascend, crate::proofs::DueLaws::pairs_few))]
pub fn holders(alloc: Global, peers: &[Peer], marks: &Marks) -> Result<Vec<MuxBoot>, NoMemory>
    requires numbered { NumberedFrom 0 peers.now }
    requires few { length peers.now ≤ 16 }
    ensures pairs { IfOk result (λ pairs.
        pairs.items ≡ map mux_boot (holders (filter has_boot peers.now) marks.now)) }
    ensures ascend { IfOk result (λ pairs. AscendsFrom 0 pairs.items) }
    ensures few { IfOk result (λ pairs. length pairs.items ≤ 16) }
{
    let pairs = collect_holders(alloc, peers, marks)?;
    Ok(pairs)
}
