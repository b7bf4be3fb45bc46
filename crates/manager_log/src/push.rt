ghost use Rattle.std.specs.Prelude.{◌≡◌, ◌<◌, ◌-◌, ◌∷◌, [], filter, length, take, IfOk, OnOk};
ghost use Rattle.std.specs.List.{flat_map};
ghost use Rattle.manager_log.specs.Parts.{sends_of};
ghost use Rattle.manager_spec.specs.Known.{is_near};
ghost use Rattle.manager_spec.specs.Orders.{push_one};
ghost use Rattle.node_spec.specs.Steps.{outgoing, with_sends};

use crate::holding::{is_acked, is_near};
use crate::orders::{program, unprogram};
use control_msg::Message;
use manager_spec::{Marks, Peer};
use node_spec::say;
use port_leases::{Phase, Row};
use std::alloc::Global;
use vip_config::Config;
use wire_core::{NoMemory, NodeId, Step};

/// A row that muxes are to know, with what they acknowledged of it.
#[derive(Clone, Copy)]
pub struct Pushed {
    pub epoch: u64,
    pub row: Row,
    pub marks: Marks,
}

impl Pushed {
    /// What a mux is told of the row, unless it acknowledged it in its known boot.
    fn message(&self, peer: &Peer) -> Option<Message<'static>>
        ensures { sends_of peer.now.mux result ≡ push_one self.now.epoch self.now.row self.now.marks peer.now }
    {
        if self.row.phase == Phase::Freeing {
            if is_acked(self.marks.unprogrammed.as_slice(), peer) {
                None
            } else {
                Some(unprogram(self.epoch, &self.row, peer))
            }
        } else if is_acked(self.marks.programmed.as_slice(), peer) {
            None
        } else {
            Some(program(self.epoch, &self.row, peer))
        }
    }
}

/// A mux is told of the row, where there is room for one message more. Answered is the room that is left.
#[tactic(auto, using(crate::proofs::TurnLaws::no_room))]
fn push_one(
    alloc: Global,
    cfg: &Config,
    out: &mut Step,
    pushed: &Pushed,
    peer: &Peer,
    room: usize,
) -> Result<usize, NoMemory>
    ensures sends { OnOk result (out.new ≡ with_sends (flat_map (outgoing cfg.now)
        (take room (push_one pushed.now.epoch pushed.now.row pushed.now.marks peer.now))) out.old) }
    ensures room { IfOk result (λ left.
        left ≡ room - length (push_one pushed.now.epoch pushed.now.row pushed.now.marks peer.now)) }
{
    match pushed.message(peer) {
        None => Ok(room),
        Some(m) => {
            if room == 0 {
                return Ok(0);
            }
            say(alloc, cfg, out, NodeId::Mux(peer.mux), &m)?;
            Ok(room - 1)
        }
    }
}

/// The same, unless the mux is silent.
#[tactic(auto, using(crate::proofs::TurnLaws::none_pushed))]
fn push_near(
    alloc: Global,
    cfg: &Config,
    out: &mut Step,
    pushed: &Pushed,
    peer: &Peer,
    time: u64,
    room: usize,
) -> Result<usize, NoMemory>
    ensures sends { OnOk result (out.new ≡ with_sends (flat_map (outgoing cfg.now) (take room (flat_map
        (push_one pushed.now.epoch pushed.now.row pushed.now.marks) (filter (is_near cfg.now time) (peer.now ∷ []))))) out.old) }
    ensures room { IfOk result (λ left. left ≡ room - length (flat_map
        (push_one pushed.now.epoch pushed.now.row pushed.now.marks) (filter (is_near cfg.now time) (peer.now ∷ [])))) }
{
    if !is_near(cfg, time, peer) {
        return Ok(room);
    }
    push_one(alloc, cfg, out, pushed, peer, room)
}

/// The same of each mux.
#[tactic(auto, using(crate::proofs::TurnLaws::pushed_next, crate::proofs::TurnLaws::none_pushed, crate::proofs::PushLaws::near_next, crate::proofs::PushLaws::room_more))]
pub fn push_each(
    alloc: Global,
    cfg: &Config,
    out: &mut Step,
    pushed: &Pushed,
    peers: &[Peer],
    time: u64,
    room: usize,
) -> Result<usize, NoMemory>
    ensures sends { OnOk result (out.new ≡ with_sends (flat_map (outgoing cfg.now) (take room (flat_map
        (push_one pushed.now.epoch pushed.now.row pushed.now.marks) (filter (is_near cfg.now time) peers.now)))) out.old) }
    ensures room { IfOk result (λ left. left ≡ room - length (flat_map
        (push_one pushed.now.epoch pushed.now.row pushed.now.marks) (filter (is_near cfg.now time) peers.now))) }
{
    let mut left = room;
    for peer in peers {
        left = push_near(alloc, cfg, out, pushed, peer, time, left)?;
    }
    Ok(left)
}
