ghost use Rattle.std.specs.Prelude.{◌≡◌, ℕ, List, false, length, max, slice_index_or, slice_set, OnErr, OnOk};
ghost use Rattle.std.specs.BTreeMap.{is_at};
ghost use Rattle.std.specs.Ordering.{nat_cmp};
ghost use Rattle.manager_log.specs.Pending.{IsCurrent};
ghost use Rattle.manager_log.specs.Parts.{NumberedFrom};
ghost use Rattle.manager_spec.specs.declared.marks.Marks.{Marks};
ghost use Rattle.manager_spec.specs.Known.{marked, marks_at, no_peer, set_marks};
ghost use Rattle.paxos_spec.specs.Acceptor.{AcceptorState};
ghost use Rattle.wire_core.specs.declared.rules.LeaseRules.{LeaseRules};

use crate::pending::Pending;
use manager_spec::{Marks, Peer};
use std::collections::BTreeMap;
use wire_core::NoMemory;

/// The acknowledgements of a row that no mux acknowledged.
const NO_MARKS: Marks = Marks {
    programmed: [0; 16],
    unprogrammed: [0; 16],
};

/// The mux was heard at this time, in this boot; the greater boot is the known one.
#[tactic(auto, using(crate::proofs::PeerLaws::set_past, crate::proofs::PeerLaws::numbered_set))]
fn hear(muxes: &mut Vec<Peer>, mux: u16, boot: u64, time: u64)
    ensures set { muxes.new.items ≡ slice_set muxes.old.items mux
        (record { mux = mux; boot = max (slice_index_or muxes.old.items mux no_peer).boot boot; heard_at = time }) }
    ensures numbered { NumberedFrom 0 muxes.old.items → NumberedFrom 0 muxes.new.items }
    ensures length { length muxes.new.items ≡ length muxes.old.items }
{
    let at = usize::from(mux);
    if at < muxes.len() {
        let known = muxes[at].boot;
        muxes[at] = Peer {
            mux,
            boot: known.max(boot),
            heard_at: time,
        };
    }
}

/// The same. A mux in a later boot than the known one has no rows.
pub fn hear_again(muxes: &mut Vec<Peer>, pending: &mut Pending, mux: u16, boot: u64, time: u64)
    ensures set { muxes.new.items ≡ slice_set muxes.old.items mux
        (record { mux = mux; boot = max (slice_index_or muxes.old.items mux no_peer).boot boot; heard_at = time }) }
    ensures numbered { NumberedFrom 0 muxes.old.items → NumberedFrom 0 muxes.new.items }
    ensures length { length muxes.new.items ≡ length muxes.old.items }
    ensures current { (rules : LeaseRules) (a : AcceptorState) (acks : List (ℕ × Marks))
        → NumberedFrom 0 muxes.old.items → IsCurrent pending.old rules a acks muxes.old.items
        → IsCurrent pending.new rules a acks muxes.new.items }
{
    let known = boot_of(muxes.as_slice(), mux);
    hear(muxes, mux, boot, time);
    if boot > known {
        pending.clear();
    }
}

/// The mux acknowledged in this boot; the greatest boot counts.
#[tactic(auto, using(crate::proofs::PeerLaws::set_past))]
pub fn mark(boots: &mut [u64; 16], mux: u16, boot: u64)
    ensures { boots.new ≡ marked boots.old mux boot }
{
    let at = usize::from(mux);
    if at < boots.len() {
        boots[at] = boots[at].max(boot);
    }
}

/// Which muxes acknowledged row n.
pub fn marks_at(acks: &BTreeMap<u64, Marks>, n: u64) -> Marks
    ensures { result ≡ marks_at acks.now.entries n }
{
    match acks.get(&n) {
        None => NO_MARKS,
        Some(marks) => *marks,
    }
}

/// Row n with these acknowledgements. Without memory they stay as they were.
pub fn set_marks(acks: &mut BTreeMap<u64, Marks>, n: u64, marks: Marks) -> Result<(), NoMemory>
    ensures ok { OnOk result (acks.new.entries ≡ set_marks acks.old.entries n marks) }
    ensures err { OnErr result (acks.new.entries ≡ acks.old.entries) }
    ensures here { OnOk result (marks_at acks.new.entries n ≡ marks) }
    ensures others { (m : ℕ) → is_at (nat_cmp n) m ≡ false → marks_at acks.new.entries m ≡ marks_at acks.old.entries m }
{
    acks.insert(n, marks)?;
    Ok(())
}

/// The known boot of the mux with this number.
pub fn boot_of(muxes: &[Peer], mux: u16) -> u64
    ensures { result ≡ (slice_index_or muxes.now mux no_peer).boot }
{
    match muxes.get(usize::from(mux)) {
        None => 0,
        Some(peer) => peer.boot,
    }
}
