ghost use Rattle.std.specs.Prelude.{◌≡◌, ◌+◌, ◌<◌, find, take, length, slice_get, None, get_or};
ghost use Rattle.agent_spec.specs.Connections.{is_idle};
ghost use Rattle.agent_flows.specs.Slots.{IsLooked, last_use, listed, slot_at, slot_has};

use crate::looked::Looked;
use agent_spec::Connection;

/// What is in the slot at a place.
pub fn slot_at(slots: &[Option<Connection>], place: Option<usize>) -> Option<Connection>
    ensures { result ≡ slot_at slots.now place }
{
    match place {
        None => None,
        Some(i) => match slots.get(i) {
            Some(slot) => *slot,
            None => None,
        },
    }
}

/// The i-th connection.
pub fn nth(slots: &[Option<Connection>], i: usize) -> Option<Connection>
    ensures { result ≡ slice_get (listed slots.now) i }
{
    let mut left = i;
    for slot in slots {
        if let Some(c) = slot {
            if left == 0 {
                return Some(*c);
            }
            left -= 1;
        }
    }
    None
}

/// Whether a slot's connection is idle for so long.
fn is_idle(slot: &Option<Connection>, now: u64, idle: u64) -> bool
    ensures { result ≡ slot_has (is_idle now idle) slot.now }
{
    match slot {
        Some(c) => now.saturating_sub(c.last) >= idle,
        None => false,
    }
}

/// When a slot's connection was used last, in milliseconds.
fn last_use(slot: &Option<Connection>) -> u64
    ensures { result ≡ last_use slot.now }
{
    match slot {
        Some(c) => c.last,
        None => u64::MAX,
    }
}

/// One slot further.
#[tactic(auto, using(crate::proofs::Kept::looked_past))]
fn past(slots: &[Option<Connection>], looked: Looked) -> Looked
    requires within { looked.at < length slots.now }
    requires looked { IsLooked slots.now looked }
    ensures looked { IsLooked slots.now result }
    ensures at { result.at ≡ looked.at + 1 }
{
    Looked {
        at: looked.at + 1,
        oldest: looked.oldest.min(last_use(&slots[looked.at])),
    }
}

/// Past the last slot, where the look has come up to it.
pub fn past_last(slots: &[Option<Connection>], looked: Looked) -> Looked
    requires { IsLooked slots.now looked }
    ensures { IsLooked slots.now result }
{
    if looked.at + 1 == slots.len() {
        past(slots, looked)
    } else {
        looked
    }
}

/// As far as the look for idle ones needn't begin again: none of those that were looked at can be idle for so long.
pub fn resumed(slots: &[Option<Connection>], looked: Looked, now: u64, idle: u64) -> Looked
    requires { IsLooked slots.now looked }
    ensures looked { IsLooked slots.now result }
    ensures before { find (is_idle now idle) (listed (take result.at slots.now)) ≡ None }
{
    if now.saturating_sub(looked.oldest) < idle {
        looked
    } else {
        Looked::nothing()
    }
}

/// Looks on, up to the first connection that is idle for so long, or up to the end.
pub fn look_on(slots: &[Option<Connection>], looked: Looked, now: u64, idle: u64) -> Looked
    requires looked { IsLooked slots.now looked }
    requires before { find (is_idle now idle) (listed (take looked.at slots.now)) ≡ None }
    ensures looked { IsLooked slots.now result }
    ensures before { find (is_idle now idle) (listed (take result.at slots.now)) ≡ None }
    ensures first { find (is_idle now idle) (listed slots.now) ≡ get_or slots.now result.at None }
{
    let mut looked = looked;
    while looked.at < slots.len() {
        if is_idle(&slots[looked.at], now, idle) {
            return looked;
        }
        looked = past(slots, looked);
    }
    looked
}
