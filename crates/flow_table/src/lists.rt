ghost use Rattle.std.specs.Prelude.{◌≡◌, ◌-◌, ◌∷◌, [], take, IfOk, OnOk, OnErr, IsSome, None};
ghost use Rattle.std.specs.Option.{option_or};
ghost use Rattle.lru.specs.LruCache.{last_entry, lru_cache};
ghost use Rattle.mux_spec.specs.Flows.{begin, expire, first_seen, flow_in, is_idle, no_flows, note, noted, seen_again, still, trust, without};
ghost use Rattle.flow_table.specs.Caches.{is_one_idle};
ghost use Rattle.flow_table.specs.Tables.{Descends, InOrder};

use lru::LruCache;
use mux_spec::{Noted, Seen};
use std::alloc::Global;
use std::marker::Model;
use std::num::NonZeroUsize;
use wire_core::{FlowKey, Ip4, NoMemory, equality_is_sameness};

const MOST_UNTRUSTED: usize = 16_384;

const MOST_TRUSTED: usize = 65_536;

/// The two lists of flows. In contracts they are lists, newest first.
#[derive(Drop)]
pub struct Lists {
    untrusted: LruCache<FlowKey, Seen>,
    trusted: LruCache<FlowKey, Seen>,
}

impl Model for Lists {
    ghost use Rattle.flow_table.specs.Caches.{HasLimits};
    ghost use Rattle.mux_spec.specs.Flows.{Flows};

    ghost Value = { Flows };

    ghost view = { λ t. record { untrusted = t.untrusted.entries; trusted = t.trusted.entries } };

    ghost invariant = { λ t. HasLimits t.untrusted.cap t.trusted.cap };
}

/// What is kept of the flow.
fn find(flows: &LruCache<FlowKey, Seen>, key: &FlowKey) -> Option<Seen>
    ensures { result ≡ flow_in key.now flows.now.entries }
{
    equality_is_sameness();
    flows.peek(key).copied()
}

/// A flow that is there goes newest.
fn renew(flows: &mut LruCache<FlowKey, Seen>, key: &FlowKey, seen: Seen)
    requires { IsSome (flow_in key.now flows.old.entries) }
    ensures { flows.new ≡ lru_cache ((key.now, seen) ∷ without key.now flows.old.entries) flows.old.cap }
{
    equality_is_sameness();
    flows.put(*key, seen).unwrap();
}

/// A flow that isn't there goes newest; of a full list the oldest leaves.
fn add(flows: &mut LruCache<FlowKey, Seen>, key: &FlowKey, seen: Seen) -> Result<(), NoMemory>
    requires { flow_in key.now flows.old.entries ≡ None }
    ensures ok { OnOk result (flows.new
        ≡ lru_cache ((key.now, seen) ∷ take (flows.old.cap - 1) flows.old.entries) flows.old.cap) }
    ensures err { OnErr result (flows.new ≡ flows.old) }
{
    equality_is_sameness();
    flows.put(*key, seen)?;
    Ok(())
}

/// A flow leaves.
fn remove(flows: &mut LruCache<FlowKey, Seen>, key: &FlowKey)
    ensures { flows.new ≡ lru_cache (without key.now flows.old.entries) flows.old.cap }
{
    equality_is_sameness();
    flows.pop(key);
}

/// Whether the flow's last packet came so long ago.
fn is_idle(now: u64, idle: u64, seen: &Seen) -> bool
    ensures { result ≡ is_idle now idle seen.now }
{
    idle <= now.saturating_sub(seen.last)
}

fn is_oldest_idle(flows: &LruCache<FlowKey, Seen>, now: u64, idle: u64) -> bool
    ensures { result ≡ is_one_idle now idle (last_entry flows.now.entries) }
{
    match flows.peek_lru() {
        Some((_, seen)) => is_idle(now, idle, seen),
        None => false,
    }
}

/// Idle flows leave. Looks at these, and at one more.
fn age(flows: &mut LruCache<FlowKey, Seen>, now: u64, idle: u64)
    requires { Descends now flows.old.entries }
    ensures { flows.new ≡ lru_cache (still now idle flows.old.entries) flows.old.cap }
{
    'oldest: while is_oldest_idle(flows, now, idle) {
        flows.pop_lru();
    }
}

/// What is kept of a flow at its first packet.
fn first_seen(chosen: Ip4, now: u64) -> Seen
    ensures { result ≡ first_seen chosen now }
{
    Seen {
        machine: chosen,
        count: 1,
        last: now,
    }
}

/// What is kept of a flow after one more packet.
fn seen_again(seen: Seen, syn: bool, now: u64) -> Seen
    ensures { result ≡ seen_again syn now seen }
{
    let count = if syn { 1 } else { seen.count.min(3) + 1 };
    Seen {
        machine: seen.machine,
        count,
        last: now,
    }
}

fn noted(seen: Seen) -> Noted
    ensures { result ≡ noted seen }
{
    Noted {
        machine: seen.machine,
        count: seen.count,
    }
}

impl Lists {
    /// No flows. Memory is taken as flows come, so that a mux opens at once.
    #[tactic(auto, unfolding(mux_spec::specs::Flows::most_untrusted, mux_spec::specs::Flows::most_trusted))]
    pub fn new(alloc: Global) -> Result<Lists, NoMemory>
        ensures { IfOk result (λ t. t ≡ no_flows) }
    {
        let untrusted = LruCache::sparse(alloc, NonZeroUsize::new(MOST_UNTRUSTED).unwrap())?;
        let trusted = LruCache::sparse(alloc, NonZeroUsize::new(MOST_TRUSTED).unwrap())?;
        Ok(Lists { untrusted, trusted })
    }

    /// A flow's first packet.
    fn begin(&mut self, key: &FlowKey, seen: Seen) -> Result<(), NoMemory>
        requires { flow_in key.now self.old.untrusted ≡ None }
        ensures ok { OnOk result (self.new ≡ begin self.old key.now seen) }
        ensures err { OnErr result (self.new ≡ self.old) }
    {
        add(&mut self.untrusted, key, seen)
    }

    /// An untrusted flow comes again.
    fn trust(&mut self, key: &FlowKey, seen: Seen) -> Result<(), NoMemory>
        requires untrusted { IsSome (flow_in key.now self.old.untrusted) }
        requires trusted { flow_in key.now self.old.trusted ≡ None }
        ensures ok { OnOk result (self.new ≡ trust self.old key.now seen) }
        ensures err { OnErr result (self.new ≡ self.old) }
    {
        if self.trusted.len() < self.trusted.cap().get() {
            add(&mut self.trusted, key, seen)?;
            remove(&mut self.untrusted, key);
        } else {
            renew(&mut self.untrusted, key, seen);
        }
        Ok(())
    }

    /// A packet of a flow. Without memory nothing changed.
    #[tactic(auto, unfolding(mux_spec::specs::Flows::note))]
    pub fn note(
        &mut self,
        key: &FlowKey,
        syn: bool,
        chosen: Ip4,
        now: u64,
    ) -> Result<Noted, NoMemory>
        ensures ok { IfOk result (λ noted. (self.new, noted) ≡ note self.old key.now syn chosen now) }
        ensures err { OnErr result (self.new ≡ self.old) }
    {
        let seen = match find(&self.trusted, key) {
            Some(seen) => {
                let seen = seen_again(seen, syn, now);
                renew(&mut self.trusted, key, seen);
                seen
            }
            None => match find(&self.untrusted, key) {
                Some(seen) => {
                    let seen = seen_again(seen, syn, now);
                    self.trust(key, seen)?;
                    seen
                }
                None => {
                    let seen = first_seen(chosen, now);
                    self.begin(key, seen)?;
                    seen
                }
            },
        };
        Ok(noted(seen))
    }

    /// What is kept of the flow, if it is there.
    pub fn lookup(&self, key: &FlowKey) -> Option<Seen>
        ensures { result ≡ option_or (flow_in key.now self.now.trusted) (flow_in key.now self.now.untrusted) }
    {
        match find(&self.trusted, key) {
            Some(seen) => Some(seen),
            None => find(&self.untrusted, key),
        }
    }

    /// Idle flows leave. Looks at these, and at one more of each list.
    #[tactic(auto, unfolding(mux_spec::specs::Flows::expire))]
    pub fn expire(&mut self, now: u64, idle: u64)
        requires { InOrder now self.old }
        ensures { self.new ≡ expire self.old now idle }
    {
        age(&mut self.untrusted, now, idle);
        age(&mut self.trusted, now, idle);
    }
}
