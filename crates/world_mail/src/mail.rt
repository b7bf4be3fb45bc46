ghost use Rattle.std.specs.Prelude.{◌≡◌, ◌==◌, ◌≤◌, ◌<◌, ◌+◌, ◌∷◌, ◌++◌, [], ℕ, Some, false, true, length, option_map, OnOk, OnErr};
ghost use Rattle.world_mail.specs.Mails.{is_waiting, least_waiting, posted_at, taken_by, waits_at, with_posted};

use std::alloc::Global;
use std::marker::Model;
use wire_core::{FrameBytes, NoMemory, NodeId};

/// A datagram that a node sent.
#[derive(Debug, Drop)]
pub struct Posted {
    pub from: NodeId,
    /// The node that it goes to. `None` where it goes to a machine, or out to the network.
    pub to: Option<NodeId>,
    pub bytes: FrameBytes,
}

/// All datagrams that were sent, in order, and of each whether a delivery took it.
#[derive(Drop)]
pub struct Mail {
    posted: Vec<Posted>,
    taken: Vec<bool>,
    // No datagram before this place waits.
    cursor: usize,
}

impl Model for Mail {
    ghost use Rattle.world_mail.specs.Mails.{IsMail, MailState};

    ghost Value = { MailState };

    ghost view = { λ m. record { posted = m.posted.items; taken = m.taken.items } };

    ghost invariant = { λ m. IsMail m.posted.items m.taken.items m.cursor };
}

fn is_waiting(posted: &Posted, taken: bool) -> bool
    ensures { result ≡ is_waiting posted.now taken }
{
    posted.to.is_some() && !taken
}

fn waits(posted: &[Posted], taken: &[bool], i: usize) -> bool
    requires here { i < length posted.now }
    requires marks { length taken.now ≡ length posted.now }
    ensures { result ≡ waits_at posted.now taken.now i }
{
    is_waiting(&posted[i], taken[i])
}

// The first place from this one on whose datagram waits, or the number of all datagrams.
#[tactic(auto, using(crate::proofs::Waiting::none_up_to))]
fn next_waiting(posted: &[Posted], taken: &[bool], from: usize) -> usize
    requires here { from ≤ length posted.now }
    requires marks { length taken.now ≡ length posted.now }
    ensures within { result ≤ length posted.now }
    ensures before { (i : ℕ) → from ≤ i → i < result → waits_at posted.now taken.now i ≡ false }
    ensures here { result < length posted.now → waits_at posted.now taken.now result ≡ true }
{
    let mut at = from;
    while at < posted.len() {
        if waits(posted, taken, at) {
            return at;
        }
        at += 1;
    }
    at
}

impl Mail {
    /// Nothing was sent. Takes no memory.
    pub fn new(alloc: Global) -> Mail
        ensures { result ≡ record { posted = []; taken = [] } }
    {
        Mail {
            posted: Vec::new(alloc),
            taken: Vec::new(alloc),
            cursor: 0,
        }
    }

    /// How many were sent.
    pub fn len(&self) -> usize
        ensures { result ≡ length self.now.posted }
    {
        self.posted.len()
    }

    /// Whether nothing was sent.
    pub fn is_empty(&self) -> bool
        ensures { result ≡ (length self.now.posted == 0) }
    {
        self.posted.is_empty()
    }

    /// The datagram with this number, from 1. A look-up by its place.
    pub fn get(&self, k: u64) -> Option<&Posted>
        ensures { option_map (λ p. p.now) result ≡ posted_at self.now k }
    {
        if k == 0 {
            return None;
        }
        self.posted.get((k - 1) as usize)
    }

    /// A delivery takes the datagram with this number, where there is one.
    pub fn take(&mut self, k: u64)
        ensures { self.new ≡ taken_by self.old k }
    {
        if 0 < k && k - 1 < self.posted.len() as u64 {
            self.taken[(k - 1) as usize] = true;
        }
    }

    /// The least number of a datagram that waits. Over all calls each datagram is passed once.
    pub fn least(&mut self) -> Option<u64>
        ensures least { result ≡ least_waiting self.old }
        ensures same { self.new ≡ self.old }
    {
        let at = next_waiting(&self.posted, &self.taken, self.cursor);
        self.cursor = at;
        if at < self.posted.len() {
            return Some(at as u64 + 1);
        }
        None
    }

    /// One datagram more. Without memory nothing has changed.
    pub fn post(
        &mut self,
        from: NodeId,
        to: Option<NodeId>,
        bytes: FrameBytes,
    ) -> Result<(), NoMemory>
        ensures posted { OnOk result (self.new
            ≡ with_posted self.old (record { from = from; to = to; bytes = bytes } ∷ [])) }
        ensures same { OnErr result (self.new ≡ self.old) }
    {
        self.posted.reserve(1)?;
        self.taken.reserve(1)?;
        self.posted.push(Posted { from, to, bytes }).unwrap();
        self.taken.push(false).unwrap();
        Ok(())
    }
}
