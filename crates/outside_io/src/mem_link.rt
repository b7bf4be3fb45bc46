// A link in memory.
ghost use Rattle.std.specs.Prelude.{◌≡◌, ◌≤◌, ◌==◌, ◌∷◌, ◌++◌, [], true, None, Some, length, take, map, OnOk, IsErr};
ghost use Rattle.std.specs.List.{list_any};
ghost use Rattle.outside_io.specs.Faults.{HasCause};
ghost use Rattle.outside_io.specs.Link.{answer_with, sent_with, FitsIn};
ghost use Rattle.outside_io.specs.Telling.{Tells};
ghost use Rattle.outside_io.specs.MemoryLink.{answer_at, link_answers, link_sent, answer_of, sent_of};

use crate::failed::Failed;
use crate::link::{Arrival, Link};
use std::alloc::Global;
use wire_core::{NoMemory, Socket};

/// An answer that a link in memory is to give.
#[derive(Debug, Drop)]
pub enum MemAnswer {
    /// Nothing came.
    Idle,
    /// The call fails.
    Fails,
    /// This datagram came. Of one that is longer than the buffer the front comes.
    Came { from: Socket, bytes: Vec<u8> },
}

/// A datagram that was handed to `send`, and whether that call answered Ok.
#[derive(Debug, Drop)]
pub struct SentDatagram {
    pub to: Socket,
    pub bytes: Vec<u8>,
    pub taken: bool,
}

/// A link in memory: it gives its answers in order, and then None. It keeps what is handed to `send`.
#[derive(Debug, Drop)]
pub struct MemLink {
    alloc: Global,
    list: Vec<MemAnswer>,
    calls: u64,
    next_faults: u64,
    kept: Vec<SentDatagram>,
    forgot: bool,
    failing: Vec<u64>,
    sends: u64,
    send_faults: u64,
}

// The front of the buffer is what came, cut to its room.
fn copy_front(buf: &mut [u8], bytes: &[u8]) -> usize
    ensures count { result ≤ length buf.old }
    ensures bytes { take result buf.new ≡ take (length buf.old) bytes.now }
    ensures room { length buf.new ≡ length buf.old }
{
    let count = buf.len().min(bytes.len());
    buf[..count].copy_from_slice(&bytes[..count]);
    count
}

fn give(answer: &MemAnswer, buf: &mut [u8]) -> Result<Option<Arrival>, Failed>
    ensures told { answer_with buf.new result ≡ answer_of (length buf.old) answer.now }
    ensures bound { FitsIn (length buf.old) result }
    ensures room { length buf.new ≡ length buf.old }
{
    match answer {
        MemAnswer::Idle => Ok(None),
        MemAnswer::Fails => Err(Failed),
        MemAnswer::Came { from, bytes } => Ok(Some(Arrival {
            from: *from,
            len: copy_front(buf, bytes),
        })),
    }
}

impl MemLink {
    /// A link that gives these answers. The calls of `send` with these numbers, from 0, fail.
    pub fn new(alloc: Global, list: Vec<MemAnswer>, failing: Vec<u64>) -> MemLink
        ensures list { (result.list ≡ list) × (result.calls ≡ 0) }
        ensures failing { (result.failing ≡ failing) × (result.sends ≡ 0) }
        ensures answers { link_answers result ≡ Some [] }
        ensures sent { link_sent result ≡ Some [] }
        ensures faults { (result.next_faults ≡ 0) × (result.send_faults ≡ 0) }
    {
        MemLink {
            alloc,
            list,
            calls: 0,
            next_faults: 0,
            kept: Vec::new(alloc),
            forgot: false,
            failing,
            sends: 0,
            send_faults: 0,
        }
    }

    /// What was handed to `send`, in order, up to the first that there was no memory to keep.
    pub fn sent(&self) -> &[SentDatagram]
        ensures { result.now ≡ self.now.kept.items }
    {
        &self.kept
    }

    /// How often `next` has failed.
    pub fn next_faults(&self) -> u64
        ensures { result ≡ self.now.next_faults }
    {
        self.next_faults
    }

    // Keeps what was handed to `send`.
    fn keep(&mut self, to: &Socket, bytes: &[u8], taken: bool) -> Result<(), NoMemory>
        ensures kept { OnOk result (map sent_of self.new.kept.items
            ≡ map sent_of self.old.kept.items ++ record { to = to.now; bytes = bytes.now; taken = taken } ∷ []) }
        ensures same { self.new ≡ record self.old { kept = self.new.kept } }
    {
        let bytes = bytes.to_vec(self.alloc)?;
        self.kept.push(SentDatagram {
            to: *to,
            bytes,
            taken,
        })?;
        Ok(())
    }
}

impl Link for MemLink {
    ghost answers = { λ link. link_answers link };

    ghost sent = { λ link. link_sent link };

    ghost waiting = { λ _. None };

    ghost next_faults = { λ link. link.next_faults };

    ghost send_faults = { λ link. link.send_faults };

    #[tactic(auto, using(crate::proofs::Calls::first_answers_next))]
    fn next(&mut self, buf: &mut [u8]) -> Result<Option<Arrival>, Failed>
        requires { length buf.old ≡ 65507 }
        ensures room { length buf.new ≡ length buf.old }
        ensures bound { FitsIn 65507 result }
        ensures told { Tells (link_answers self.old) (link_answers self.new) (answer_with buf.new result) }
        ensures answer { answer_with buf.new result ≡ answer_at 65507 self.old.list.items self.old.calls }
        ensures cause { HasCause self.old.next_faults self.new.next_faults result }
        ensures sent { link_sent self.new ≡ link_sent self.old }
        ensures send_faults { self.new.send_faults ≡ self.old.send_faults }
    {
        let call = self.calls;
        self.calls = call.saturating_add(1);
        if call >= self.list.len() as u64 {
            return Ok(None);
        }
        let answer = give(&self.list[call as usize], buf);
        if answer.is_err() {
            self.next_faults = self.next_faults.saturating_add(1);
        }
        answer
    }

    fn send(&mut self, to: &Socket, bytes: &[u8]) -> Result<(), Failed>
        ensures told { Tells (link_sent self.old) (link_sent self.new) (sent_with to.now bytes.now result) }
        ensures fails { list_any (λ number. number == self.old.sends) self.old.failing.items ≡ true → IsErr result }
        ensures cause { HasCause self.old.send_faults self.new.send_faults result }
        ensures answers { link_answers self.new ≡ link_answers self.old }
        ensures next_faults { self.new.next_faults ≡ self.old.next_faults }
    {
        let call = self.sends;
        self.sends = call.saturating_add(1);
        let taken = !self.failing.contains(&call);
        if self.keep(to, bytes, taken).is_err() {
            self.forgot = true;
        } else if taken {
            return Ok(());
        }
        self.send_faults = self.send_faults.saturating_add(1);
        Err(Failed)
    }
}
