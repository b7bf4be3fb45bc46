ghost use Rattle.std.specs.Prelude.{◌≡◌, ◌<◌, ◌≤◌, ◌+◌, ◌++◌, ◌∷◌, [], drop, length, slice_get, option_map, IfOk};
ghost use Rattle.std.specs.Prelude.{IfErr, IsOk, ◌↔◌};

use circular_buffer::HeapCircularBuffer;
use std::alloc::Global;
use std::marker::Model;
use wire_core::NoMemory;

/// The most packets that are held.
const MOST: usize = 64;

/// Held packets, the oldest first. In contracts it is the list of their bytes.
#[derive(Drop)]
pub struct HoldQueue {
    ring: HeapCircularBuffer<Vec<u8>>,
}

impl Model for HoldQueue {
    ghost use Rattle.std.specs.Prelude.{◌≡◌, ℕ, List, map};

    ghost Value = { List (List ℕ) };

    ghost view = { λ q. map (λ v. v.items) q.ring.items };

    ghost invariant = { λ q. q.ring.capacity ≡ 64 };
}

impl HoldQueue {
    /// A queue without packets, with room for 64.
    pub fn new(alloc: Global) -> Result<HoldQueue, NoMemory>
        ensures { IfOk result (λ q. q ≡ []) }
    {
        let ring = HeapCircularBuffer::with_capacity(alloc, MOST)?;
        Ok(HoldQueue { ring })
    }

    /// How many packets are held, at most 64.
    pub fn len(&self) -> usize
        ensures len { result ≡ length self.now }
        ensures most { length self.now ≤ 64 }
    {
        self.ring.len()
    }

    /// Holds a packet as the newest, and answers how many are held then. The packet comes back exactly where 64 are
    /// held, and the queue stays as it was.
    pub fn hold(&mut self, packet: Vec<u8>) -> Result<usize, Vec<u8>>
        ensures room { IsOk result ↔ (length self.old < 64) }
        ensures ok { IfOk result (λ count. count ≡ length self.old + 1) }
        ensures held { IfOk result (λ _. self.new ≡ self.old ++ packet.items ∷ []) }
        ensures err { IfErr result (λ back. back ≡ packet) }
        ensures same { IfErr result (λ _. self.new ≡ self.old) }
    {
        match self.ring.try_push_back(packet) {
            Ok(_) => Ok(self.ring.len()),
            Err(back) => Err(back),
        }
    }

    /// Takes the oldest packet. `None` exactly where none is held.
    pub fn take(&mut self) -> Option<Vec<u8>>
        ensures oldest { option_map (λ v. v.items) result ≡ slice_get self.old 0 }
        ensures others { self.new ≡ drop 1 self.old }
    {
        self.ring.pop_front()
    }
}
