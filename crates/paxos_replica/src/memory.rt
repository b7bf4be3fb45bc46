ghost use Rattle.std.specs.Prelude.{◌≡◌, IfOk};
ghost use Rattle.paxos_spec.specs.Replica.{down, new_memory, with_goal, with_leader};

use paxos_leader::Leader;
use std::alloc::Global;
use std::marker::Model;
use wire_core::NoMemory;

/// What a replica has in memory alone.
#[derive(Debug, Drop)]
pub struct Memory {
    pub leader: Leader,
    /// The greatest ballot or epoch that it heard of.
    pub seen: u64,
    /// A length that some replica has.
    pub goal: u64,
    /// That replica.
    pub guide: u8,
}

impl Model for Memory {
    ghost use Rattle.paxos_spec.specs.Replica.{Memory as ReplicaMemory};

    ghost Value = { ReplicaMemory };

    ghost view = { λ m. record { leader = m.leader; seen = m.seen; goal = m.goal; guide = m.guide } };
}

impl Memory {
    /// Nothing is remembered.
    pub fn new(alloc: Global) -> Memory
        ensures { result ≡ new_memory }
    {
        Memory {
            leader: Leader::new(alloc),
            seen: 0,
            goal: 0,
            guide: 0,
        }
    }

    /// The same, with this leader.
    pub fn with_leader(&self, leader: Leader) -> Memory
        ensures { result ≡ with_leader self.now leader }
    {
        Memory {
            leader,
            seen: self.seen,
            goal: self.goal,
            guide: self.guide,
        }
    }

    /// The same, stepped down.
    pub fn down(&self) -> Memory
        ensures { result ≡ down self.now }
    {
        self.with_leader(self.leader.stepped_down())
    }

    /// A copy.
    pub fn copy(&self) -> Result<Memory, NoMemory>
        ensures { IfOk result (λ memory. memory ≡ self.now) }
    {
        Ok(self.with_leader(self.leader.copy()?))
    }

    /// A copy, with this length as its goal, which this replica has.
    pub fn with_goal(&self, length: u64, replica: u8) -> Result<Memory, NoMemory>
        ensures { IfOk result (λ memory. memory ≡ with_goal self.now length replica) }
    {
        let mut memory = self.copy()?;
        memory.goal = length;
        memory.guide = replica;
        Ok(memory)
    }
}
