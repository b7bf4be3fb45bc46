ghost use Rattle.std.specs.Prelude.{◌≡◌, ◌-◌, ◌++◌, ◌∷◌, [], drop, length, map, nat_le, take, OnOk};
ghost use Rattle.std.specs.List.{list_any};
ghost use Rattle.manager_log.specs.Parts.{command_of};
ghost use Rattle.manager_spec.specs.Agents.{same_request};
ghost use Rattle.wire_core.specs.Views.{IsWritable, command_of as meant};

use std::alloc::Global;
use std::collections::VecDeque;
use std::marker::Model;
use wire_core::{Command, Ip4, NoMemory, Value, ValueBuilder};

/// The most requests that wait.
const MOST_QUEUED: usize = 4096;

/// What an agent asked for, and waits to be proposed.
#[derive(Clone, Copy, Debug, PartialEq, Eq)]
pub enum Request {
    Reserve {
        agent: u16,
        boot: u64,
        machine: Ip4,
        seq: u64,
    },
    Release {
        n: u64,
    },
    Up {
        agent: u16,
        boot: u64,
    },
}

/// Whether the command is the request.
fn is_same(request: &Request, command: &Command<'_>) -> bool
    ensures { result ≡ same_request (command_of request.now) (meant command.now) }
{
    match (*request, *command) {
        (
            Request::Reserve {
                agent,
                boot,
                machine,
                seq,
            },
            Command::Reserve {
                agent: other,
                boot: life,
                machine: host,
                seq: count,
            },
        ) => agent == other && boot == life && machine.0 == host.0 && seq == count,
        (Request::Release { n }, Command::Release { n: other }) => n == other,
        (
            Request::Up { agent, boot },
            Command::Up {
                agent: other,
                boot: life,
            },
        ) => agent == other && boot == life,
        _ => false,
    }
}

impl Request {
    /// The command that it asks for.
    pub fn as_command(self) -> Command<'static>
        ensures command { meant result ≡ command_of self }
        ensures writable { IsWritable result }
    {
        match self {
            Request::Reserve {
                agent,
                boot,
                machine,
                seq,
            } => Command::Reserve {
                agent,
                boot,
                machine,
                seq,
            },
            Request::Release { n } => Command::Release { n },
            Request::Up { agent, boot } => Command::Up { agent, boot },
        }
    }

    /// Whether the value has it among its commands.
    pub fn is_within(&self, value: &Value) -> bool
        ensures { result ≡ list_any (same_request (command_of self.now)) value.now }
    {
        for i in 0..value.len() {
            if is_same(self, &value.command(i)) {
                return true;
            }
        }
        false
    }
}

/// Whether the two are the same.
fn is_same_request(request: &Request, queued: &Request) -> bool
    ensures { result ≡ same_request (command_of request.now) (command_of queued.now) }
{
    is_same(request, &queued.as_command())
}

/// Whether one of the waiting requests is this one.
fn is_among(queue: &VecDeque<Request>, request: &Request) -> bool
    ensures { result
        ≡ list_any (λ queued. same_request (command_of request.now) (command_of queued)) queue.now.items }
{
    queue.iter().any(|queued| is_same_request(request, queued))
}

/// The first of the requests leave the queue, and fill up the value to 16 commands.
#[tactic(auto, using(crate::proofs::DueLaws::filled_next, crate::proofs::DueLaws::dropped_next, crate::proofs::DueLaws::full_filled, crate::proofs::DueLaws::full_dropped))]
fn fill(requests: &mut VecDeque<Request>, value: &mut ValueBuilder) -> Result<(), NoMemory>
    ensures value { OnOk result (value.new
        ≡ value.old ++ take (16 - length value.old) (map command_of requests.old.items)) }
    ensures left { OnOk result (map command_of requests.new.items
        ≡ drop (16 - length value.old) (map command_of requests.old.items)) }
{
    while value.len() < 16 {
        let Some(request) = requests.pop_front() else {
            return Ok(());
        };
        value.push(&request.as_command())?;
    }
    Ok(())
}

/// The requests of agents that wait to be proposed, in the order in which they came.
#[derive(Drop)]
pub struct Queue {
    requests: VecDeque<Request>,
}

impl Model for Queue {
    ghost use Rattle.std.specs.Prelude.{List, map};
    ghost use Rattle.wire_core.specs.Commands.{LogCommand};
    ghost use Rattle.manager_log.specs.Parts.{command_of};

    ghost Value = { List LogCommand };

    ghost view = { λ q. map command_of q.requests.items };
}

impl Queue {
    /// No request. Takes no memory.
    pub fn new(alloc: Global) -> Queue
        ensures { result ≡ [] }
    {
        Queue {
            requests: VecDeque::new(alloc),
        }
    }

    /// Whether the request waits. A look at each.
    #[tactic(auto, using(crate::proofs::QueueLaws::any_map))]
    pub fn has(&self, request: &Request) -> bool
        ensures { result ≡ list_any (same_request (command_of request.now)) self.now }
    {
        is_among(&self.requests, request)
    }

    /// Whether no more may wait.
    #[tactic(auto, using(crate::proofs::QueueLaws::length_queue))]
    pub fn is_full(&self) -> bool
        ensures { result ≡ nat_le 4096 (length self.now) }
    {
        self.requests.len() >= MOST_QUEUED
    }

    /// One more waits.
    #[tactic(auto, using(crate::proofs::QueueLaws::map_push))]
    pub fn push(&mut self, request: Request) -> Result<(), NoMemory>
        ensures { OnOk result (self.new ≡ self.old ++ command_of request ∷ []) }
    {
        self.requests.push_back(request)?;
        Ok(())
    }

    /// The first of them leave, and fill up the value to 16 commands.
    pub fn fill(&mut self, value: &mut ValueBuilder) -> Result<(), NoMemory>
        ensures value { OnOk result (value.new ≡ value.old ++ take (16 - length value.old) self.old) }
        ensures left { OnOk result (self.new ≡ drop (16 - length value.old) self.old) }
    {
        fill(&mut self.requests, value)
    }

    /// None waits any more.
    pub fn clear(&mut self)
        ensures { self.new ≡ [] }
    {
        self.requests.clear();
    }
}
