ghost use Rattle.std.specs.Prelude.{◌≡◌, slice_get, option_map, IfOk};
ghost use Rattle.agent_spec.specs.Agent.{opened_agent};
ghost use Rattle.agent_spec.specs.AgentTable.{agent_step};
ghost use Rattle.agent_spec.specs.declared.held.Held.{Held};
ghost use Rattle.host_agent.specs.Entries.{entries_of};
ghost use Rattle.host_agent.specs.Seen.{with_lists};
ghost use Rattle.node_spec.specs.Steps.{input_of, turned};
ghost use Rattle.wire_core.specs.Steps.{no_step};

use crate::state::State;
use agent_spec::Connection;
use std::alloc::{AllocError, Global};
use std::marker::Model;
use vip_config::Config;
use wire_core::{BodyList, Input, Ip4, NoMemory, Range, Step};

/// A host's agent. In contracts it is its configuration and its lists.
#[derive(Drop)]
pub struct Agent {
    state: State,
    /// Each input so far was taken as a whole. After want of memory the lists may be between two of them.
    whole: bool,
}

impl Model for Agent {
    ghost use Rattle.std.specs.Prelude.{◌≡◌, true};
    ghost use Rattle.agent_spec.specs.Keys.{EntriesApart};
    ghost use Rattle.host_agent.specs.Seen.{Core};

    ghost Value = { Core };

    ghost view = { λ a. a.state };

    ghost invariant = { λ a. a.whole ≡ true → EntriesApart a.state.config a.state.lists.traffic.inbound };
}

impl Agent {
    /// An agent as it opens under a configuration: its boot is the greatest of the entries that the bodies spell, and
    /// it has nothing else. It takes a copy of the configuration. The cost is linear in the configuration and in the
    /// bodies.
    pub fn recover(
        alloc: Global,
        cfg: &Config,
        index: u16,
        bodies: &BodyList,
    ) -> Result<Agent, NoMemory>
        ensures { IfOk result (λ a. a
            ≡ record { config = cfg.now; lists = opened_agent cfg.now index (entries_of bodies.now) }) }
    {
        let state = State::recover(alloc, cfg, index, bodies)?;
        Ok(Agent { state, whole: true })
    }

    /// One input: a datagram or a tick. The step is what the agent's table says, and so are the lists that are left.
    /// Once it has answered want of memory it takes nothing more, and answers the same to each input.
    pub fn handle(&mut self, alloc: Global, input: &Input<'_>) -> Result<Step, NoMemory>
        ensures { IfOk result (λ step. (self.new, step)
            ≡ turned (with_lists self.old) self.old.config no_step
            (agent_step self.old.config self.old.lists (input_of input.now))) }
    {
        if !self.whole {
            return Err(AllocError);
        }
        self.whole = false;
        let step = self.state.turn(alloc, input)?;
        self.whole = true;
        Ok(step)
    }

    /// The i-th held range by number, from 0: its number, itself, and its machine. `None` exactly from their count on.
    pub fn held(&self, i: usize) -> Option<(u64, Range, Ip4)>
        ensures { result ≡ option_map (λ (h : Held). (h.n, h.range, h.machine))
            (slice_get self.now.lists.traffic.ranges.held i) }
    {
        self.state
            .traffic
            .ports
            .held(i)
            .map(|h| (h.n, h.range, h.machine))
    }

    /// The i-th opened of the connections, from 0. `None` exactly from their count on. Walks over those before it.
    pub fn connection(&self, i: usize) -> Option<Connection>
        ensures { result ≡ slice_get self.now.lists.traffic.conns i }
    {
        self.state.traffic.ports.connection(i)
    }
}
