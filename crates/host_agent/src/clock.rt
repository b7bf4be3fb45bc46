// The clock.
ghost use Rattle.std.specs.Prelude.{◌≡◌, map, take, OnOk};
ghost use Rattle.std.specs.List.{flat_map};
ghost use Rattle.agent_spec.specs.Agent.{with_traffic};
ghost use Rattle.agent_spec.specs.Clock.{asks_again, at_now, idle_leave, on_tick, renewed, returns_again, says_again, up_again};
ghost use Rattle.host_agent.specs.Seen.{as_is, with_lists};
ghost use Rattle.node_spec.specs.Steps.{outgoing, turned, with_sends};

use crate::leavers::leave_idle;
use crate::state::State;
use crate::telling::{ask_each, return_each, say_all};
use control_msg::Message;
use std::alloc::Global;
use wire_core::{NoMemory, Step};

/// The most numbers that are given back again at a tick.
const MOST_RETURNS: usize = 64;

impl State {
    /// AgentUp to all five, unless a primary knows this boot.
    #[tactic(auto, unfolding(agent_spec::specs::Clock::up_again))]
    fn say_up(&self, alloc: Global, step: &mut Step) -> Result<(), NoMemory>
        ensures { OnOk result
            (step.new ≡ with_sends (flat_map (outgoing self.now.config) (up_again self.now.lists)) step.old) }
    {
        if self.known {
            return Ok(());
        }
        let boot = self.origin.boot;
        say_all(alloc, &self.cfg, step, &Message::AgentUp { boot })?;
        Ok(())
    }

    /// Each ask that is out for so long, to all five.
    #[tactic(auto, unfolding(agent_spec::specs::Clock::asks_again))]
    fn say_asks(&self, alloc: Global, step: &mut Step, retry: u64) -> Result<(), NoMemory>
        ensures { OnOk result
            (step.new ≡ with_sends (flat_map (outgoing self.now.config) (asks_again retry self.now.lists)) step.old) }
    {
        ask_each(
            alloc,
            &self.cfg,
            step,
            self.hosts.as_slice(),
            self.origin.boot,
            self.traffic.time(),
            retry,
        )?;
        Ok(())
    }

    /// The first of the numbers that are given back, each to all five.
    #[tactic(auto, using(crate::proofs::Firsts::first_of_all), unfolding(agent_spec::specs::Clock::returns_again))]
    fn say_returns(&self, alloc: Global, step: &mut Step) -> Result<(), NoMemory>
        ensures { OnOk result
            (step.new ≡ with_sends (flat_map (outgoing self.now.config) (returns_again self.now.lists)) step.old) }
    {
        let numbers = self.traffic.ports.returning();
        let first = &numbers[..numbers.len().min(MOST_RETURNS)];
        return_each(alloc, &self.cfg, step, first, self.origin.boot)?;
        Ok(())
    }

    /// What isn't answered is said again.
    fn say_again(&mut self, alloc: Global, step: &mut Step, retry: u64) -> Result<(), NoMemory>
        ensures { OnOk result ((self.new, step.new)
            ≡ turned (with_lists self.old) self.old.config step.old (says_again retry self.old.lists)) }
    {
        self.say_up(alloc, step)?;
        self.say_asks(alloc, step, retry)?;
        self.say_returns(alloc, step)?;
        self.hosts.renew(self.traffic.time(), retry);
        Ok(())
    }

    /// A tick: what is idle leaves, and then what is due is said.
    pub(crate) fn on_tick(
        &mut self,
        alloc: Global,
        step: &mut Step,
        now: u64,
    ) -> Result<(), NoMemory>
        ensures { OnOk result ((self.new, step.new)
            ≡ turned (with_lists self.old) self.old.config step.old (on_tick self.old.config self.old.lists now)) }
    {
        let timers = self.cfg.timers();
        self.traffic.advance(now);
        leave_idle(&self.cfg, &mut self.traffic, &self.hosts, step)?;
        self.say_again(alloc, step, timers.ask_retry)?;
        Ok(())
    }
}
