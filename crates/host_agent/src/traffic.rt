ghost use Rattle.std.specs.Prelude.{◌≡◌, ◌++◌, ◌∷◌, [], max, OnOk, IfOk, None, length, nat_le, true, false};
ghost use Rattle.agent_spec.specs.Agent.{with_ranges};
ghost use Rattle.agent_spec.specs.Ranges.{is_returning, no_ranges, returned};
ghost use Rattle.agent_spec.specs.Connections.{by_private, by_public, changed, closed, most, private_key, public_key};
ghost use Rattle.agent_spec.specs.Wrapped.{met_again};
ghost use Rattle.host_agent.specs.Transfers.{granted_to};
ghost use Rattle.agent_spec.specs.Traffic.{close_conn, inbound_touched, open_conn, touched};
ghost use Rattle.host_agent.specs.Seen.{as_is};
ghost use Rattle.node_spec.specs.Steps.{turned};

use agent_flows::{Flows, conn_of, private_key};
use agent_ports::Ports;
use agent_spec::{Connection, Granting};
use std::alloc::Global;
use std::marker::Model;
use vip_config::Config;
use wire_core::{Act, Ip4, NoMemory, Range, Step};

/// What an agent's packets change: its ranges, its connections and its inbound entries. The time is in milliseconds.
#[derive(Drop)]
pub struct Traffic {
    pub(crate) ports: Ports,
    pub(crate) inbound: Flows,
    pub(crate) time: u64,
}

impl Model for Traffic {
    ghost use Rattle.agent_spec.specs.Agent.{Traffic};

    ghost Value = { Traffic };

    ghost view = { λ t. record {
      ranges = t.ports.ranges;
      conns = t.ports.conns;
      inbound = t.inbound;
      time = t.time;
    } };
}

impl Traffic {
    /// Nothing, at time 0. Takes no memory.
    pub(crate) fn new(alloc: Global) -> Traffic
        ensures { result ≡ record { ranges = no_ranges; conns = []; inbound = []; time = 0 } }
    {
        Traffic {
            ports: Ports::new(alloc),
            inbound: Flows::new(alloc),
            time: 0,
        }
    }

    /// A connection opens, with keys that no other has, and where there is room.
    #[tactic(auto, using(node_spec::proofs::Turning::act_turned), unfolding(agent_spec::specs::Traffic::open_conn))]
    pub(crate) fn open(
        &mut self,
        cfg: &Config,
        step: &mut Step,
        c: &Connection,
    ) -> Result<(), NoMemory>
        requires private { by_private (private_key c.now) self.old.conns ≡ None }
        requires public { by_public (public_key c.now) self.old.conns ≡ None }
        requires room { nat_le most (length self.old.conns) ≡ false }
        ensures { OnOk result ((self.new, step.new) ≡ turned as_is cfg.now step.old (open_conn self.old c.now)) }
    {
        self.ports.open(*c)?;
        step.act(Act::Open { c: conn_of(c) })?;
        Ok(())
    }

    /// The connection was used now.
    pub(crate) fn touch(&mut self, c: &Connection)
        ensures { self.new ≡ touched self.old c.now }
    {
        self.ports.touch(&private_key(c), self.time);
    }

    /// The inbound entry was used now.
    pub(crate) fn touch_inbound(&mut self, c: &Connection)
        ensures { self.new ≡ inbound_touched self.old c.now }
    {
        self.inbound.touch(&private_key(c), self.time);
    }

    /// The number needn't be given back again. Answers whether it was given back; else nothing changes.
    pub(crate) fn returned(&mut self, n: u64) -> bool
        ensures was { result ≡ is_returning n self.old.ranges }
        ensures yes { result ≡ true → self.new ≡ with_ranges self.old (returned n self.old.ranges) }
        ensures no { result ≡ false → self.new ≡ self.old }
    {
        self.ports.returned(n)
    }

    /// A connection closes.
    #[tactic(auto, using(node_spec::proofs::Turning::act_turned), unfolding(agent_spec::specs::Traffic::close_conn))]
    pub(crate) fn close(
        &mut self,
        cfg: &Config,
        step: &mut Step,
        c: &Connection,
    ) -> Result<(), NoMemory>
        ensures { OnOk result ((self.new, step.new) ≡ turned as_is cfg.now step.old (close_conn c.now self.old)) }
    {
        self.ports.close(c, self.time);
        step.act(Act::Close { c: conn_of(c) })?;
        Ok(())
    }

    /// One inbound entry more, with keys that no other has, and where there is room.
    pub(crate) fn enter(&mut self, c: &Connection) -> Result<(), NoMemory>
        requires private { by_private (private_key c.now) self.old.inbound ≡ None }
        requires public { by_public (public_key c.now) self.old.inbound ≡ None }
        requires room { nat_le most (length self.old.inbound) ≡ false }
        ensures { OnOk result (self.new ≡ record self.old { inbound = self.old.inbound ++ c.now ∷ [] }) }
    {
        self.inbound.open(*c)?;
        Ok(())
    }

    /// An inbound entry leaves.
    pub(crate) fn forget(&mut self, c: &Connection)
        ensures { self.new ≡ record self.old { inbound = closed (private_key c.now) self.old.inbound } }
    {
        self.inbound.close(&private_key(c));
    }

    /// An inbound entry is used now, and its peer is cleared where that is asked.
    pub(crate) fn meet_again(&mut self, c: &Connection, clear: bool)
        ensures { self.new
            ≡ record self.old { inbound = changed c.now (met_again self.old.time clear) self.old.inbound } }
    {
        self.inbound.meet_again(&private_key(c), self.time, clear);
    }

    /// The time in milliseconds.
    pub(crate) fn time(&self) -> u64
        ensures { result ≡ self.now.time }
    {
        self.time
    }

    /// The time is the greater of the two.
    pub(crate) fn advance(&mut self, now: u64)
        ensures { self.new ≡ record self.old { time = max self.old.time now } }
    {
        self.time = self.time.max(now);
    }

    /// A Grant of a range to a machine.
    pub(crate) fn grant(&mut self, n: u64, r: &Range, machine: Ip4) -> Result<Granting, NoMemory>
        ensures { IfOk result (λ came. (self.new, came) ≡ granted_to self.old n r.now machine) }
    {
        self.ports.grant(n, r, machine, self.time)
    }
}
