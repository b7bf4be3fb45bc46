// What is idle leaves.
ghost use Rattle.std.specs.Prelude.{◌≡◌, filter, OnOk};
ghost use Rattle.agent_spec.specs.Clock.{close_idle, give_back_spare, idle_leave};
ghost use Rattle.agent_spec.specs.Connections.{is_idle};
ghost use Rattle.host_agent.specs.Idle.{closed_each, closings, drops, with_acts, without_idle};
ghost use Rattle.host_agent.specs.Seen.{as_is};
ghost use Rattle.node_spec.specs.Steps.{turned};

use crate::machines::Machines;
use crate::traffic::Traffic;
use agent_flows::conn_of;
use agent_ports::Ports;
use vip_config::Config;
use wire_core::{Act, NoMemory, Step};

/// Closes the connections that are idle for so long, first opened first.
fn close_each(ports: &mut Ports, step: &mut Step, now: u64, idle: u64) -> Result<(), NoMemory>
    ensures ports { OnOk result
        (ports.new ≡ closed_each now (filter (is_idle now idle) ports.old.conns) ports.old) }
    ensures step { OnOk result
        (step.new ≡ with_acts (closings (filter (is_idle now idle) ports.old.conns)) step.old) }
{
    while let Some(c) = ports.expire(now, idle) {
        step.act(Act::Close { c: conn_of(&c) })?;
    }
    Ok(())
}

/// Tells of the ranges that were given back.
fn tell_drops(step: &mut Step, numbers: &[u64]) -> Result<(), NoMemory>
    ensures { OnOk result (step.new ≡ with_acts (drops numbers.now) step.old) }
{
    for n in numbers {
        step.act(Act::Drop { n: *n })?;
    }
    Ok(())
}

/// Ranges without a connection for so long, whose machines hold no packet, are given back by number.
fn give_back_spare(
    cfg: &Config,
    traffic: &mut Traffic,
    hosts: &Machines,
    step: &mut Step,
    idle: u64,
) -> Result<(), NoMemory>
    ensures { OnOk result ((traffic.new, step.new)
        ≡ turned as_is cfg.now step.old (give_back_spare hosts.now idle traffic.old)) }
{
    let now = traffic.time;
    let given = traffic
        .ports
        .give_back_idle(now, idle, |machine| hosts.holds_packet(machine))?;
    tell_drops(step, given.as_slice())?;
    Ok(())
}

/// What is idle leaves: connections, inbound entries, ranges.
pub(crate) fn leave_idle(
    cfg: &Config,
    traffic: &mut Traffic,
    hosts: &Machines,
    step: &mut Step,
) -> Result<(), NoMemory>
    ensures { OnOk result ((traffic.new, step.new)
        ≡ turned as_is cfg.now step.old (idle_leave cfg.now hosts.now traffic.old)) }
{
    let timers = cfg.timers();
    traffic.close_idle(cfg, step, timers.flow_idle)?;
    traffic.forget_inbound(timers.flow_idle);
    give_back_spare(cfg, traffic, hosts, step, timers.range_idle)?;
    Ok(())
}

impl Traffic {
    /// Idle connections close, first opened first. Looks at each connection at most once, and at none while none can be
    /// idle.
    fn close_idle(&mut self, cfg: &Config, step: &mut Step, idle: u64) -> Result<(), NoMemory>
        ensures { OnOk result ((self.new, step.new) ≡ turned as_is cfg.now step.old (close_idle idle self.old)) }
    {
        close_each(&mut self.ports, step, self.time, idle)?;
        Ok(())
    }

    /// Idle inbound entries leave.
    fn forget_inbound(&mut self, idle: u64)
        ensures { self.new ≡ without_idle idle self.old }
    {
        self.inbound.forget_idle(self.time, idle);
    }
}
