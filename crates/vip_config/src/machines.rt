ghost use Rattle.std.specs.Prelude.{◌≡◌, ◌≤◌, length, OnOk};
ghost use Rattle.vip_config.specs.Claims.{all_claimed, claims_of, Indexes};
ghost use Rattle.vip_config.specs.Machines.{address_claims, agent_address_claims, machine_claims};
ghost use Rattle.wire_core.specs.Same.{same_ip};

use crate::broken::Broken;
use crate::place::Place;
use crate::walk::Walk;
use config_text::{AgentConf, Attach};
use indexmap::IndexMap;
use std::alloc::Global;
use wire_core::{Ip4, NoMemory};

fn claim_addresses(
    walk: &mut Walk<Ip4, u16>,
    agent: usize,
    machines: &[Attach],
) -> Result<(), NoMemory>
    requires { agent ≤ 256 }
    ensures { OnOk result (walk.new
        ≡ all_claimed same_ip walk.old (claims_of (address_claims agent) 0 machines.now)) }
{
    for (j, machine) in machines.iter().enumerate() {
        let place = Place::MachineAddress(agent, j);
        walk.claim(place, machine.address, agent as u16, true)?;
    }
    Ok(())
}

fn claim_agents(walk: &mut Walk<Ip4, u16>, agents: &[AgentConf]) -> Result<(), NoMemory>
    requires { length agents.now ≤ 256 }
    ensures { OnOk result (walk.new ≡ all_claimed same_ip walk.old (machine_claims agents.now)) }
{
    for (i, agent) in agents.iter().enumerate() {
        claim_addresses(walk, i, agent.machines.as_slice())?;
    }
    Ok(())
}

/// No two machine addresses are equal: whose machine each address is, by the agent's number, or the first address that
/// stands earlier.
pub fn index_machines(alloc: Global, agents: &[AgentConf]) -> Result<IndexMap<Ip4, u16>, Broken>
    requires { length agents.now ≤ 256 }
    ensures { Indexes same_ip (machine_claims agents.now) result }
{
    let mut walk = Walk::new(alloc);
    claim_agents(&mut walk, agents)?;
    walk.end()
}
