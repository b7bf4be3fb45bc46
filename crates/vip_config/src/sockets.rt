ghost use Rattle.std.specs.Prelude.{◌≡◌, ◌≤◌, length, OnOk};
ghost use Rattle.vip_config.specs.Claims.{all_claimed, claims_of, nothing_claimed, Indexes};
ghost use Rattle.vip_config.specs.Sockets.{agent_claims, mux_claims, replica_claims, socket_claims};
ghost use Rattle.vip_config.specs.Sockets.{attach_claims};
ghost use Rattle.wire_core.specs.Same.{same_socket};

use crate::broken::Broken;
use crate::place::Place;
use crate::walk::Walk;
use crate::who::Who;
use config_text::{AgentConf, Attach};
use indexmap::IndexMap;
use std::alloc::Global;
use wire_core::{NoMemory, Socket};

fn claim_replicas(walk: &mut Walk<Socket, Who>, replicas: &[Socket]) -> Result<(), NoMemory>
    requires { length replicas.now ≤ 5 }
    ensures { OnOk result (walk.new ≡ all_claimed same_socket walk.old (claims_of replica_claims 0 replicas.now)) }
{
    for (i, socket) in replicas.iter().enumerate() {
        walk.claim(Place::Replica(i), *socket, Who::Replica(i as u8), true)?;
    }
    Ok(())
}

fn claim_muxes(walk: &mut Walk<Socket, Who>, muxes: &[Socket]) -> Result<(), NoMemory>
    requires { length muxes.now ≤ 16 }
    ensures { OnOk result (walk.new ≡ all_claimed same_socket walk.old (claims_of mux_claims 0 muxes.now)) }
{
    for (i, socket) in muxes.iter().enumerate() {
        walk.claim(Place::Mux(i), *socket, Who::Mux(i as u16), true)?;
    }
    Ok(())
}

fn claim_attached(
    walk: &mut Walk<Socket, Who>,
    agent: usize,
    machines: &[Attach],
) -> Result<(), NoMemory>
    ensures { OnOk result (walk.new
        ≡ all_claimed same_socket walk.old (claims_of (attach_claims agent) 0 machines.now)) }
{
    for (j, machine) in machines.iter().enumerate() {
        let owner = Who::Machine(machine.address);
        walk.claim(Place::MachineAttach(agent, j), machine.attach, owner, true)?;
    }
    Ok(())
}

fn claim_agent(walk: &mut Walk<Socket, Who>, i: usize, agent: &AgentConf) -> Result<(), NoMemory>
    requires { i ≤ 256 }
    ensures { OnOk result (walk.new ≡ all_claimed same_socket walk.old (agent_claims i agent.now)) }
{
    walk.claim(
        Place::AgentSocket(i),
        agent.socket,
        Who::Agent(i as u16),
        true,
    )?;
    claim_attached(walk, i, agent.machines.as_slice())
}

fn claim_agents(walk: &mut Walk<Socket, Who>, agents: &[AgentConf]) -> Result<(), NoMemory>
    requires { length agents.now ≤ 256 }
    ensures { OnOk result (walk.new ≡ all_claimed same_socket walk.old (claims_of agent_claims 0 agents.now)) }
{
    for (i, agent) in agents.iter().enumerate() {
        claim_agent(walk, i, agent)?;
    }
    Ok(())
}

/// No two sockets are equal: whose each socket is, or the first that stands earlier.
pub fn index_sockets(
    alloc: Global,
    router: Socket,
    replicas: &[Socket],
    muxes: &[Socket],
    agents: &[AgentConf],
) -> Result<IndexMap<Socket, Who>, Broken>
    requires replicas { length replicas.now ≤ 5 }
    requires muxes { length muxes.now ≤ 16 }
    requires agents { length agents.now ≤ 256 }
    ensures { Indexes same_socket (socket_claims router replicas.now muxes.now agents.now) result }
{
    let mut walk = Walk::new(alloc);
    walk.claim(Place::Router, router, Who::Outside, true)?;
    claim_replicas(&mut walk, replicas)?;
    claim_muxes(&mut walk, muxes)?;
    claim_agents(&mut walk, agents)?;
    walk.end()
}
