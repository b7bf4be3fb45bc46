ghost use Rattle.std.specs.Prelude.{◌≡◌, IfOk};

use crate::index::Index;
use crate::parts::{ConfigParts, VipConf, VipList};
use crate::ways::Ways;
use config_text::{
    AgentConf, AgentList, Attach, AttachList, Endpoint, EndpointList, IpList, Member, MemberList,
    SocketList,
};
use std::alloc::Global;
use wire_core::{Ip4, Items, NoMemory, Socket};

fn copy_sockets(alloc: Global, sockets: &[Socket]) -> Result<SocketList, NoMemory>
    ensures { IfOk result (λ copy. copy ≡ sockets.now) }
{
    Ok(Items::from_vec(sockets.to_vec(alloc)?))
}

fn copy_attached(alloc: Global, machines: &[Attach]) -> Result<AttachList, NoMemory>
    ensures { IfOk result (λ copy. copy ≡ machines.now) }
{
    Ok(Items::from_vec(machines.to_vec(alloc)?))
}

fn copy_addresses(alloc: Global, addresses: &[Ip4]) -> Result<IpList, NoMemory>
    ensures { IfOk result (λ copy. copy ≡ addresses.now) }
{
    Ok(Items::from_vec(addresses.to_vec(alloc)?))
}

fn copy_members(alloc: Global, members: &[Member]) -> Result<MemberList, NoMemory>
    ensures { IfOk result (λ copy. copy ≡ members.now) }
{
    Ok(Items::from_vec(members.to_vec(alloc)?))
}

fn copy_agent(alloc: Global, agent: &AgentConf) -> Result<AgentConf, NoMemory>
    ensures { IfOk result (λ copy. copy ≡ agent.now) }
{
    Ok(AgentConf {
        socket: agent.socket,
        machines: copy_attached(alloc, agent.machines.as_slice())?,
    })
}

fn copy_agents(alloc: Global, agents: &[AgentConf]) -> Result<AgentList, NoMemory>
    ensures { IfOk result (λ copy. copy ≡ agents.now) }
{
    let mut copies = Vec::new(alloc);
    for agent in agents {
        copies.push(copy_agent(alloc, agent)?)?;
    }
    Ok(Items::from_vec(copies))
}

fn copy_endpoint(alloc: Global, endpoint: &Endpoint) -> Result<Endpoint, NoMemory>
    ensures { IfOk result (λ copy. copy ≡ endpoint.now) }
{
    Ok(Endpoint {
        proto: endpoint.proto,
        port: endpoint.port,
        machines: copy_members(alloc, endpoint.machines.as_slice())?,
    })
}

fn copy_endpoints(alloc: Global, endpoints: &[Endpoint]) -> Result<EndpointList, NoMemory>
    ensures { IfOk result (λ copy. copy ≡ endpoints.now) }
{
    let mut copies = Vec::new(alloc);
    for endpoint in endpoints {
        copies.push(copy_endpoint(alloc, endpoint)?)?;
    }
    Ok(Items::from_vec(copies))
}

fn copy_vip(alloc: Global, vip: &VipConf) -> Result<VipConf, NoMemory>
    ensures { IfOk result (λ copy. copy ≡ vip.now) }
{
    Ok(VipConf {
        address: vip.address,
        low: vip.low,
        high: vip.high,
        snat: copy_addresses(alloc, vip.snat.as_slice())?,
        endpoints: copy_endpoints(alloc, vip.endpoints.as_slice())?,
    })
}

fn copy_vips(alloc: Global, vips: &[VipConf]) -> Result<VipList, NoMemory>
    ensures { IfOk result (λ copy. copy ≡ vips.now) }
{
    let mut copies = Vec::new(alloc);
    for vip in vips {
        copies.push(copy_vip(alloc, vip)?)?;
    }
    Ok(Items::from_vec(copies))
}

pub fn copy_parts(alloc: Global, parts: &ConfigParts) -> Result<ConfigParts, NoMemory>
    ensures { IfOk result (λ copy. copy ≡ parts.now) }
{
    Ok(ConfigParts {
        version: parts.version,
        router: parts.router,
        replicas: copy_sockets(alloc, parts.replicas.as_slice())?,
        muxes: copy_sockets(alloc, parts.muxes.as_slice())?,
        agents: copy_agents(alloc, parts.agents.as_slice())?,
        vips: copy_vips(alloc, parts.vips.as_slice())?,
        limit: parts.limit,
        timers: parts.timers,
    })
}

pub fn copy_ways(ways: &Ways) -> Result<Ways, NoMemory>
    ensures attached { IfOk result (λ copy. copy.attached.entries ≡ ways.now.attached.entries) }
    ensures leaving { IfOk result (λ copy. copy.leaving.entries ≡ ways.now.leaving.entries) }
    ensures serving { IfOk result (λ copy. copy.serving.entries ≡ ways.now.serving.entries) }
{
    Ok(Ways {
        attached: ways.attached.clone()?,
        leaving: ways.leaving.clone()?,
        serving: ways.serving.clone()?,
    })
}

pub fn copy_index(index: &Index) -> Result<Index, NoMemory>
    ensures sockets { IfOk result (λ copy. copy.sockets.entries ≡ index.now.sockets.entries) }
    ensures machines { IfOk result (λ copy. copy.machines.entries ≡ index.now.machines.entries) }
{
    Ok(Index {
        sockets: index.sockets.clone()?,
        machines: index.machines.clone()?,
    })
}
