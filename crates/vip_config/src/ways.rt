ghost use Rattle.std.specs.Prelude.{[], ◌∷◌, ◌++◌, IfOk, OnOk, map};
ghost use Rattle.vip_config.specs.Ways.{FindsAs, all_attaches, all_leaves, all_services, attaches_of, leaves_of};
ghost use Rattle.vip_config.specs.Ways.{same_service};
ghost use Rattle.wire_core.specs.Same.{same_ip};

use crate::parts::{ConfigParts, VipConf};
use crate::services::{Service, index_services};
use config_text::{AgentConf, Attach, Member};
use indexmap::IndexMap;
use std::alloc::Global;
use wire_core::{Ip4, NoMemory, Socket};

/// Where each machine is reached, the VIP from which its connections leave, and what it serves.
#[derive(Drop)]
pub struct Ways {
    pub attached: IndexMap<Ip4, Socket>,
    pub leaving: IndexMap<Ip4, Ip4>,
    pub serving: IndexMap<Service, Member>,
}

/// Adds what stands beside an address, unless something does already.
fn add<V: Drop>(index: &mut IndexMap<Ip4, V>, address: Ip4, value: V) -> Result<(), NoMemory>
    ensures { OnOk result (FindsAs same_ip index.new.entries (index.old.entries ++ (address, value) ∷ [])) }
{
    if index.contains_key(&address) {
        return Ok(());
    }
    index.insert(address, value)?;
    Ok(())
}

fn add_attached(index: &mut IndexMap<Ip4, Socket>, machines: &[Attach]) -> Result<(), NoMemory>
    ensures { OnOk result (FindsAs same_ip index.new.entries
        (index.old.entries ++ map (λ machine. (machine.address, machine.attach)) machines.now)) }
{
    for machine in machines {
        add(index, machine.address, machine.attach)?;
    }
    Ok(())
}

fn index_attached(alloc: Global, agents: &[AgentConf]) -> Result<IndexMap<Ip4, Socket>, NoMemory>
    ensures { IfOk result (λ index. FindsAs same_ip index.entries (all_attaches agents.now)) }
{
    let mut index = IndexMap::new(alloc);
    for agent in agents {
        add_attached(&mut index, agent.machines.as_slice())?;
    }
    Ok(index)
}

fn add_leaving(index: &mut IndexMap<Ip4, Ip4>, vip: Ip4, machines: &[Ip4]) -> Result<(), NoMemory>
    ensures { OnOk result (FindsAs same_ip index.new.entries
        (index.old.entries ++ map (λ machine. (machine, vip)) machines.now)) }
{
    for machine in machines {
        add(index, *machine, vip)?;
    }
    Ok(())
}

fn index_leaving(alloc: Global, vips: &[VipConf]) -> Result<IndexMap<Ip4, Ip4>, NoMemory>
    ensures { IfOk result (λ index. FindsAs same_ip index.entries (all_leaves vips.now)) }
{
    let mut index = IndexMap::new(alloc);
    for vip in vips {
        add_leaving(&mut index, vip.address, vip.snat.as_slice())?;
    }
    Ok(index)
}

/// All three, over all agents and VIPs. The cost is linear in their machines.
pub fn index_ways(alloc: Global, parts: &ConfigParts) -> Result<Ways, NoMemory>
    ensures attached { IfOk result (λ ways. FindsAs same_ip ways.attached.entries (all_attaches parts.now.agents)) }
    ensures leaving { IfOk result (λ ways. FindsAs same_ip ways.leaving.entries (all_leaves parts.now.vips)) }
    ensures serving { IfOk result (λ ways. FindsAs same_service ways.serving.entries (all_services parts.now.vips)) }
{
    Ok(Ways {
        attached: index_attached(alloc, parts.agents.as_slice())?,
        leaving: index_leaving(alloc, parts.vips.as_slice())?,
        serving: index_services(alloc, parts.vips.as_slice())?,
    })
}
