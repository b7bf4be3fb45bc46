// All nodes, opened on empty disks.
ghost use Rattle.std.specs.Prelude.{◌≡◌, ◌<◌, ◌≤◌, ℕ, map, IfErr, IfOk};
ghost use Rattle.world_nodes.specs.Disks.{ArePlaces, site_of};
ghost use Rattle.world_nodes.specs.Firsts.{first_nodes, first_sites, named};
ghost use Rattle.world_nodes.specs.Nodes.{AreNodes, nodes_of};
ghost use Rattle.world_nodes.specs.Firsts.{MayOpen};
ghost use Rattle.world_nodes.specs.declared.fault.WorldFault.TheVariants.{NoMemory};

use crate::fault::WorldFault;
use crate::nodes::Nodes;
use crate::site::{Site, first_site};
use node_core::Core;
use std::alloc::Global;
use vip_config::Config;
use wire_core::NodeId;

/// The role of a node.
#[derive(Clone, Copy, Debug, PartialEq, Eq)]
pub enum Kind {
    Replica,
    Mux,
    Agent,
}

fn named(kind: Kind, i: usize) -> NodeId
    requires { i < 256 }
    ensures { result ≡ named kind i }
{
    match kind {
        Kind::Replica => NodeId::Replica(i as u8),
        Kind::Mux => NodeId::Mux(i as u16),
        Kind::Agent => NodeId::Agent(i as u16),
    }
}

// The first nodes of a role.
fn first_sites<C: Core>(
    alloc: Global,
    cfg: &Config,
    kind: Kind,
    count: usize,
) -> Result<Vec<Site<C>>, WorldFault>
    requires few { count ≤ 256 }
    requires may { (i : ℕ) → i < count → C.may_open cfg.now (named kind i) }
    ensures places { IfOk result (λ sites. ArePlaces sites.items) }
    ensures sites { IfOk result (λ sites. map site_of sites.items ≡ first_sites C.opened cfg.now (named kind) count) }
    ensures memory { IfErr result (λ e. e ≡ NoMemory) }
{
    let mut sites = Vec::new(alloc);
    for i in 0..count {
        sites.push(first_site(alloc, cfg, named(kind, i))?)?;
    }
    Ok(sites)
}

fn first_replicas<C: Core>(alloc: Global, cfg: &Config) -> Result<Vec<Site<C>>, WorldFault>
    requires may { MayOpen C.may_open cfg.now }
    ensures places { IfOk result (λ sites. ArePlaces sites.items) }
    ensures sites { IfOk result (λ sites. map site_of sites.items ≡ (first_nodes C.opened cfg.now).replicas) }
    ensures memory { IfErr result (λ e. e ≡ NoMemory) }
{
    cfg.keeps_rules();
    first_sites(alloc, cfg, Kind::Replica, cfg.replicas().len())
}

fn first_muxes<C: Core>(alloc: Global, cfg: &Config) -> Result<Vec<Site<C>>, WorldFault>
    requires may { MayOpen C.may_open cfg.now }
    ensures places { IfOk result (λ sites. ArePlaces sites.items) }
    ensures sites { IfOk result (λ sites. map site_of sites.items ≡ (first_nodes C.opened cfg.now).muxes) }
    ensures memory { IfErr result (λ e. e ≡ NoMemory) }
{
    cfg.keeps_rules();
    first_sites(alloc, cfg, Kind::Mux, cfg.muxes().len())
}

fn first_agents<C: Core>(alloc: Global, cfg: &Config) -> Result<Vec<Site<C>>, WorldFault>
    requires may { MayOpen C.may_open cfg.now }
    ensures places { IfOk result (λ sites. ArePlaces sites.items) }
    ensures sites { IfOk result (λ sites. map site_of sites.items ≡ (first_nodes C.opened cfg.now).agents) }
    ensures memory { IfErr result (λ e. e ≡ NoMemory) }
{
    cfg.keeps_rules();
    first_sites(alloc, cfg, Kind::Agent, cfg.agents().len())
}

/// All nodes of a configuration, opened on empty disks.
pub fn first_nodes<C: Core>(alloc: Global, cfg: &Config) -> Result<Nodes<C>, WorldFault>
    requires may { MayOpen C.may_open cfg.now }
    ensures are { IfOk result AreNodes }
    ensures first { IfOk result (λ nodes. nodes_of nodes ≡ first_nodes C.opened cfg.now) }
    ensures memory { IfErr result (λ e. e ≡ NoMemory) }
{
    Ok(Nodes {
        replicas: first_replicas(alloc, cfg)?,
        muxes: first_muxes(alloc, cfg)?,
        agents: first_agents(alloc, cfg)?,
    })
}
