// All nodes of a world, by their roles.
ghost use Rattle.std.specs.Prelude.{◌≡◌, ◌<◌, length, map, is_some, fold, IfSome, OnOk, IfOk};
ghost use Rattle.node_spec.specs.Bodies.{entries_of};
ghost use Rattle.node_spec.specs.Steps.{input_of};
ghost use Rattle.world_nodes.specs.Disks.{ArePlaces, IsLent, site_of};
ghost use Rattle.world_nodes.specs.Overflows.{FullsBy, cut_node_overflow, cut_overflow_at, cut_restart_node_overflow, cut_restart_overflow_at, restart_node_overflow, restart_overflow_at, step_node_overflow, step_overflow_at};
ghost use Rattle.world_nodes.specs.Sites.{deciding};
ghost use Rattle.world_nodes.specs.Nodes.{AreNodes, crash_at, crash_node, cut_at, cut_node, cut_restart_at, cut_restart_node, longer, longest, node_at, nodes_of, restart_at, restart_node, site_at, step_at, step_node};

use crate::fault::WorldFault;
use crate::site::{Site, bodies, crash, cut, cut_restart, node, restart, step};
use crate::stepped::Stepped;
use disk_model::MemDisk;
use node_core::{Core, Node};
use std::alloc::Global;
use vip_config::Config;
use wire_core::{BodyList, Input, Items, NoMemory, NodeId};

/// The nodes of each role by their numbers.
#[derive(Drop)]
pub struct Nodes<C: Core> {
    pub(crate) replicas: Vec<Site<C>>,
    pub(crate) muxes: Vec<Site<C>>,
    pub(crate) agents: Vec<Site<C>>,
}

// ---- by their places

#[tactic(auto, using(crate::proofs::Lists::same_length, crate::proofs::Lists::read_site, crate::proofs::Lists::put_site, crate::proofs::Lists::places_at, crate::proofs::Lists::places_put))]
fn step_at<C: Core>(
    alloc: Global,
    sites: &mut [Site<C>],
    i: usize,
    input: &Input<'_>,
) -> Result<Option<Stepped>, WorldFault>
    requires places { ArePlaces sites.old }
    ensures places { OnOk result (ArePlaces sites.new) }
    ensures step { IfOk result (λ r. (map site_of sites.new, r)
        ≡ step_at (deciding C.step C.written) (map site_of sites.old) i (input_of input.now)) }
    ensures full { FullsBy (step_overflow_at (deciding C.step C.written) (map site_of sites.old) i (input_of input.now))
        result }
{
    if i < sites.len() {
        step(alloc, &mut sites[i], input)
    } else {
        Ok(None)
    }
}

#[tactic(auto, using(crate::proofs::Lists::same_length, crate::proofs::Lists::read_site, crate::proofs::Lists::put_site, crate::proofs::Lists::places_at, crate::proofs::Lists::places_put))]
fn crash_at<C: Core>(sites: &mut [Site<C>], i: usize) -> bool
    requires places { ArePlaces sites.old }
    ensures places { ArePlaces sites.new }
    ensures crash { (map site_of sites.new, result) ≡ crash_at (map site_of sites.old) i }
{
    if i < sites.len() {
        crash(&mut sites[i])
    } else {
        false
    }
}

#[tactic(auto, using(crate::proofs::Lists::same_length, crate::proofs::Lists::read_site, crate::proofs::Lists::put_site, crate::proofs::Lists::places_at, crate::proofs::Lists::places_put))]
fn restart_at<C: Core>(
    alloc: Global,
    cfg: &Config,
    who: NodeId,
    sites: &mut [Site<C>],
    i: usize,
) -> Result<bool, WorldFault>
    requires may { C.may_open cfg.now who }
    requires places { ArePlaces sites.old }
    ensures places { OnOk result (ArePlaces sites.new) }
    ensures restart { IfOk result (λ r. (map site_of sites.new, r)
        ≡ restart_at C.opened cfg.now who (map site_of sites.old) i) }
    ensures full { FullsBy (restart_overflow_at who (map site_of sites.old) i) result }
{
    if i < sites.len() {
        restart(alloc, cfg, who, &mut sites[i])
    } else {
        Ok(false)
    }
}

#[tactic(auto, using(crate::proofs::Lists::same_length, crate::proofs::Lists::read_site, crate::proofs::Lists::put_site, crate::proofs::Lists::places_at, crate::proofs::Lists::places_put))]
fn cut_at<C: Core>(
    alloc: Global,
    sites: &mut [Site<C>],
    i: usize,
    input: &Input<'_>,
    keep: bool,
) -> Result<Option<Stepped>, WorldFault>
    requires places { ArePlaces sites.old }
    ensures places { OnOk result (ArePlaces sites.new) }
    ensures cut { IfOk result (λ r. (map site_of sites.new, r)
        ≡ cut_at (deciding C.step C.written) (map site_of sites.old) i (input_of input.now) keep) }
    ensures full { FullsBy (cut_overflow_at (deciding C.step C.written) (map site_of sites.old) i (input_of input.now)
        keep) result }
{
    if i < sites.len() {
        cut(alloc, &mut sites[i], input, keep)
    } else {
        Ok(None)
    }
}

#[tactic(auto, using(crate::proofs::Lists::same_length, crate::proofs::Lists::read_site, crate::proofs::Lists::put_site, crate::proofs::Lists::places_at, crate::proofs::Lists::places_put))]
fn cut_restart_at<C: Core>(
    alloc: Global,
    cfg: &Config,
    who: NodeId,
    sites: &mut [Site<C>],
    i: usize,
    keep: bool,
) -> Result<bool, WorldFault>
    requires may { C.may_open cfg.now who }
    requires places { ArePlaces sites.old }
    ensures places { OnOk result (ArePlaces sites.new) }
    ensures cut { IfOk result (λ r. (map site_of sites.new, r)
        ≡ cut_restart_at C.opened cfg.now who (map site_of sites.old) i keep) }
    ensures full { FullsBy (cut_restart_overflow_at who (map site_of sites.old) i keep) result }
{
    if i < sites.len() {
        cut_restart(alloc, cfg, who, &mut sites[i], keep)
    } else {
        Ok(false)
    }
}

#[tactic(auto, using(crate::proofs::Lists::same_length, crate::proofs::Lists::read_site, crate::proofs::Lists::places_at, crate::proofs::Lists::none_past))]
fn lent_at<C: Core>(sites: &[Site<C>], i: usize) -> Option<&Node<C, MemDisk>>
    requires places { ArePlaces sites.now }
    ensures lent { IfSome result (λ node. IsLent (site_at (map site_of sites.now) i) node.now) }
    ensures up { is_some result ≡ is_some (site_at (map site_of sites.now) i).up }
{
    if i < sites.len() {
        node(&sites[i])
    } else {
        None
    }
}

#[tactic(auto, using(crate::proofs::Lists::same_length, crate::proofs::Lists::read_site, crate::proofs::Lists::places_at, crate::proofs::Lists::no_entry_past))]
fn bodies_at<C: Core>(alloc: Global, sites: &[Site<C>], i: usize) -> Result<BodyList, NoMemory>
    requires places { ArePlaces sites.now }
    ensures { IfOk result (λ bodies. entries_of bodies ≡ (site_at (map site_of sites.now) i).entries) }
{
    if i < sites.len() {
        bodies(alloc, &sites[i])
    } else {
        Ok(Items::new(alloc))
    }
}

#[tactic(auto, using(crate::proofs::Lists::same_length, crate::proofs::Lists::read_site, crate::proofs::Lists::none_learned_past))]
fn learned_at<C: Core>(sites: &[Site<C>], i: usize) -> u64
    ensures { result ≡ (site_at (map site_of sites.now) i).learned }
{
    if i < sites.len() { sites[i].learned } else { 0 }
}

// ---- by their names

/// An input to a node. `None` where it is down or isn't there.
pub fn step_node<C: Core>(
    alloc: Global,
    nodes: &mut Nodes<C>,
    who: NodeId,
    input: &Input<'_>,
) -> Result<Option<Stepped>, WorldFault>
    requires nodes { AreNodes nodes.old }
    ensures nodes { OnOk result (AreNodes nodes.new) }
    ensures step { IfOk result (λ r. (nodes_of nodes.new, r)
        ≡ step_node (deciding C.step C.written) (nodes_of nodes.old) who (input_of input.now)) }
    ensures full { FullsBy (step_node_overflow (deciding C.step C.written) (nodes_of nodes.old) who (input_of input.now))
        result }
{
    match who {
        NodeId::Replica(i) => step_at(alloc, &mut nodes.replicas, usize::from(i), input),
        NodeId::Mux(i) => step_at(alloc, &mut nodes.muxes, usize::from(i), input),
        NodeId::Agent(i) => step_at(alloc, &mut nodes.agents, usize::from(i), input),
    }
}

/// A crash; and whether the node was up.
pub fn crash_node<C: Core>(nodes: &mut Nodes<C>, who: NodeId) -> bool
    requires nodes { AreNodes nodes.old }
    ensures nodes { AreNodes nodes.new }
    ensures crash { (nodes_of nodes.new, result) ≡ crash_node (nodes_of nodes.old) who }
{
    match who {
        NodeId::Replica(i) => crash_at(&mut nodes.replicas, usize::from(i)),
        NodeId::Mux(i) => crash_at(&mut nodes.muxes, usize::from(i)),
        NodeId::Agent(i) => crash_at(&mut nodes.agents, usize::from(i)),
    }
}

/// An opening of a configured node; and whether it was down.
pub fn restart_node<C: Core>(
    alloc: Global,
    cfg: &Config,
    nodes: &mut Nodes<C>,
    who: NodeId,
) -> Result<bool, WorldFault>
    requires may { C.may_open cfg.now who }
    requires nodes { AreNodes nodes.old }
    ensures nodes { OnOk result (AreNodes nodes.new) }
    ensures restart { IfOk result (λ r. (nodes_of nodes.new, r)
        ≡ restart_node C.opened cfg.now (nodes_of nodes.old) who) }
    ensures full { FullsBy (restart_node_overflow (nodes_of nodes.old) who) result }
{
    match who {
        NodeId::Replica(i) => restart_at(alloc, cfg, who, &mut nodes.replicas, usize::from(i)),
        NodeId::Mux(i) => restart_at(alloc, cfg, who, &mut nodes.muxes, usize::from(i)),
        NodeId::Agent(i) => restart_at(alloc, cfg, who, &mut nodes.agents, usize::from(i)),
    }
}

/// A step that a crash cuts short: its entry is kept or lost, and nothing is sent. `None` where the node was down.
pub fn cut_node<C: Core>(
    alloc: Global,
    nodes: &mut Nodes<C>,
    who: NodeId,
    input: &Input<'_>,
    keep: bool,
) -> Result<Option<Stepped>, WorldFault>
    requires nodes { AreNodes nodes.old }
    ensures nodes { OnOk result (AreNodes nodes.new) }
    ensures cut { IfOk result (λ r. (nodes_of nodes.new, r)
        ≡ cut_node (deciding C.step C.written) (nodes_of nodes.old) who (input_of input.now) keep) }
    ensures full { FullsBy (cut_node_overflow (deciding C.step C.written) (nodes_of nodes.old) who (input_of input.now)
        keep) result }
{
    match who {
        NodeId::Replica(i) => cut_at(alloc, &mut nodes.replicas, usize::from(i), input, keep),
        NodeId::Mux(i) => cut_at(alloc, &mut nodes.muxes, usize::from(i), input, keep),
        NodeId::Agent(i) => cut_at(alloc, &mut nodes.agents, usize::from(i), input, keep),
    }
}

/// An opening of a configured node that a crash cuts short; and whether the node was down.
pub fn cut_restart_node<C: Core>(
    alloc: Global,
    cfg: &Config,
    nodes: &mut Nodes<C>,
    who: NodeId,
    keep: bool,
) -> Result<bool, WorldFault>
    requires may { C.may_open cfg.now who }
    requires nodes { AreNodes nodes.old }
    ensures nodes { OnOk result (AreNodes nodes.new) }
    ensures cut { IfOk result (λ r. (nodes_of nodes.new, r)
        ≡ cut_restart_node C.opened cfg.now (nodes_of nodes.old) who keep) }
    ensures full { FullsBy (cut_restart_node_overflow (nodes_of nodes.old) who keep) result }
{
    match who {
        NodeId::Replica(i) => {
            cut_restart_at(alloc, cfg, who, &mut nodes.replicas, usize::from(i), keep)
        }
        NodeId::Mux(i) => cut_restart_at(alloc, cfg, who, &mut nodes.muxes, usize::from(i), keep),
        NodeId::Agent(i) => {
            cut_restart_at(alloc, cfg, who, &mut nodes.agents, usize::from(i), keep)
        }
    }
}

/// The greatest length of a replica's log.
pub fn longest<C: Core>(nodes: &Nodes<C>) -> u64
    ensures { result ≡ longest (nodes_of nodes.now) }
{
    let mut most = 0;
    for site in nodes.replicas.as_slice() {
        most = longer(most, site);
    }
    most
}

// The greater of a length and of that of a node's log.
fn longer<C: Core>(most: u64, site: &Site<C>) -> u64
    ensures { result ≡ longer most (site_of site.now) }
{
    most.max(site.learned)
}

/// Lends a node. `None` where it is down or isn't there.
pub fn lent<C: Core>(nodes: &Nodes<C>, who: NodeId) -> Option<&Node<C, MemDisk>>
    requires nodes { AreNodes nodes.now }
    ensures lent { IfSome result (λ node. IsLent (node_at (nodes_of nodes.now) who) node.now) }
    ensures up { is_some result ≡ is_some (node_at (nodes_of nodes.now) who).up }
{
    match who {
        NodeId::Replica(i) => lent_at(&nodes.replicas, usize::from(i)),
        NodeId::Mux(i) => lent_at(&nodes.muxes, usize::from(i)),
        NodeId::Agent(i) => lent_at(&nodes.agents, usize::from(i)),
    }
}

/// The bodies of the journal of a node, whether it is up or down: none where it isn't there. They are read off a copy of
/// its disk, which takes time and memory in all that was ever written to it.
pub fn bodies_of<C: Core>(
    alloc: Global,
    nodes: &Nodes<C>,
    who: NodeId,
) -> Result<BodyList, NoMemory>
    requires nodes { AreNodes nodes.now }
    ensures { IfOk result (λ bodies. entries_of bodies ≡ (node_at (nodes_of nodes.now) who).entries) }
{
    match who {
        NodeId::Replica(i) => bodies_at(alloc, &nodes.replicas, usize::from(i)),
        NodeId::Mux(i) => bodies_at(alloc, &nodes.muxes, usize::from(i)),
        NodeId::Agent(i) => bodies_at(alloc, &nodes.agents, usize::from(i)),
    }
}

/// How many values the log of a node has, whether it is up or down: 0 where it isn't there.
pub fn learned_by<C: Core>(nodes: &Nodes<C>, who: NodeId) -> u64
    ensures { result ≡ (node_at (nodes_of nodes.now) who).learned }
{
    match who {
        NodeId::Replica(i) => learned_at(&nodes.replicas, usize::from(i)),
        NodeId::Mux(i) => learned_at(&nodes.muxes, usize::from(i)),
        NodeId::Agent(i) => learned_at(&nodes.agents, usize::from(i)),
    }
}
