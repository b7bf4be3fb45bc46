// What is seen of the agents that are up.
ghost use Rattle.std.specs.Prelude.{◌≡◌, ◌++◌, map, length, IfOk, OnOk};
ghost use Rattle.wire_core.specs.declared.node.NodeId.TheVariants as node;
ghost use Rattle.world_model.specs.Sound.{IsSound, world_of};
ghost use Rattle.world_nodes.specs.Nodes.{node_at};
ghost use Rattle.world_spec.specs.Views.{held_by};
ghost use Rattle.world_views.specs.Seen.{held_in, live_in, seen};
ghost use Rattle.world_views.specs.Views.{AreHeldOf, AreLiveOf};

use agent_spec::Connection;
use host_agent::Agent;
use node_core::Core;
use node_roles::Role;
use std::alloc::{AllocError, Global};
use wire_core::{Items, NoMemory, NodeId};
use world_model::World;
use world_spec::Held;

/// Held ranges, each with its machine.
pub type HeldList = Items<Held>;

/// Connections, each with all that its agent keeps of it.
pub type ConnectionList = Items<Connection>;

// How many agents there are.
fn count_agents(world: &World<Role>) -> u16
    ensures { result ≡ length (world_of world.now).cfg.agents }
{
    let cfg = world.config();
    cfg.keeps_rules();
    cfg.agents().len() as u16
}

// ---- held ranges

// The ranges of an agent, behind those before.
fn add_held(list: &mut Vec<Held>, agent: &Agent) -> Result<(), NoMemory>
    ensures { OnOk result (list.new.items ≡ list.old.items ++ map held_by agent.now.lists.traffic.ranges.held) }
{
    for i in 0..usize::MAX {
        let Some((n, range, machine)) = agent.held(i) else {
            return Ok(());
        };
        list.push(Held { range, n, machine })?;
    }
    Err(AllocError)
}

// The ranges of a node, if it is an agent that is up.
fn add_held_of(list: &mut Vec<Held>, world: &World<Role>, i: u16) -> Result<(), NoMemory>
    requires sound { IsSound ⟦<Role as Core>⟧.may_open world.now }
    ensures { OnOk result (list.new.items
        ≡ list.old.items ++ held_in (node_at (world_of world.now).nodes (node.Agent i)).up) }
{
    let Some(node) = world.node(NodeId::Agent(i)) else {
        return Ok(());
    };
    match node.core() {
        Role::Agent(agent) => add_held(list, agent),
        Role::Replica(_) | Role::Mux(_) => Ok(()),
    }
}

// The ranges of the first agents.
fn held_first(alloc: Global, world: &World<Role>, count: u16) -> Result<Vec<Held>, NoMemory>
    requires sound { IsSound ⟦<Role as Core>⟧.may_open world.now }
    ensures { IfOk result (λ list. list.items ≡ seen held_in (world_of world.now).nodes.agents count) }
{
    let mut list = Vec::new(alloc);
    for i in 0..count {
        add_held_of(&mut list, world, i)?;
    }
    Ok(list)
}

/// The ranges that the agents that are up hold: agents by number, each agent's by `n`. Costs a look at each of them.
pub fn held(alloc: Global, world: &World<Role>) -> Result<HeldList, NoMemory>
    requires sound { IsSound ⟦<Role as Core>⟧.may_open world.now }
    ensures { IfOk result (λ list. AreHeldOf (world_of world.now) list) }
{
    let list = held_first(alloc, world, count_agents(world))?;
    Ok(Items::from_vec(list))
}

// ---- connections

// The connections of an agent, behind those before.
fn add_live(list: &mut Vec<Connection>, agent: &Agent) -> Result<(), NoMemory>
    ensures { OnOk result (list.new.items ≡ list.old.items ++ agent.now.lists.traffic.conns) }
{
    for i in 0..usize::MAX {
        let Some(connection) = agent.connection(i) else {
            return Ok(());
        };
        list.push(connection)?;
    }
    Err(AllocError)
}

// The connections of a node, if it is an agent that is up.
fn add_live_of(list: &mut Vec<Connection>, world: &World<Role>, i: u16) -> Result<(), NoMemory>
    requires sound { IsSound ⟦<Role as Core>⟧.may_open world.now }
    ensures { OnOk result (list.new.items
        ≡ list.old.items ++ live_in (node_at (world_of world.now).nodes (node.Agent i)).up) }
{
    let Some(node) = world.node(NodeId::Agent(i)) else {
        return Ok(());
    };
    match node.core() {
        Role::Agent(agent) => add_live(list, agent),
        Role::Replica(_) | Role::Mux(_) => Ok(()),
    }
}

// The connections of the first agents.
fn live_first(alloc: Global, world: &World<Role>, count: u16) -> Result<Vec<Connection>, NoMemory>
    requires sound { IsSound ⟦<Role as Core>⟧.may_open world.now }
    ensures { IfOk result (λ list. list.items ≡ seen live_in (world_of world.now).nodes.agents count) }
{
    let mut list = Vec::new(alloc);
    for i in 0..count {
        add_live_of(&mut list, world, i)?;
    }
    Ok(list)
}

/// The connections of the agents that are up: agents by number, each agent's in the order of opening. Each is found by
/// a walk over those before it, so that the cost is the square of an agent's connections.
pub fn live(alloc: Global, world: &World<Role>) -> Result<ConnectionList, NoMemory>
    requires sound { IsSound ⟦<Role as Core>⟧.may_open world.now }
    ensures { IfOk result (λ list. AreLiveOf (world_of world.now) list) }
{
    let list = live_first(alloc, world, count_agents(world))?;
    Ok(Items::from_vec(list))
}
