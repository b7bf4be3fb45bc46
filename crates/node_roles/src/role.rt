ghost use Rattle.std.specs.Prelude.{IsSome};
ghost use Rattle.node_roles.specs.Roles.{opened, step, written};
ghost use Rattle.vip_config.specs.Queries.{socket_of};

use host_agent::Agent;
use manager_core::Manager;
use mux_core::Mux;
use node_core::{Core, Node};
use std::alloc::Global;
use vip_config::Config;
use wire_core::{BodyList, Input, NoMemory, NodeId, Step};

/// What decides in a node, by its role.
#[derive(Drop)]
pub enum Role {
    Replica(Manager),
    Mux(Mux),
    Agent(Agent),
}

/// A node of any role over its two disks.
pub type RoleNode<D> = Node<Role, D>;

impl Core for Role {
    ghost may_open = { λ cfg who. IsSome (socket_of cfg who) };

    ghost opened = { opened };

    ghost step = { step };

    ghost written = { written };

    /// A node that is configured, as it opens. The cost is linear in the configuration and in the bodies, and for a mux
    /// also in the VIPs times 8,192.
    #[tactic(auto, using(crate::proofs::Agents::same_entries, crate::proofs::Replicas::below_five))]
    fn recover(
        alloc: Global,
        cfg: &Config,
        who: NodeId,
        bodies: &BodyList,
    ) -> Result<Role, NoMemory> {
        match who {
            NodeId::Replica(index) => {
                cfg.keeps_rules();
                Ok(Role::Replica(Manager::recover(alloc, cfg, index, bodies)?))
            }
            NodeId::Mux(index) => Ok(Role::Mux(Mux::recover(alloc, cfg, index, bodies)?)),
            NodeId::Agent(index) => Ok(Role::Agent(Agent::recover(alloc, cfg, index, bodies)?)),
        }
    }

    /// One input, by the table of its role.
    #[tactic(auto, unfolding(node_spec::specs::Steps::turned), using(node_spec::proofs::Spelled::spells_spelled))]
    fn handle(&mut self, alloc: Global, input: &Input<'_>) -> Result<Step, NoMemory> {
        match self {
            Role::Replica(manager) => manager.handle(input),
            Role::Mux(mux) => mux.handle(alloc, input),
            Role::Agent(agent) => agent.handle(alloc, input),
        }
    }
}
