ghost use Rattle.std.specs.Prelude.{◌≡◌, IfOk};
ghost use Rattle.config_text.specs.Sizes.{IsSized};
ghost use Rattle.vip_config.specs.Claims.{Tells, owners_of};
ghost use Rattle.vip_config.specs.Configs.{broken_rule, broken_vip_rule};
ghost use Rattle.vip_config.specs.Machines.{machines_of};
ghost use Rattle.vip_config.specs.Sockets.{socket_claims};

use crate::broken::Broken;
use crate::endpoints::check_endpoints;
use crate::machines::index_machines;
use crate::snat::check_snat;
use crate::sockets::index_sockets;
use crate::vips::{check_addresses, check_ports};
use crate::who::Who;
use config_text::{Settings, VipText};
use indexmap::IndexMap;
use std::alloc::Global;
use wire_core::{Ip4, Socket};

/// Whose each socket is, and of which agent each machine.
#[derive(Drop)]
pub struct Index {
    pub sockets: IndexMap<Socket, Who>,
    pub machines: IndexMap<Ip4, u16>,
}

/// Tests the rules of VIPs in their order.
fn check_vips(alloc: Global, machines: &IndexMap<Ip4, u16>, vips: &[VipText]) -> Result<(), Broken>
    ensures { Tells (broken_vip_rule machines.now.entries vips.now) result }
{
    check_addresses(alloc, machines, vips)?;
    check_ports(vips)?;
    check_snat(alloc, machines, vips)?;
    check_endpoints(alloc, machines, vips)
}

/// Tests the rules in their order. The cost is linear in the members.
pub fn build_index(alloc: Global, settings: &Settings) -> Result<Index, Broken>
    requires { IsSized settings.now }
    ensures rules { Tells (broken_rule settings.now) result }
    ensures sockets { IfOk result (λ index. index.sockets.entries ≡ owners_of
        (socket_claims settings.now.router settings.now.replicas settings.now.muxes settings.now.agents)) }
    ensures machines { IfOk result (λ index. index.machines.entries ≡ machines_of settings.now.agents) }
{
    let agents = settings.agents.as_slice();
    let sockets = index_sockets(
        alloc,
        settings.router,
        settings.replicas.as_slice(),
        settings.muxes.as_slice(),
        agents,
    )?;
    let machines = index_machines(alloc, agents)?;
    check_vips(alloc, &machines, settings.vips.as_slice())?;
    Ok(Index { sockets, machines })
}
