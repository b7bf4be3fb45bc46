ghost use Rattle.std.specs.Prelude.{◌≡◌, [], ◌∷◌, ◌++◌, IfOk, OnOk, map};
ghost use Rattle.std.specs.List.{flat_map};
ghost use Rattle.std.specs.Map.{lookup};
ghost use Rattle.vip_config.specs.Serving.{service_for};
ghost use Rattle.vip_config.specs.Ways.{FindsAs, all_services, endpoint_services, same_service, service_by};
ghost use Rattle.vip_config.specs.declared.services.Service as kinds;

use crate::parts::VipConf;
use config_text::{Endpoint, Member};
use indexmap::IndexMap;
use std::alloc::Global;
use wire_core::{FlowKey, Ip4, NoMemory, Proto};

/// A machine that serves a port of a VIP.
#[derive(Clone, Copy, Debug, PartialEq, Eq, Hash)]
pub struct Service {
    pub vip: Ip4,
    pub proto: Proto,
    pub port: u16,
    pub machine: Ip4,
}

/// Two are the same where their parts are.
fn services_compare()
    ensures { (a b : kinds.Service) → ⟦<Service as PartialEq>⟧.eq a b ≡ same_service a b }
{}

/// Adds a machine as a member of an endpoint, unless it serves that port of the VIP already.
fn add(index: &mut IndexMap<Service, Member>, service: Service, m: Member) -> Result<(), NoMemory>
    ensures { OnOk result (FindsAs same_service index.new.entries (index.old.entries ++ (service, m) ∷ [])) }
{
    services_compare();
    if index.contains_key(&service) {
        return Ok(());
    }
    index.insert(service, m)?;
    Ok(())
}

fn add_members(
    index: &mut IndexMap<Service, Member>,
    vip: Ip4,
    endpoint: &Endpoint,
) -> Result<(), NoMemory>
    ensures { OnOk result (FindsAs same_service index.new.entries
        (index.old.entries ++ endpoint_services vip endpoint.now)) }
{
    for member in endpoint.machines.as_slice() {
        let service = Service {
            vip,
            proto: endpoint.proto,
            port: endpoint.port,
            machine: member.address,
        };
        add(index, service, *member)?;
    }
    Ok(())
}

fn add_endpoints(
    index: &mut IndexMap<Service, Member>,
    vip: Ip4,
    endpoints: &[Endpoint],
) -> Result<(), NoMemory>
    ensures { OnOk result (FindsAs same_service index.new.entries
        (index.old.entries ++ flat_map (endpoint_services vip) endpoints.now)) }
{
    for endpoint in endpoints {
        add_members(index, vip, endpoint)?;
    }
    Ok(())
}

/// What each machine serves. The cost is linear in the members of endpoints.
pub fn index_services(
    alloc: Global,
    vips: &[VipConf],
) -> Result<IndexMap<Service, Member>, NoMemory>
    ensures { IfOk result (λ index. FindsAs same_service index.entries (all_services vips.now)) }
{
    let mut index = IndexMap::new(alloc);
    for vip in vips {
        add_endpoints(&mut index, vip.address, vip.endpoints.as_slice())?;
    }
    Ok(index)
}

/// The machine as one that serves the port that packets with this key are for.
pub fn find_member(index: &IndexMap<Service, Member>, key: &FlowKey, machine: Ip4) -> Option<Member>
    ensures { result ≡ lookup (same_service (service_for key.now machine)) index.now.entries }
{
    services_compare();
    let service = Service {
        vip: key.dst,
        proto: key.proto,
        port: key.dport,
        machine,
    };
    index.get(&service).copied()
}
