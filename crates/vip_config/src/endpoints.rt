ghost use Rattle.std.specs.Prelude.{◌≡◌, [], OnOk};
ghost use Rattle.vip_config.specs.Claims.{Tells, all_claimed, claim, claimed, claims_of, first_broken};
ghost use Rattle.vip_config.specs.Endpoints.{endpoint_claims, member_claims, same_endpoint_key, vip_endpoint_claims};
ghost use Rattle.vip_config.specs.declared.endpoints.EndpointKey as keys;

use crate::broken::Broken;
use crate::place::Place;
use crate::walk::Walk;
use config_text::{Endpoint, Member, VipText};
use indexmap::IndexMap;
use std::alloc::Global;
use wire_core::{Ip4, NoMemory, Proto};

/// What may stand once among the endpoints.
#[derive(Clone, Copy, Debug, PartialEq, Eq, Hash)]
pub enum EndpointKey {
    /// A protocol and a port of a VIP, by the VIP's number.
    Port {
        vip: usize,
        proto: Proto,
        port: u16,
    },
    /// A protocol and a port of a machine.
    MachinePort {
        proto: Proto,
        address: Ip4,
        port: u16,
    },
    /// A machine of an endpoint, by the numbers of VIP and endpoint.
    Machine {
        vip: usize,
        endpoint: usize,
        address: Ip4,
    },
}

/// Two keys are the same where they are of one kind and their parts are.
fn keys_compare()
    ensures { (a b : keys.EndpointKey) → ⟦<EndpointKey as PartialEq>⟧.eq a b ≡ same_endpoint_key a b }
{}

/// The endpoint at `vips[vip].endpoints[endpoint]`.
#[derive(Clone, Copy)]
struct At {
    vip: usize,
    endpoint: usize,
    proto: Proto,
}

fn claim(
    walk: &mut Walk<EndpointKey, ()>,
    place: Place,
    key: EndpointKey,
    fits: bool,
) -> Result<(), NoMemory>
    ensures { OnOk result (walk.new ≡ claimed same_endpoint_key walk.old (claim place key tt fits)) }
{
    keys_compare();
    walk.claim(place, key, (), fits)?;
    Ok(())
}

fn claim_member(
    walk: &mut Walk<EndpointKey, ()>,
    machines: &IndexMap<Ip4, u16>,
    at: At,
    k: usize,
    member: Member,
) -> Result<(), NoMemory>
    ensures { OnOk result (walk.new
        ≡ all_claimed same_endpoint_key walk.old
        (member_claims machines.now.entries at.vip at.endpoint at.proto k member)) }
{
    let At {
        vip,
        endpoint,
        proto,
    } = at;
    let Member { address, port } = member;
    let key = EndpointKey::MachinePort {
        proto,
        address,
        port,
    };
    claim(walk, Place::Member(vip, endpoint, k), key, true)?;
    let key = EndpointKey::Machine {
        vip,
        endpoint,
        address,
    };
    let fits = machines.contains_key(&address);
    claim(walk, Place::MemberAddress(vip, endpoint, k), key, fits)?;
    Ok(())
}

fn claim_members(
    walk: &mut Walk<EndpointKey, ()>,
    machines: &IndexMap<Ip4, u16>,
    at: At,
    members: &[Member],
) -> Result<(), NoMemory>
    ensures { OnOk result (walk.new
        ≡ all_claimed same_endpoint_key walk.old
        (claims_of (member_claims machines.now.entries at.vip at.endpoint at.proto) 0 members.now)) }
{
    for (k, member) in members.iter().enumerate() {
        claim_member(walk, machines, at, k, *member)?;
    }
    Ok(())
}

fn claim_endpoint(
    walk: &mut Walk<EndpointKey, ()>,
    machines: &IndexMap<Ip4, u16>,
    vip: usize,
    j: usize,
    endpoint: &Endpoint,
) -> Result<(), NoMemory>
    ensures { OnOk result (walk.new
        ≡ all_claimed same_endpoint_key walk.old (endpoint_claims machines.now.entries vip j endpoint.now)) }
{
    let Endpoint { proto, port, .. } = *endpoint;
    let key = EndpointKey::Port { vip, proto, port };
    claim(walk, Place::Endpoint(vip, j), key, true)?;
    let at = At {
        vip,
        endpoint: j,
        proto,
    };
    claim_members(walk, machines, at, endpoint.machines.as_slice())
}

fn claim_endpoints(
    walk: &mut Walk<EndpointKey, ()>,
    machines: &IndexMap<Ip4, u16>,
    vip: usize,
    endpoints: &[Endpoint],
) -> Result<(), NoMemory>
    ensures { OnOk result (walk.new
        ≡ all_claimed same_endpoint_key walk.old
        (claims_of (endpoint_claims machines.now.entries vip) 0 endpoints.now)) }
{
    for (j, endpoint) in endpoints.iter().enumerate() {
        claim_endpoint(walk, machines, vip, j, endpoint)?;
    }
    Ok(())
}

fn claim_vips(
    walk: &mut Walk<EndpointKey, ()>,
    machines: &IndexMap<Ip4, u16>,
    vips: &[VipText],
) -> Result<(), NoMemory>
    ensures { OnOk result (walk.new
        ≡ all_claimed same_endpoint_key walk.old (claims_of (vip_endpoint_claims machines.now.entries) 0 vips.now)) }
{
    for (i, vip) in vips.iter().enumerate() {
        claim_endpoints(walk, machines, i, vip.endpoints.as_slice())?;
    }
    Ok(())
}

/// Within a VIP no two endpoints have the same protocol and port. Each endpoint's machine is configured and stands once
/// in that endpoint. No two endpoint machines over all have the same protocol, address and port.
pub fn check_endpoints(
    alloc: Global,
    machines: &IndexMap<Ip4, u16>,
    vips: &[VipText],
) -> Result<(), Broken>
    ensures { Tells (first_broken same_endpoint_key []
        (claims_of (vip_endpoint_claims machines.now.entries) 0 vips.now)) result }
{
    let mut walk = Walk::new(alloc);
    claim_vips(&mut walk, machines, vips)?;
    walk.check()
}
