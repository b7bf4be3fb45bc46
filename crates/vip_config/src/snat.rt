ghost use Rattle.std.specs.Prelude.{◌≡◌, [], OnOk};
ghost use Rattle.vip_config.specs.Claims.{Tells, all_claimed, claims_of, first_broken};
ghost use Rattle.vip_config.specs.Snat.{snat_claims, vip_snat_claims};
ghost use Rattle.wire_core.specs.Same.{same_ip};

use crate::broken::Broken;
use crate::place::Place;
use crate::walk::Walk;
use config_text::VipText;
use indexmap::IndexMap;
use std::alloc::Global;
use wire_core::{Ip4, NoMemory};

fn claim_snat(
    walk: &mut Walk<Ip4, ()>,
    machines: &IndexMap<Ip4, u16>,
    vip: usize,
    snat: &[Ip4],
) -> Result<(), NoMemory>
    ensures { OnOk result (walk.new
        ≡ all_claimed same_ip walk.old (claims_of (snat_claims machines.now.entries vip) 0 snat.now)) }
{
    for (j, address) in snat.iter().enumerate() {
        let fits = machines.contains_key(address);
        walk.claim(Place::Snat(vip, j), *address, (), fits)?;
    }
    Ok(())
}

fn claim_vips(
    walk: &mut Walk<Ip4, ()>,
    machines: &IndexMap<Ip4, u16>,
    vips: &[VipText],
) -> Result<(), NoMemory>
    ensures { OnOk result (walk.new
        ≡ all_claimed same_ip walk.old (claims_of (vip_snat_claims machines.now.entries) 0 vips.now)) }
{
    for (i, vip) in vips.iter().enumerate() {
        claim_snat(walk, machines, i, vip.snat.as_slice())?;
    }
    Ok(())
}

/// Each `snat` address is a machine's, and stands once over all the VIPs.
pub fn check_snat(
    alloc: Global,
    machines: &IndexMap<Ip4, u16>,
    vips: &[VipText],
) -> Result<(), Broken>
    ensures { Tells (first_broken same_ip []
        (claims_of (vip_snat_claims machines.now.entries) 0 vips.now)) result }
{
    let mut walk = Walk::new(alloc);
    claim_vips(&mut walk, machines, vips)?;
    walk.check()
}
