ghost use Rattle.std.specs.Prelude.{◌≡◌, [], OnOk};
ghost use Rattle.vip_config.specs.Claims.{Tells, all_claimed, claims_of, first_broken};
ghost use Rattle.vip_config.specs.Vips.{first_wrong_port, is_high, is_low, vip_claims, wrong_port};
ghost use Rattle.wire_core.specs.Same.{same_ip};

use crate::broken::Broken;
use crate::place::Place;
use crate::walk::Walk;
use config_text::VipText;
use indexmap::IndexMap;
use std::alloc::Global;
use wire_core::{Ip4, NoMemory};

fn claim_vips(
    walk: &mut Walk<Ip4, ()>,
    machines: &IndexMap<Ip4, u16>,
    vips: &[VipText],
) -> Result<(), NoMemory>
    ensures { OnOk result (walk.new
        ≡ all_claimed same_ip walk.old (claims_of (vip_claims machines.now.entries) 0 vips.now)) }
{
    for (i, vip) in vips.iter().enumerate() {
        let fits = !machines.contains_key(&vip.address);
        walk.claim(Place::VipAddress(i), vip.address, (), fits)?;
    }
    Ok(())
}

/// No VIP's address is an earlier VIP's or a machine's.
pub fn check_addresses(
    alloc: Global,
    machines: &IndexMap<Ip4, u16>,
    vips: &[VipText],
) -> Result<(), Broken>
    ensures { Tells (first_broken same_ip [] (claims_of (vip_claims machines.now.entries) 0 vips.now)) result }
{
    let mut walk = Walk::new(alloc);
    claim_vips(&mut walk, machines, vips)?;
    walk.check()
}

/// Whether a VIP's ports may begin here.
fn is_low(low: u64) -> bool
    ensures { result ≡ is_low low }
{
    low % 8 == 0 && 1024 <= low && low <= 65528
}

/// Whether a VIP's ports that begin at `low` may end here.
fn is_high(low: u64, high: u64) -> bool
    ensures { result ≡ is_high low high }
{
    high <= 65535 && (high + 1) % 8 == 0 && low < high
}

fn wrong_port(i: usize, vip: &VipText) -> Option<Place>
    ensures { result ≡ wrong_port i vip.now }
{
    if !is_low(vip.low) {
        Some(Place::Low(i))
    } else if !is_high(vip.low, vip.high) {
        Some(Place::High(i))
    } else {
        None
    }
}

/// The first `low` or `high` that isn't as it must be, VIP by VIP.
fn first_wrong_port(vips: &[VipText]) -> Option<Place>
    ensures { result ≡ first_wrong_port 0 vips.now }
{
    for (i, vip) in vips.iter().enumerate() {
        let wrong = wrong_port(i, vip);
        if wrong.is_some() {
            return wrong;
        }
    }
    None
}

/// `low` is a multiple of 8 from 1024 to 65528, `high + 1` is one, and `low` is below `high`, which is at most 65535.
pub fn check_ports(vips: &[VipText]) -> Result<(), Broken>
    ensures { Tells (first_wrong_port 0 vips.now) result }
{
    match first_wrong_port(vips) {
        None => Ok(()),
        Some(place) => Err(Broken::At(place)),
    }
}
