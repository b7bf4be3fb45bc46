ghost use Rattle.std.specs.Prelude.{◌≡◌, ◌||◌, [], IfOk, OnOk};
ghost use Rattle.std.specs.List.{list_any};
ghost use Rattle.vip_config.specs.Serving.{is_vip};
ghost use Rattle.wire_core.specs.declared.address.Ip4 as ips;
ghost use Rattle.wire_core.specs.Same.{same_ip};

use indexmap::IndexSet;
use std::alloc::Global;
use std::marker::Model;
use vip_config::VipConf;
use wire_core::{Ip4, NoMemory, equality_is_sameness};

/// The addresses of the VIPs.
#[derive(Drop)]
pub struct Vips {
    addresses: IndexSet<Ip4>,
}

impl Model for Vips {
    ghost use Rattle.std.specs.Prelude.{List};
    ghost use Rattle.wire_core.specs.declared.address.Ip4.{Ip4};

    ghost Value = { List Ip4 };

    ghost view = { λ v. v.addresses.keys };
}

fn nothing(alloc: Global) -> IndexSet<Ip4>
    ensures { result.keys ≡ [] }
{
    IndexSet::new(alloc)
}

fn has(addresses: &IndexSet<Ip4>, a: Ip4) -> bool
    ensures { result ≡ list_any (same_ip a) addresses.now.keys }
{
    equality_is_sameness();
    addresses.contains(&a)
}

fn add(addresses: &mut IndexSet<Ip4>, a: Ip4) -> Result<(), NoMemory>
    ensures { OnOk result ((x : ips.Ip4) → list_any (same_ip x) addresses.new.keys
        ≡ (list_any (same_ip x) addresses.old.keys || same_ip a x)) }
{
    equality_is_sameness();
    addresses.insert(a)?;
    Ok(())
}

impl Vips {
    /// The VIPs of a configuration.
    pub fn new(alloc: Global, vips: &[VipConf]) -> Result<Vips, NoMemory>
        ensures { IfOk result (λ v. (x : ips.Ip4) → list_any (same_ip x) v ≡ is_vip vips.now x) }
    {
        let mut addresses = nothing(alloc);
        for vip in vips {
            add(&mut addresses, vip.address)?;
        }
        Ok(Vips { addresses })
    }

    /// Whether the address is a VIP. A look-up by a hash.
    pub fn has(&self, a: Ip4) -> bool
        ensures { result ≡ list_any (same_ip a) self.now }
    {
        has(&self.addresses, a)
    }
}
