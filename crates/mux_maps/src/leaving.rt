ghost use Rattle.std.specs.Prelude.{◌≡◌, ◌||◌, ◌&&◌, [], IfOk, OnOk};
ghost use Rattle.std.specs.List.{list_any};
ghost use Rattle.vip_config.specs.Serving.{has_snat};
ghost use Rattle.mux_maps.specs.Entries.{same_pair};
ghost use Rattle.mux_maps.specs.declared.leaving.Pair as kinds;
ghost use Rattle.wire_core.specs.Same.{same_ip};

use indexmap::IndexSet;
use std::alloc::Global;
use std::marker::Model;
use vip_config::VipConf;
use wire_core::{Ip4, NoMemory};

/// A VIP and a machine.
#[derive(Clone, Copy, Debug, PartialEq, Eq, Hash)]
pub struct Pair {
    pub vip: Ip4,
    pub machine: Ip4,
}

/// Each VIP with the machines whose connections leave from it.
#[derive(Drop)]
pub struct Leaving {
    pairs: IndexSet<Pair>,
}

impl Model for Leaving {
    ghost use Rattle.std.specs.Prelude.{List};
    ghost use Rattle.mux_maps.specs.declared.leaving.Pair.{Pair};

    ghost Value = { List Pair };

    ghost view = { λ s. s.pairs.keys };
}

/// Two pairs are the same where both addresses are.
fn pairs_compare()
    ensures { (a b : kinds.Pair) → ⟦<Pair as PartialEq>⟧.eq a b ≡ same_pair a b }
{}

fn nothing(alloc: Global) -> IndexSet<Pair>
    ensures { result.keys ≡ [] }
{
    IndexSet::new(alloc)
}

fn has(pairs: &IndexSet<Pair>, pair: Pair) -> bool
    ensures { result ≡ list_any (same_pair pair) pairs.now.keys }
{
    pairs_compare();
    pairs.contains(&pair)
}

fn add(pairs: &mut IndexSet<Pair>, pair: Pair) -> Result<(), NoMemory>
    ensures { OnOk result ((x : kinds.Pair) → list_any (same_pair x) pairs.new.keys
        ≡ (list_any (same_pair x) pairs.old.keys || same_pair pair x)) }
{
    pairs_compare();
    pairs.insert(pair)?;
    Ok(())
}

fn add_machines(pairs: &mut IndexSet<Pair>, vip: Ip4, machines: &[Ip4]) -> Result<(), NoMemory>
    ensures { OnOk result ((x : kinds.Pair) → list_any (same_pair x) pairs.new.keys
        ≡ (list_any (same_pair x) pairs.old.keys || (same_ip vip x.vip && list_any (same_ip x.machine) machines.now))) }
{
    for machine in machines {
        add(
            pairs,
            Pair {
                vip,
                machine: *machine,
            },
        )?;
    }
    Ok(())
}

impl Leaving {
    /// The machines in the `snat` of each VIP of a configuration.
    pub fn new(alloc: Global, vips: &[VipConf]) -> Result<Leaving, NoMemory>
        ensures { IfOk result (λ s. (x : kinds.Pair) → list_any (same_pair x) s ≡ has_snat vips.now x.vip x.machine) }
    {
        let mut pairs = nothing(alloc);
        for vip in vips {
            add_machines(&mut pairs, vip.address, vip.snat.as_slice())?;
        }
        Ok(Leaving { pairs })
    }

    /// Whether the machine's connections leave from the VIP. A look-up by a hash.
    pub fn has(&self, vip: Ip4, machine: Ip4) -> bool
        ensures { result ≡ list_any (same_pair (record { vip = vip; machine = machine })) self.now }
    {
        has(&self.pairs, Pair { vip, machine })
    }
}
