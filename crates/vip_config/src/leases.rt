ghost use Rattle.std.specs.Prelude.{◌≡◌, ◌++◌, map, IfOk, OnOk};
ghost use Rattle.vip_config.specs.Leases.{all_machine_rules, machine_rule, machine_rules, rules_of};
ghost use Rattle.vip_config.specs.Leases.{taken_ports, vip_rule};

use crate::parts::{ConfigParts, VipConf};
use config_text::Endpoint;
use indexmap::IndexMap;
use std::alloc::Global;
use wire_core::{
    Ip4, Items, LeaseRules, MachineRule, MachineRuleList, NoMemory, PortList, VipRule, VipRuleList,
};

fn take_ports(alloc: Global, endpoints: &[Endpoint]) -> Result<PortList, NoMemory>
    ensures { IfOk result (λ ports. ports ≡ taken_ports endpoints.now) }
{
    let mut ports = Vec::new(alloc);
    for endpoint in endpoints {
        ports.push(endpoint.port)?;
    }
    Ok(Items::from_vec(ports))
}

fn make_vip_rule(alloc: Global, vip: &VipConf) -> Result<VipRule, NoMemory>
    ensures { IfOk result (λ rule. rule ≡ vip_rule vip.now) }
{
    Ok(VipRule {
        vip: vip.address,
        low: vip.low,
        high: vip.high,
        taken: take_ports(alloc, vip.endpoints.as_slice())?,
    })
}

fn make_vip_rules(alloc: Global, vips: &[VipConf]) -> Result<VipRuleList, NoMemory>
    ensures { IfOk result (λ rules. rules ≡ map vip_rule vips.now) }
{
    let mut rules = Vec::new(alloc);
    for vip in vips {
        rules.push(make_vip_rule(alloc, vip)?)?;
    }
    Ok(Items::from_vec(rules))
}

/// The rule of a machine whose connections leave from this VIP.
fn make_machine_rule(machines: &IndexMap<Ip4, u16>, vip: Ip4, machine: Ip4) -> MachineRule
    ensures { result ≡ machine_rule machines.now.entries vip machine }
{
    let agent = machines.get(&machine).copied().unwrap_or(0);
    MachineRule {
        machine,
        agent,
        vip,
    }
}

fn add_machine_rules(
    rules: &mut Vec<MachineRule>,
    machines: &IndexMap<Ip4, u16>,
    vip: &VipConf,
) -> Result<(), NoMemory>
    ensures { OnOk result (rules.new.items ≡ rules.old.items ++ machine_rules machines.now.entries vip.now) }
{
    for machine in vip.snat.as_slice() {
        rules.push(make_machine_rule(machines, vip.address, *machine))?;
    }
    Ok(())
}

fn make_machine_rules(
    alloc: Global,
    machines: &IndexMap<Ip4, u16>,
    vips: &[VipConf],
) -> Result<MachineRuleList, NoMemory>
    ensures { IfOk result (λ rules. rules ≡ all_machine_rules machines.now.entries vips.now) }
{
    let mut rules = Vec::new(alloc);
    for vip in vips {
        add_machine_rules(&mut rules, machines, vip)?;
    }
    Ok(Items::from_vec(rules))
}

/// The rules of leasing.
pub fn make_rules(
    alloc: Global,
    parts: &ConfigParts,
    machines: &IndexMap<Ip4, u16>,
) -> Result<LeaseRules, NoMemory>
    ensures { IfOk result (λ rules. rules ≡ rules_of machines.now.entries parts.now) }
{
    Ok(LeaseRules {
        vips: make_vip_rules(alloc, parts.vips.as_slice())?,
        machines: make_machine_rules(alloc, machines, parts.vips.as_slice())?,
        limit: parts.limit,
    })
}
