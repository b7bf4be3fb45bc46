ghost use Rattle.std.specs.Prelude.{◌≡◌, Err, None, Some, IfOk, map};
ghost use Rattle.config_text.specs.Faults.{Fails, Gives, field};
ghost use Rattle.config_text.specs.Bounds.{IsBounded};
ghost use Rattle.config_text.specs.Sizes.{IsSized};
ghost use Rattle.vip_config.specs.Claims.{owners_of};
ghost use Rattle.vip_config.specs.Configs.{broken_rule, checked, config_of, parts_of};
ghost use Rattle.vip_config.specs.Leases.{lease_rules_of, ranges_of};
ghost use Rattle.vip_config.specs.Machines.{agent_of, machines_of};
ghost use Rattle.vip_config.specs.Places.{path};
ghost use Rattle.vip_config.specs.Queries.{KnowsOwners, counts_of, socket_of, who_of};
ghost use Rattle.vip_config.specs.Rules.{HasBounds, HasLengths, KeepsRules, Once};
ghost use Rattle.vip_config.specs.Sockets.{socket_claims};
ghost use Rattle.vip_config.specs.Serving.{attach_of, has_snat, member_at, snat_vip};
ghost use Rattle.vip_config.specs.Vips.{HasPorts};
ghost use Rattle.vip_config.specs.declared.parts.ConfigParts as parts;
ghost use Rattle.wire_core.specs.Members.{Each};

use crate::broken::Broken;
use crate::copies::{copy_index, copy_parts, copy_ways};
use crate::counts::{Counts, count_ranges};
use crate::index::{Index, build_index};
use crate::leases::make_rules;
use crate::narrow::narrow_vips;
use crate::parts::{ConfigParts, VipConf};
use crate::place::Place;
use crate::services::find_member;
use crate::ways::{Ways, index_ways};
use crate::who::Who;
use config_text::{AgentConf, ConfigFault, Member, Settings, Timers};
use std::alloc::Global;
use std::marker::Model;
use wire_core::{FlowKey, Ip4, LeaseRules, NoMemory, NodeId, Socket};

/// A configuration that keeps every rule.
#[derive(Drop)]
pub struct Config {
    parts: ConfigParts,
    index: Index,
    ways: Ways,
}

impl Model for Config {
    ghost use Rattle.vip_config.specs.declared.parts.ConfigParts.{ConfigParts as Parts};
    ghost use Rattle.vip_config.specs.Rules.{IsConfig};

    ghost Value = { Parts };

    ghost view = { λ c. c.parts };

    ghost invariant = { λ c. IsConfig c.parts (record {
      sockets = c.index.sockets.entries;
      machines = c.index.machines.entries;
      attached = c.ways.attached.entries;
      leaving = c.ways.leaving.entries;
      serving = c.ways.serving.entries;
    }) };
}

fn fault_at(alloc: Global, place: Place) -> ConfigFault
    ensures { Fails {A = parts.ConfigParts} result (Err (field (path place))) }
{
    match place.path(alloc) {
        Ok(path) => ConfigFault::Field(path),
        Err(_) => ConfigFault::NoMemory,
    }
}

fn make_parts(alloc: Global, settings: Settings) -> Result<ConfigParts, NoMemory>
    requires { Each HasPorts settings.vips }
    ensures { IfOk result (λ parts. parts ≡ parts_of settings) }
{
    let vips = narrow_vips(alloc, settings.vips)?;
    Ok(ConfigParts {
        version: settings.version,
        router: settings.router,
        replicas: settings.replicas,
        muxes: settings.muxes,
        agents: settings.agents,
        vips,
        limit: settings.limit,
        timers: settings.timers,
    })
}

fn keep(alloc: Global, settings: Settings, index: Index) -> Result<Config, NoMemory>
    requires sized { IsSized settings }
    requires bounded { IsBounded settings }
    requires rules { broken_rule settings ≡ None }
    requires sockets { index.sockets.entries
        ≡ owners_of (socket_claims settings.router settings.replicas settings.muxes settings.agents) }
    requires machines { index.machines.entries ≡ machines_of settings.agents }
    ensures { IfOk result (λ config. config ≡ parts_of settings) }
{
    let parts = make_parts(alloc, settings)?;
    let ways = index_ways(alloc, &parts)?;
    Ok(Config { parts, index, ways })
}

fn check(alloc: Global, settings: Settings) -> Result<Config, ConfigFault>
    requires sized { IsSized settings }
    requires bounded { IsBounded settings }
    ensures { Gives result (checked settings) }
{
    match build_index(alloc, &settings) {
        Ok(index) => Ok(keep(alloc, settings, index)?),
        Err(Broken::At(place)) => Err(fault_at(alloc, place)),
        Err(Broken::NoMemory) => Err(ConfigFault::NoMemory),
    }
}

impl Config {
    /// Reads a configuration: one JSON object, as `serde_json` reads it (UTF-8, 127 levels, no lone surrogate, numbers
    /// within a double), whose members have their form and keep every rule. `Json` comes exactly where the bytes are no
    /// such JSON, and `Field` with the path of the first member that is wrong: first by the form of the text, then by
    /// the rules in their order. The cost is linear in the text.
    #[tactic(auto, unfolding(crate::specs::Configs::config_of))]
    pub fn read(alloc: Global, bytes: &[u8]) -> Result<Config, ConfigFault>
        ensures { Gives result (config_of bytes.now) }
    {
        let settings = Settings::read(alloc, bytes)?;
        check(alloc, settings)
    }

    /// Every configuration keeps the rules, its lists have their lengths, its version, ports, limit and timers are
    /// within their bounds, and it knows whose each socket and each machine is. It does nothing else than to say so.
    pub fn keeps_rules(&self)
        ensures rules { KeepsRules self.now }
        ensures lengths { HasLengths self.now }
        ensures bounds { HasBounds self.now }
        ensures owners { KnowsOwners self.now }
    {
        let _ = &self.parts;
    }

    /// 1.
    pub fn version(&self) -> u8
        ensures { result ≡ self.now.version }
    {
        self.parts.version
    }

    /// Where all packets go that leave for outside.
    pub fn router(&self) -> Socket
        ensures { result ≡ self.now.router }
    {
        self.parts.router
    }

    /// The five replicas' sockets.
    pub fn replicas(&self) -> &[Socket]
        ensures { result.now ≡ self.now.replicas }
    {
        self.parts.replicas.as_slice()
    }

    /// The muxes' sockets, 1 to 16.
    pub fn muxes(&self) -> &[Socket]
        ensures { result.now ≡ self.now.muxes }
    {
        self.parts.muxes.as_slice()
    }

    /// The agents, 1 to 256, with 1 to 64 machines each.
    pub fn agents(&self) -> &[AgentConf]
        ensures { result.now ≡ self.now.agents }
    {
        self.parts.agents.as_slice()
    }

    /// The VIPs, 1 to 64.
    pub fn vips(&self) -> &[VipConf]
        ensures { result.now ≡ self.now.vips }
    {
        self.parts.vips.as_slice()
    }

    /// The most rows that a machine may have, 1 to 1,024.
    pub fn limit(&self) -> u32
        ensures { result ≡ self.now.limit }
    {
        self.parts.limit
    }

    /// The spans of time, in milliseconds.
    pub fn timers(&self) -> Timers
        ensures { result ≡ self.now.timers }
    {
        self.parts.timers
    }

    /// Whose socket this is: that of a node, or the one that a machine's packets come from. The router's socket and all
    /// others are `Outside`. A look-up by a hash.
    pub fn who(&self, s: &Socket) -> Who
        ensures { result ≡ who_of self.now s.now }
    {
        match self.index.sockets.get(s) {
            Some(who) => *who,
            None => Who::Outside,
        }
    }

    /// The node's socket. `None` exactly where the node isn't configured.
    pub fn socket(&self, n: &NodeId) -> Option<Socket>
        ensures { result ≡ socket_of self.now n.now }
    {
        match *n {
            NodeId::Replica(i) => self.replicas().get(usize::from(i)).copied(),
            NodeId::Mux(i) => self.muxes().get(usize::from(i)).copied(),
            NodeId::Agent(i) => match self.agents().get(usize::from(i)) {
                Some(agent) => Some(agent.socket),
                None => None,
            },
        }
    }

    /// The number of the machine's agent. `None` exactly where the machine isn't configured. A look-up by a hash.
    pub fn agent_of(&self, machine: Ip4) -> Option<u16>
        ensures { result ≡ agent_of (machines_of self.now.agents) machine }
    {
        self.index.machines.get(&machine).copied()
    }

    /// The socket from which the machine's packets come, and to which they are handed. `None` exactly where the machine
    /// isn't configured. A look-up by a hash.
    pub fn attach_of(&self, machine: Ip4) -> Option<Socket>
        ensures { result ≡ attach_of self.now machine }
    {
        self.ways.attached.get(&machine).copied()
    }

    /// The VIP from which the machine's connections leave. `None` exactly where the machine is in no `snat`. A look-up
    /// by a hash.
    pub fn snat_vip(&self, machine: Ip4) -> Option<Ip4>
        ensures { result ≡ snat_vip self.now.vips machine }
    {
        self.ways.leaving.get(&machine).copied()
    }

    /// Whether the machine is in this VIP's `snat`. A look-up by a hash.
    pub fn has_snat(&self, vip: Ip4, machine: Ip4) -> bool
        ensures { result ≡ has_snat self.now.vips vip machine }
    {
        match self.ways.leaving.get(&machine) {
            Some(found) => *found == vip,
            None => false,
        }
    }

    /// The machine as one that serves the endpoint that packets with this key are for. `None` exactly where there is no
    /// such endpoint, or the machine doesn't serve it. A look-up by a hash.
    pub fn member_at(&self, key: &FlowKey, machine: Ip4) -> Option<Member>
        ensures { result ≡ member_at self.now.vips key.now machine }
    {
        find_member(&self.ways.serving, key, machine)
    }

    /// How many muxes, agents, machines and VIPs there are.
    pub fn counts(&self) -> Counts
        ensures { result ≡ counts_of self.now }
    {
        Counts {
            muxes: self.parts.muxes.len() as u64,
            agents: self.parts.agents.len() as u64,
            machines: self.index.machines.len() as u64,
            vips: self.parts.vips.len() as u64,
        }
    }

    /// What may be leased, and by whom: a rule for each VIP with the ports of its endpoints as taken, and one for each
    /// machine in some `snat`, with its agent and that VIP. The rules name each VIP and each machine once.
    pub fn lease_rules(&self, alloc: Global) -> Result<LeaseRules, NoMemory>
        ensures exact { IfOk result (λ rules. rules ≡ lease_rules_of self.now) }
        ensures vips { IfOk result (λ rules. Once (map (λ rule. rule.vip) rules.vips)) }
        ensures machines { IfOk result (λ rules. Once (map (λ rule. rule.machine) rules.machines)) }
        ensures agents { IfOk result (λ rules.
            Each (λ rule. agent_of (machines_of self.now.agents) rule.machine ≡ Some rule.agent) rules.machines) }
    {
        let rules = make_rules(alloc, &self.parts, &self.index.machines)?;
        Ok(rules)
    }

    /// How many ranges may be leased over all the VIPs. Looks at each VIP and endpoint for each of the 8,192 starts of
    /// each VIP.
    pub fn ranges(&self, alloc: Global) -> Result<u64, NoMemory>
        ensures { IfOk result (λ n. n ≡ ranges_of self.now) }
    {
        let rules = self.lease_rules(alloc)?;
        Ok(count_ranges(&rules, self.parts.vips.as_slice()))
    }

    /// An equal configuration. The cost is linear in the members.
    pub fn copy(&self, alloc: Global) -> Result<Config, NoMemory>
        ensures { IfOk result (λ config. config ≡ self.now) }
    {
        Ok(Config {
            parts: copy_parts(alloc, &self.parts)?,
            index: copy_index(&self.index)?,
            ways: copy_ways(&self.ways)?,
        })
    }
}
