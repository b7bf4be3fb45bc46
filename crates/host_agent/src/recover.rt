// An agent as it opens.
ghost use Rattle.std.specs.Prelude.{◌≡◌, fold, map, option_copied, slice_get, IfOk};
ghost use Rattle.agent_spec.specs.Agent.{new_hosts, opened_agent};
ghost use Rattle.config_text.specs.declared.agents.Attach.{Attach as Attached};
ghost use Rattle.host_agent.specs.Entries.{entries_of, entry_in};
ghost use Rattle.host_agent.specs.Hosts.{hosts_of};
ghost use Rattle.node_spec.specs.Boots.{boot_after, boot_of};
ghost use Rattle.vip_config.specs.Rules.{Once, all_machines};
ghost use Rattle.wire_core.specs.Entries.{read_entry};

use crate::host::Origin;
use crate::machines::Machines;
use crate::state::State;
use crate::traffic::Traffic;
use config_text::{AgentConf, Attach};
use std::alloc::Global;
use vip_config::Config;
use wire_core::{BodyList, Entry, EntryBytes, NoMemory};

/// The greater of a boot and of the one that the body tells, if it tells one.
fn boot_after(boot: u64, body: &[u8]) -> u64
    ensures { result ≡ fold boot_after boot (entry_in (read_entry body.now)) }
{
    match Entry::read(body) {
        Ok(Entry::Boot { boot: later, .. }) => boot.max(later),
        _ => boot,
    }
}

/// The greatest boot of the entries, at first 0.
#[tactic(auto, unfolding(node_spec::specs::Boots::boot_of, crate::specs::Entries::entries_of))]
fn greatest_boot(bodies: &[EntryBytes]) -> u64
    ensures { result ≡ boot_of (entries_of bodies.now) }
{
    let mut boot = 0;
    for body in bodies {
        boot = boot_after(boot, body.as_slice());
    }
    boot
}

/// The agent with this number as configured. None where it isn't.
fn conf_of(cfg: &Config, index: u16) -> Option<&AgentConf>
    ensures { option_copied result ≡ slice_get cfg.now.agents index }
{
    cfg.agents().get(usize::from(index))
}

/// The machines of the agent with this number as configured. None where it isn't.
fn machines_of(cfg: &Config, index: u16) -> &[Attach]
    requires { Once (all_machines cfg.now) }
    ensures hosts { hosts_of result.now ≡ new_hosts (slice_get cfg.now.agents index) }
    ensures apart { Once (map (λ (m : Attached). m.address) result.now) }
{
    match conf_of(cfg, index) {
        Some(agent) => agent.machines.as_slice(),
        None => &[],
    }
}

impl State {
    /// As it opens under a configuration, of which it takes a copy.
    #[tactic(auto, unfolding(agent_spec::specs::Agent::opened_agent))]
    pub(crate) fn recover(
        alloc: Global,
        cfg: &Config,
        index: u16,
        bodies: &BodyList,
    ) -> Result<State, NoMemory>
        ensures { IfOk result (λ a. a
            ≡ record { config = cfg.now; lists = opened_agent cfg.now index (entries_of bodies.now) }) }
    {
        cfg.keeps_rules();
        let machines = machines_of(cfg, index);
        let hosts = Machines::new(alloc, machines)?;
        let rules = cfg.lease_rules(alloc)?;
        let cfg = cfg.copy(alloc)?;
        let boot = greatest_boot(bodies.as_slice());
        Ok(State {
            cfg,
            rules,
            index,
            origin: Origin { boot, hint: 0 },
            known: false,
            hosts,
            traffic: Traffic::new(alloc),
        })
    }
}
