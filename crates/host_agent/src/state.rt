use crate::host::Origin;
use crate::machines::Machines;
use crate::traffic::Traffic;
use std::marker::Model;
use vip_config::Config;
use wire_core::LeaseRules;

/// What an agent keeps. In contracts it is its configuration and its lists.
#[derive(Drop)]
pub(crate) struct State {
    pub(crate) cfg: Config,
    /// What may be leased.
    pub(crate) rules: LeaseRules,
    pub(crate) index: u16,
    pub(crate) origin: Origin,
    /// Whether a primary knows this boot.
    pub(crate) known: bool,
    pub(crate) hosts: Machines,
    pub(crate) traffic: Traffic,
}

impl Model for State {
    ghost use Rattle.std.specs.Prelude.{◌≡◌};
    ghost use Rattle.host_agent.specs.Seen.{Core};
    ghost use Rattle.vip_config.specs.Leases.{lease_rules_of};

    ghost Value = { Core };

    ghost view = { λ a. record {
      config = a.cfg;
      lists = record {
        index = a.index;
        boot = a.origin.boot;
        known = a.known;
        hint = a.origin.hint;
        hosts = a.hosts;
        traffic = a.traffic;
      };
    } };

    ghost invariant = { λ a. a.rules ≡ lease_rules_of a.cfg };
}
