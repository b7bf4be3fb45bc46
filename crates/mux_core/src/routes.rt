ghost use Rattle.std.specs.Prelude.{◌≡◌, ◌&&◌, IfOk, Some, None, slice_get, if◌then◌else◌};
ghost use Rattle.mux_spec.specs.Packets.{agent_number, own_address, socket_ip};
ghost use Rattle.mux_spec.specs.Rows.{kept_at, new_rows, program_row, programmed, unprogram_row};
ghost use Rattle.mux_spec.specs.Services.{chosen_for};
ghost use Rattle.vip_config.specs.Leases.{lease_rules_of};
ghost use Rattle.vip_config.specs.Queries.{who_of};
ghost use Rattle.vip_config.specs.Serving.{agent_with, has_snat, is_vip};
ghost use Rattle.wire_core.specs.Ranges.{is_leasable};

use mux_maps::{Endpoints, Leaving, Ranges, Vips};
use mux_spec::{Kept, Programmed, Service};
use std::alloc::Global;
use std::marker::Model;
use vip_config::{Config, Who};
use wire_core::{FlowKey, Ip4, NoMemory, Range, Socket};

/// Where packets go: the configuration and its indexes, and the rows.
#[derive(Drop)]
pub(crate) struct Routes {
    config: Config,
    index: u16,
    own: Ip4,
    ranges: Ranges,
    endpoints: Endpoints,
    vips: Vips,
    leaving: Leaving,
}

impl Model for Routes {
    ghost use Rattle.mux_core.specs.Routed.{IsRouted, Routed};

    ghost Value = { Routed };

    ghost view = { λ r. record { config = r.config; index = r.index; rows = r.ranges } };

    ghost invariant = { λ r. IsRouted r.config r.index r.own r.ranges r.endpoints r.vips r.leaving };
}

fn own_address(muxes: &[Socket], index: u16) -> Ip4
    ensures { result ≡ socket_ip (slice_get muxes.now index) }
{
    match muxes.get(usize::from(index)) {
        Some(socket) => socket.ip,
        None => Ip4(0),
    }
}

impl Routes {
    /// No rows yet. Takes a copy of the configuration. The cost is linear in it, and for each VIP in 8,192 starts times
    /// its endpoints.
    #[tactic(auto, unfolding(mux_spec::specs::Packets::own_address, mux_spec::specs::Services::services_of))]
    pub(crate) fn new(alloc: Global, config: &Config, index: u16) -> Result<Routes, NoMemory>
        ensures { IfOk result (λ r. r
            ≡ record { config = config.now; index = index; rows = new_rows (lease_rules_of config.now) }) }
    {
        let rules = config.lease_rules(alloc)?;
        Ok(Routes {
            index,
            own: own_address(config.muxes(), index),
            ranges: Ranges::new(alloc, &rules)?,
            endpoints: Endpoints::new(alloc, config.vips())?,
            vips: Vips::new(alloc, config.vips())?,
            leaving: Leaving::new(alloc, config.vips())?,
            config: config.copy(alloc)?,
        })
    }

    pub(crate) fn config(&self) -> &Config
        ensures { result.now ≡ self.now.config }
    {
        &self.config
    }

    pub(crate) fn index(&self) -> u16
        ensures { result ≡ self.now.index }
    {
        self.index
    }

    /// The outer source of what this mux wraps.
    pub(crate) fn own(&self) -> Ip4
        ensures { result ≡ own_address self.now.config self.now.index }
    {
        self.own
    }

    /// Whose socket this is.
    pub(crate) fn who(&self, s: &Socket) -> Who
        ensures { result ≡ who_of self.now.config s.now }
    {
        self.config.who(s)
    }

    pub(crate) fn is_vip(&self, a: Ip4) -> bool
        ensures { result ≡ is_vip self.now.config.vips a }
    {
        self.vips.has(a)
    }

    /// The machine that the hash chooses of the endpoint that the flow goes to, if it goes to one.
    #[tactic(auto, unfolding(mux_spec::specs::Services::chosen_for, mux_spec::specs::Services::endpoint_of))]
    pub(crate) fn chosen_for(&self, key: &FlowKey) -> Option<Ip4>
        ensures { result ≡ chosen_for self.now.config key.now }
    {
        let service = Service {
            vip: key.dst,
            proto: key.proto,
            port: key.dport,
        };
        self.endpoints.machine(&service, key.hash())
    }

    /// What is kept of the range, exactly where it may be leased.
    pub(crate) fn row(&self, r: &Range) -> Option<Kept>
        ensures { result ≡ (if is_leasable (lease_rules_of self.now.config) r.now
            then Some (kept_at self.now.rows r.now) else None) }
    {
        self.ranges.row(r)
    }

    /// The number of the machine's agent, if it has one.
    pub(crate) fn agent_of(&self, machine: Ip4) -> Option<u16>
        ensures { result ≡ agent_with self.now.config machine }
    {
        self.config.agent_of(machine)
    }

    /// The number of the machine's agent, which each machine that is named has.
    #[tactic(auto, unfolding(mux_spec::specs::Packets::agent_number))]
    pub(crate) fn agent_number(&self, machine: Ip4) -> u16
        ensures { result ≡ agent_number self.now.config machine }
    {
        self.config.agent_of(machine).unwrap_or(0)
    }

    /// Whether the range may be leased.
    pub(crate) fn is_leasable(&self, r: &Range) -> bool
        ensures { result ≡ is_leasable (lease_rules_of self.now.config) r.now }
    {
        self.ranges.row(r).is_some()
    }

    /// Whether the range may be leased to the machine.
    pub(crate) fn may_have(&self, r: &Range, machine: Ip4) -> bool
        ensures { result ≡ (is_leasable (lease_rules_of self.now.config) r.now
            && has_snat self.now.config.vips r.now.vip machine) }
    {
        self.is_leasable(r) && self.leaving.has(r.vip, machine)
    }

    /// The range goes to the machine by lease `n`, unless a later one was told.
    pub(crate) fn program(&mut self, n: u64, r: &Range, machine: Ip4) -> Programmed
        ensures answer { result ≡ programmed (kept_at self.old.rows r.now) n }
        ensures rows { self.new ≡ record self.old { rows = program_row self.old.rows n r.now machine } }
    {
        self.ranges.program(n, r, machine)
    }

    /// The range goes to no machine, unless a later lease was told.
    pub(crate) fn unprogram(&mut self, n: u64, r: &Range)
        ensures { self.new ≡ record self.old { rows = unprogram_row self.old.rows n r.now } }
    {
        self.ranges.unprogram(n, r);
    }

    /// The i-th range that may be leased, from 0, with what is kept of it.
    pub(crate) fn entry(&self, i: usize) -> Option<(Range, Kept)>
        ensures { result ≡ slice_get self.now.rows i }
    {
        self.ranges.entry(i)
    }

    /// What is kept of the range: nothing where it may not be leased.
    pub(crate) fn kept(&self, r: &Range) -> Kept
        ensures { result ≡ kept_at self.now.rows r.now }
    {
        self.ranges.kept(r)
    }
}
