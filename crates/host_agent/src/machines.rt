// The machines of an agent.
ghost use Rattle.std.specs.Prelude.{◌≡◌, ◌<◌, ◌∷◌, [], fold, map, length, set, slice_get, Some, None, option_map, IfOk, IfSome, OnOk};
ghost use Rattle.agent_spec.specs.Agent.{host_of, is_own, new_host, put_host};
ghost use Rattle.agent_spec.specs.Agent.{Host as Kept};
ghost use Rattle.agent_spec.specs.Answers.{is_ask, take_grant};
ghost use Rattle.agent_spec.specs.Clock.{holds_packet, renewed};
ghost use Rattle.agent_spec.specs.Packets.{read_as};
ghost use Rattle.config_text.specs.declared.agents.Attach.{Attach as Attached};
ghost use Rattle.host_agent.specs.Hosts.{addresses, at_place, denial, hosts_of, put_at, with_address};
ghost use Rattle.host_agent.specs.Seen.{as_is, kept_in, site};
ghost use Rattle.host_agent.specs.Retries.{with_denials};
ghost use Rattle.node_spec.specs.Steps.{tried, turned};
ghost use Rattle.packet_spec.specs.Packets.{read_packet};
ghost use Rattle.vip_config.specs.Rules.{Once};
ghost use Rattle.wire_core.specs.Same.{same_ip};

use crate::grant::take_grant;
use crate::host::{Host, Origin};
use crate::machine::read_machine_packet;
use crate::telling::renew_each;
use crate::traffic::Traffic;
use config_text::Attach;
use indexmap::IndexSet;
use std::alloc::Global;
use std::marker::Model;
use vip_config::Config;
use wire_core::{Ip4, NoMemory, Step};

/// The machines of an agent, as configured. Each is found by its address, by a hash.
#[derive(Drop)]
pub(crate) struct Machines {
    list: Vec<Host>,
    /// Their addresses, each at its machine's place.
    places: IndexSet<Ip4>,
}

impl Model for Machines {
    ghost use Rattle.std.specs.Prelude.{List};
    ghost use Rattle.agent_spec.specs.Agent.{Host as Kept};
    ghost use Rattle.host_agent.specs.Hosts.{IsKept};

    ghost Value = { List Kept };

    ghost view = { λ m. m.list.items };

    ghost invariant = { λ m. IsKept m.list.items m.places.keys };
}

/// The machines, without packets.
fn make_hosts(alloc: Global, machines: &[Attach]) -> Result<Vec<Host>, NoMemory>
    ensures { IfOk result (λ hosts. hosts.items ≡ hosts_of machines.now) }
{
    let mut hosts = Vec::new(alloc);
    for machine in machines {
        hosts.push(Host::new(alloc, machine.address)?)?;
    }
    Ok(hosts)
}

/// One address more, unless it is there.
fn add_address(index: &mut IndexSet<Ip4>, machine: &Attach) -> Result<(), NoMemory>
    ensures { OnOk result (index.new.keys ≡ with_address index.old.keys machine.now) }
{
    index.insert(machine.address)?;
    Ok(())
}

/// Their addresses, each at its machine's place.
fn index_machines(alloc: Global, machines: &[Attach]) -> Result<IndexSet<Ip4>, NoMemory>
    ensures { IfOk result (λ index. index.keys ≡ fold with_address [] machines.now) }
{
    let mut index = IndexSet::new(alloc);
    for machine in machines {
        add_address(&mut index, machine)?;
    }
    Ok(index)
}

/// Whether the ask with this number is out, of the machine at a place.
fn is_asking_at(hosts: &[Host], place: usize, seq: u64) -> bool
    requires { place < length hosts.now }
    ensures { (h : Kept) → slice_get hosts.now place ≡ Some h → result ≡ is_ask seq h.ask }
{
    hosts[place].is_asking(seq)
}

/// The ask of the machine at a place is over, and each held packet is dropped.
fn refuse_at(hosts: &mut [Host], place: usize, step: &mut Step) -> Result<(), NoMemory>
    requires { place < length hosts.old }
    ensures left { (h : Kept) → slice_get hosts.old place ≡ Some h → OnOk result
        (hosts.new ≡ set hosts.old place (record h { queue = []; ask = None })) }
    ensures notes { (h : Kept) → slice_get hosts.old place ≡ Some h → OnOk result
        (step.new ≡ with_denials h.queue step.old) }
    ensures machines { addresses hosts.new ≡ addresses hosts.old }
{
    hosts[place].refuse(step)
}

/// What came from the socket of the machine at a place as a packet.
fn packet_at(
    alloc: Global,
    cfg: &Config,
    origin: &Origin,
    traffic: &mut Traffic,
    hosts: &mut [Host],
    step: &mut Step,
    place: usize,
    bytes: &[u8],
) -> Result<(), NoMemory>
    requires { place < length hosts.old }
    ensures turn { (h : Kept) → slice_get hosts.old place ≡ Some h → OnOk result (((traffic.new, hosts.new), step.new)
        ≡ turned (put_at hosts.old place) cfg.now step.old
        (read_as cfg.now origin.now.boot origin.now.hint (site traffic.old h) (read_packet bytes.now))) }
    ensures machines { addresses hosts.new ≡ addresses hosts.old }
{
    read_machine_packet(alloc, cfg, origin, traffic, &mut hosts[place], step, bytes)
}

/// A range is held from now on by the machine at a place, and its held packets go through the rows.
fn grant_at(
    alloc: Global,
    cfg: &Config,
    origin: &Origin,
    traffic: &mut Traffic,
    hosts: &mut [Host],
    step: &mut Step,
    place: usize,
    seq: u64,
    n: u64,
) -> Result<(), NoMemory>
    requires { place < length hosts.old }
    ensures turn { (h : Kept) → slice_get hosts.old place ≡ Some h → OnOk result (((traffic.new, hosts.new), step.new)
        ≡ turned (put_at hosts.old place) cfg.now step.old
        (take_grant cfg.now origin.now.boot origin.now.hint (site traffic.old h) seq n)) }
    ensures machines { addresses hosts.new ≡ addresses hosts.old }
{
    take_grant(alloc, cfg, origin, traffic, &mut hosts[place], step, seq, n)
}

impl Machines {
    /// The machines, without packets. No two have one address.
    pub(crate) fn new(alloc: Global, machines: &[Attach]) -> Result<Machines, NoMemory>
        requires { Once (map (λ (m : Attached). m.address) machines.now) }
        ensures { IfOk result (λ hosts. hosts ≡ hosts_of machines.now) }
    {
        let list = make_hosts(alloc, machines)?;
        let places = index_machines(alloc, machines)?;
        Ok(Machines { list, places })
    }

    /// The machines in order.
    pub(crate) fn as_slice(&self) -> &[Host]
        ensures { result.now ≡ self.now }
    {
        &self.list
    }

    /// The place of a machine.
    fn place_of(&self, machine: Ip4) -> Option<usize>
        ensures place { at_place self.now result ≡ host_of self.now machine }
        ensures within { IfSome result (λ i. i < length self.now) }
    {
        self.places.get_index_of(&machine)
    }

    /// Whether it is one of them.
    pub(crate) fn is_own(&self, machine: Ip4) -> bool
        ensures { result ≡ is_own self.now machine }
    {
        self.place_of(machine).is_some()
    }

    /// Whether it is one of them and holds a packet.
    pub(crate) fn holds_packet(&self, machine: Ip4) -> bool
        ensures { result ≡ holds_packet (host_of self.now machine) }
    {
        match self.place_of(machine) {
            Some(place) => self.list[place].holds_packet(),
            None => false,
        }
    }

    /// The times of asks that are out for so long are renewed.
    pub(crate) fn renew(&mut self, now: u64, retry: u64)
        ensures { self.new ≡ map (renewed now retry) self.old }
    {
        renew_each(&mut self.list, now, retry);
    }

    /// The ask of the machine with this number is over, and what was held for it is dropped. False, and nothing has
    /// changed, where no such ask is out.
    pub(crate) fn deny(
        &mut self,
        cfg: &Config,
        step: &mut Step,
        machine: Ip4,
        seq: u64,
    ) -> Result<bool, NoMemory>
        ensures { IfOk result (λ out. (self.new, (step.new, out))
            ≡ tried as_is cfg.now step.old self.old (denial self.old seq (host_of self.old machine))) }
    {
        let Some(place) = self.place_of(machine) else {
            return Ok(false);
        };
        let out = is_asking_at(&self.list, place, seq);
        if !out {
            return Ok(false);
        }
        refuse_at(&mut self.list, place, step)?;
        Ok(true)
    }

    /// What came from the machine's socket as a packet. False, and nothing has changed, where it isn't one of them.
    pub(crate) fn packet(
        &mut self,
        alloc: Global,
        cfg: &Config,
        origin: &Origin,
        traffic: &mut Traffic,
        step: &mut Step,
        machine: Ip4,
        bytes: &[u8],
    ) -> Result<bool, NoMemory>
        ensures { IfOk result (λ own. ((traffic.new, self.new), (step.new, own))
            ≡ tried (kept_in self.old) cfg.now step.old (traffic.old, self.old)
            (option_map (λ h. read_as cfg.now origin.now.boot origin.now.hint (site traffic.old h) (read_packet bytes.now))
            (host_of self.old machine))) }
    {
        let Some(place) = self.place_of(machine) else {
            return Ok(false);
        };
        packet_at(
            alloc,
            cfg,
            origin,
            traffic,
            &mut self.list,
            step,
            place,
            bytes,
        )?;
        Ok(true)
    }

    /// A range is held from now on, and the machine's held packets go through the rows. False, and nothing has changed,
    /// where it isn't one of them.
    pub(crate) fn grant(
        &mut self,
        alloc: Global,
        cfg: &Config,
        origin: &Origin,
        traffic: &mut Traffic,
        step: &mut Step,
        machine: Ip4,
        seq: u64,
        n: u64,
    ) -> Result<bool, NoMemory>
        ensures { IfOk result (λ own. ((traffic.new, self.new), (step.new, own))
            ≡ tried (kept_in self.old) cfg.now step.old (traffic.old, self.old)
            (option_map (λ h. take_grant cfg.now origin.now.boot origin.now.hint (site traffic.old h) seq n)
            (host_of self.old machine))) }
    {
        let Some(place) = self.place_of(machine) else {
            return Ok(false);
        };
        grant_at(
            alloc,
            cfg,
            origin,
            traffic,
            &mut self.list,
            step,
            place,
            seq,
            n,
        )?;
        Ok(true)
    }
}
