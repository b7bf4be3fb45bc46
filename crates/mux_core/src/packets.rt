// What becomes of a packet.
ghost use Rattle.std.specs.Prelude.{◌≡◌, None, Some, List, ℕ, IfOk};
ghost use Rattle.ipip.specs.Wrapping.{wrap_fault};
ghost use Rattle.mux_core.specs.Seen.{outcome_of, timed};
ghost use Rattle.mux_spec.specs.Packets.{from_who, left_in, opens, own_address, sound, to_endpoint, to_range, to_row, verdict_of, wraps_unless};
ghost use Rattle.wire_core.specs.Ranges.{range_of};

use crate::flows::TimedFlows;
use crate::routes::Routes;
use ipip::{Buf, can_wrap, wrap, wrap_cause};
use mux_spec::Verdict;
use packet_edit::Packet;
use packet_spec::packet_cause;
use vip_config::Who;
use wire_core::{DropCause, Ip4, NoMemory, Range};

/// Where a packet goes, which then stands wrapped in the buffer; else the buffer is as it was.
#[derive(Clone, Copy, Debug, PartialEq, Eq)]
pub(crate) enum Goes {
    To(Ip4),
    Drops(DropCause),
}

/// Whether the packet opens a connection: SYN without ACK.
fn opens(p: &Packet) -> bool
    ensures { result ≡ opens p.now }
{
    p.syn() && !p.ack()
}

/// Wraps the packet for the machine.
fn wraps(own: Ip4, machine: Ip4, p: &Packet, out: &mut Buf) -> Goes
    ensures outcome { outcome_of result out.new ≡ wraps_unless own machine p.now (wrap_fault 1 p.now) }
    ensures buffer { out.new ≡ left_in out.old (outcome_of result out.new) }
{
    match wrap(own, machine, p.ip(), out) {
        Ok(()) => Goes::To(machine),
        Err(fault) => Goes::Drops(wrap_cause(fault)),
    }
}

/// A packet to a leasable range.
fn to_row(own: Ip4, p: &Packet, machine: Option<Ip4>, out: &mut Buf) -> Goes
    ensures outcome { outcome_of result out.new ≡ to_row own p.now machine }
    ensures buffer { out.new ≡ left_in out.old (outcome_of result out.new) }
{
    match machine {
        None => Goes::Drops(DropCause::NoLease),
        Some(machine) => wraps(own, machine, p, out),
    }
}

/// A packet to a port of a VIP at which there is no endpoint.
#[tactic(auto, unfolding(mux_spec::specs::Packets::to_range))]
fn to_range(routes: &Routes, p: &Packet, r: &Range, out: &mut Buf) -> Goes
    ensures outcome { outcome_of result out.new ≡ to_range routes.now.config
        (own_address routes.now.config routes.now.index) routes.now.rows p.now r.now }
    ensures buffer { out.new ≡ left_in out.old (outcome_of result out.new) }
{
    match routes.row(r) {
        None => Goes::Drops(DropCause::NoEndpoint),
        Some(kept) => to_row(routes.own(), p, kept.machine, out),
    }
}

/// A packet to an endpoint, for which the hash chooses this machine.
#[tactic(auto, unfolding(mux_spec::specs::Packets::to_endpoint, mux_spec::specs::Packets::ask_if))]
fn to_endpoint(
    routes: &Routes,
    flows: &mut TimedFlows,
    p: &Packet,
    chosen: Ip4,
    out: &mut Buf,
) -> Result<Goes, NoMemory>
    ensures passing { IfOk result (λ goes. (flows.new, outcome_of goes out.new)
        ≡ timed flows.old.time (to_endpoint routes.now.config (own_address routes.now.config routes.now.index)
        flows.old.flows flows.old.time p.now chosen)) }
    ensures buffer { IfOk result (λ goes. out.new ≡ left_in out.old (outcome_of goes out.new)) }
{
    if let Err(fault) = can_wrap(p.ip()) {
        return Ok(Goes::Drops(wrap_cause(fault)));
    }
    let noted = flows.note(&p.key(), opens(p), chosen)?;
    Ok(wraps(routes.own(), noted.machine, p, out))
}

/// The range that the port lies in.
fn range_of(vip: Ip4, port: u16) -> Range
    ensures { result ≡ range_of vip port }
{
    Range {
        vip,
        start: port - port % 8,
    }
}

/// A packet without fault.
#[tactic(auto, unfolding(mux_spec::specs::Packets::sound))]
fn pass(
    routes: &Routes,
    flows: &mut TimedFlows,
    p: &Packet,
    out: &mut Buf,
) -> Result<Goes, NoMemory>
    ensures passing { IfOk result (λ goes. (flows.new, outcome_of goes out.new)
        ≡ timed flows.old.time (sound routes.now.config (own_address routes.now.config routes.now.index)
        routes.now.rows flows.old.time flows.old.flows p.now)) }
    ensures buffer { IfOk result (λ goes. out.new ≡ left_in out.old (outcome_of goes out.new)) }
{
    let key = p.key();
    if !routes.is_vip(key.dst) {
        return Ok(Goes::Drops(DropCause::NotVip));
    }
    match routes.chosen_for(&key) {
        Some(chosen) => to_endpoint(routes, flows, p, chosen, out),
        None => Ok(to_range(routes, p, &range_of(key.dst, key.dport), out)),
    }
}

/// A packet of this sender, as its bytes.
pub(crate) fn receive(
    routes: &Routes,
    flows: &mut TimedFlows,
    sender: Who,
    bytes: &[u8],
    out: &mut Buf,
) -> Result<Goes, NoMemory>
    ensures passing { IfOk result (λ goes. (flows.new, outcome_of goes out.new)
        ≡ timed flows.old.time (from_who routes.now.config (own_address routes.now.config routes.now.index)
        routes.now.rows flows.old.time flows.old.flows bytes.now sender)) }
    ensures buffer { IfOk result (λ goes. out.new ≡ left_in out.old (outcome_of goes out.new)) }
{
    match sender {
        Who::Outside => {}
        Who::Machine(_) => return Ok(Goes::Drops(DropCause::NotMine)),
        Who::Replica(_) | Who::Mux(_) | Who::Agent(_) => {
            return Ok(Goes::Drops(DropCause::WrongRole));
        }
    }
    match Packet::read(bytes) {
        Ok(p) => pass(routes, flows, &p, out),
        Err(fault) => Ok(Goes::Drops(packet_cause(fault))),
    }
}

/// The answer.
pub(crate) fn verdict(routes: &Routes, goes: Goes) -> Verdict
    ensures { (bytes : List ℕ) → result ≡ verdict_of routes.now.config (outcome_of goes bytes) }
{
    match goes {
        Goes::To(machine) => Verdict::Forward {
            agent: routes.agent_number(machine),
            ask: None,
        },
        Goes::Drops(cause) => Verdict::Drop(cause),
    }
}
