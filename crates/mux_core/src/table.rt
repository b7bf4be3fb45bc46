// Which input is which row.
ghost use Rattle.std.specs.Prelude.{◌≡◌, IfOk, OnOk, slice_get};
ghost use Rattle.mux_core.specs.Seen.{answered, with_lists};
ghost use Rattle.mux_spec.specs.Mux.{on_tick};
ghost use Rattle.mux_spec.specs.MuxTable.{from_replica, mux_hears, mux_step};
ghost use Rattle.mux_spec.specs.Packets.{on_packet, passing};
ghost use Rattle.mux_spec.specs.Redirects.{resolved};
ghost use Rattle.mux_spec.specs.Rows.{kept_at};
ghost use Rattle.node_spec.specs.Bodies.{Spells};
ghost use Rattle.node_spec.specs.Datagrams.{by_heard, heard};
ghost use Rattle.node_spec.specs.Steps.{input_of, turned};
ghost use Rattle.node_spec.specs.Turns.{drop_turn};
ghost use Rattle.vip_config.specs.Queries.{who_of};
ghost use Rattle.wire_core.specs.Steps.{no_step};

use crate::hearing::{Heard, hear};
use crate::mux::Mux;
use crate::notes::drop_for;
use crate::packets::{Goes, receive, verdict};
use crate::sends::send_packet;
use control_msg::Message;
use ipip::Buf;
use mux_spec::{Kept, Order, Verdict};
use node_spec::{is_in_bytes, say_each};
use std::alloc::Global;
use vip_config::Who;
use wire_core::{DropCause, Input, Ip4, NoMemory, NodeId, Range, Socket, Step};

/// All replicas.
const REPLICAS: [u8; 5] = [0, 1, 2, 3, 4];

impl Mux {
    /// A replica's message.
    #[tactic(auto, using(node_spec::proofs::Turning::drop_turned))]
    fn from_replica(
        &mut self,
        alloc: Global,
        step: &mut Step,
        from: u8,
        message: &Message,
    ) -> Result<(), NoMemory>
        ensures { OnOk result ((self.new, step.new)
            ≡ turned (with_lists self.old) self.old.config step.old
            (from_replica self.old.config self.old.lists from message.now)) }
    {
        let from = NodeId::Replica(from);
        match *message {
            Message::Program {
                epoch,
                boot,
                n,
                vip,
                start,
                machine,
            } => {
                let range = Range { vip, start };
                let o = Order {
                    from,
                    epoch,
                    boot,
                    n,
                    range,
                };
                self.on_program(alloc, step, &o, machine)
            }
            Message::Unprogram {
                epoch,
                boot,
                n,
                vip,
                start,
            } => {
                let range = Range { vip, start };
                let o = Order {
                    from,
                    epoch,
                    boot,
                    n,
                    range,
                };
                self.on_unprogram(alloc, step, &o)
            }
            _ => drop_for(step, DropCause::WrongRole),
        }
    }

    /// A message of a node. A RedirectAsk is dropped, until connections do without a mux.
    #[tactic(auto, using(node_spec::proofs::Turning::drop_turned), unfolding(mux_spec::specs::MuxTable::mux_hears))]
    fn hears(
        &mut self,
        alloc: Global,
        step: &mut Step,
        sender: &NodeId,
        message: &Message,
    ) -> Result<(), NoMemory>
        ensures { OnOk result ((self.new, step.new)
            ≡ turned (with_lists self.old) self.old.config step.old
            (mux_hears self.old.config self.old.lists sender.now message.now)) }
    {
        match *sender {
            NodeId::Replica(from) => self.from_replica(alloc, step, from, message),
            NodeId::Mux(_) | NodeId::Agent(_) => drop_for(step, DropCause::WrongRole),
        }
    }

    /// A packet of anyone, through a buffer of its own.
    #[tactic(auto, using(node_spec::proofs::Turning::drop_turned, node_spec::proofs::Turning::says_turned), unfolding(mux_spec::specs::Packets::on_packet, mux_spec::specs::Packets::passing))]
    fn takes(
        &mut self,
        alloc: Global,
        step: &mut Step,
        sender: Who,
        bytes: &[u8],
    ) -> Result<(), NoMemory>
        ensures { OnOk result ((self.new, step.new)
            ≡ turned (with_lists self.old) self.old.config step.old
            (on_packet self.old.config self.old.lists sender bytes.now)) }
    {
        let mut out = Buf::new(alloc)?;
        match receive(&self.routes, &mut self.flows, sender, bytes, &mut out)? {
            Goes::To(machine) => {
                let agent = self.routes.agent_of(machine);
                send_packet(alloc, self.routes.config(), step, agent, out.bytes())
            }
            Goes::Drops(cause) => drop_for(step, cause),
        }
    }

    /// A datagram: the common tests, and then its row.
    #[tactic(auto, using(node_spec::proofs::Turning::drop_turned))]
    fn take_datagram(
        &mut self,
        alloc: Global,
        step: &mut Step,
        from: &Socket,
        bytes: &[u8],
    ) -> Result<(), NoMemory>
        ensures { OnOk result ((self.new, step.new)
            ≡ turned (with_lists self.old) self.old.config step.old
            (by_heard (drop_turn self.old.lists) (mux_hears self.old.config self.old.lists)
            (on_packet self.old.config self.old.lists) (heard self.old.config from.now bytes.now))) }
    {
        match hear(self.routes.config(), from, bytes) {
            Heard::Refused(cause) => drop_for(step, cause),
            Heard::Told(sender, message) => self.hears(alloc, step, &sender, &message),
            Heard::Brought(sender, packet) => self.takes(alloc, step, sender, packet),
        }
    }

    /// A tick: idle flows leave, and all five replicas hear of the mux.
    #[tactic(auto, using(node_spec::proofs::Turning::says_turned), unfolding(mux_spec::specs::Mux::on_tick))]
    fn on_tick(&mut self, alloc: Global, step: &mut Step, now: u64) -> Result<(), NoMemory>
        ensures { OnOk result ((self.new, step.new)
            ≡ turned (with_lists self.old) self.old.config step.old (on_tick self.old.config self.old.lists now)) }
    {
        let idle = self.routes.config().timers().flow_idle;
        self.flows.tick(now, idle);
        let hello = Message::MuxHello {
            boot: self.gate.boot,
            epoch: self.gate.epoch,
        };
        say_each(alloc, self.routes.config(), step, &REPLICAS, &hello)
    }

    /// What an input makes of the mux.
    #[tactic(auto, unfolding(mux_spec::specs::MuxTable::mux_step))]
    fn take_input(
        &mut self,
        alloc: Global,
        step: &mut Step,
        input: &Input<'_>,
    ) -> Result<(), NoMemory>
        ensures { OnOk result ((self.new, step.new)
            ≡ turned (with_lists self.old) self.old.config step.old
            (mux_step self.old.config self.old.lists (input_of input.now))) }
    {
        match *input {
            Input::Tick { now } => self.on_tick(alloc, step, now),
            Input::Datagram { from, bytes } => self.take_datagram(alloc, step, &from, bytes),
        }
    }

    /// One input: a datagram or a tick. The step is what the mux's table says, and so are the lists that are left. A
    /// packet is taken through a buffer that is made for it; [`Mux::packet`] takes one through the caller's. A datagram
    /// costs look-ups by a hash; a tick looks at the flows that leave. The mux isn't used again after want of memory.
    pub fn handle(&mut self, alloc: Global, input: &Input<'_>) -> Result<Step, NoMemory>
        ensures turned { IfOk result (λ step. (self.new, step)
            ≡ turned (with_lists self.old) self.old.config no_step
            (mux_step self.old.config self.old.lists (input_of input.now))) }
        ensures written { IfOk result (λ step. Spells step.entry
            (mux_step self.old.config self.old.lists (input_of input.now)).entry) }
    {
        is_in_bytes(input);
        let mut step = Step::new(alloc);
        self.take_input(alloc, &mut step, input)?;
        Ok(step)
    }

    /// A packet from this socket, as it stands behind the frame byte. `Forward` with the number of the agent that the
    /// wrapped packet goes to, which the buffer then holds, without a frame byte; else `Drop` with the first cause that
    /// applies, and then the buffer and all lists are as they were. The cost is linear in the packet, and otherwise
    /// look-ups by a hash: it doesn't grow with the flows, the rows or the VIPs.
    #[tactic(auto, unfolding(mux_spec::specs::Packets::passing))]
    pub fn packet(
        &mut self,
        from: &Socket,
        bytes: &[u8],
        out: &mut Buf,
    ) -> Result<Verdict, NoMemory>
        ensures { IfOk result (λ verdict. (self.new, (verdict, out.new)) ≡ answered self.old out.old
            (passing self.old.config self.old.lists (who_of self.old.config from.now) bytes.now)) }
    {
        let sender = self.routes.who(from);
        let goes = receive(&self.routes, &mut self.flows, sender, bytes, out)?;
        Ok(verdict(&self.routes, goes))
    }

    /// Its number among the muxes.
    pub fn index(&self) -> u16
        ensures { result ≡ self.now.lists.index }
    {
        self.routes.index()
    }

    /// The greatest boot of the entries that it opened from, 0 where there was none.
    pub fn boot(&self) -> u64
        ensures { result ≡ self.now.lists.gate.boot }
    {
        self.gate.boot
    }

    /// The number and the machine of the range's row. `None` exactly where it has none.
    pub fn snat(&self, r: &Range) -> Option<(u64, Ip4)>
        ensures { result ≡ resolved (kept_at self.now.lists.rows r.now) }
    {
        let kept = self.routes.kept(r);
        match kept.machine {
            Some(machine) => Some((kept.n, machine)),
            None => None,
        }
    }

    /// The i-th range that may be leased, from 0, with its kept number and the machine of its row, where it has one: by
    /// the VIPs of the configuration, and by their starts. `None` exactly from their count on.
    pub fn row(&self, i: usize) -> Option<(Range, Kept)>
        ensures { result ≡ slice_get self.now.lists.rows i }
    {
        self.routes.entry(i)
    }
}
