// Which input is which row.
ghost use Rattle.std.specs.Prelude.{◌≡◌, IfOk, OnOk};
ghost use Rattle.agent_spec.specs.AgentTable.{agent_hears, agent_step, agent_takes, from_mux, from_replica};
ghost use Rattle.agent_spec.specs.Keys.{EntriesApart};
ghost use Rattle.agent_spec.specs.Wrapped.{on_wrapped, outer_as};
ghost use Rattle.host_agent.specs.Seen.{with_lists};
ghost use Rattle.ipip.specs.Wrapping.{inner_of};
ghost use Rattle.node_spec.specs.Datagrams.{by_heard, heard};
ghost use Rattle.node_spec.specs.Steps.{input_of, turned};
ghost use Rattle.node_spec.specs.Turns.{drop_turn};
ghost use Rattle.vip_config.specs.Rules.{KeepsRules};
ghost use Rattle.wire_core.specs.Steps.{no_step};

use crate::answers::Granted;
use crate::hearing::{Heard, hear};
use crate::notes::drop_for;
use crate::state::State;
use crate::wrapped::{may_wrap, take_inner};
use control_msg::Message;
use ipip::{Inner, unwrap, unwrap_cause};
use std::alloc::Global;
use vip_config::Who;
use wire_core::{DropCause, Input, NoMemory, NodeId, Range, Socket, Step};

impl State {
    /// A replica's message.
    #[tactic(auto, using(node_spec::proofs::Turning::drop_turned))]
    fn from_replica(
        &mut self,
        alloc: Global,
        step: &mut Step,
        from: u8,
        message: &Message,
    ) -> Result<(), NoMemory>
        ensures { OnOk result ((self.new, step.new)
            ≡ turned (with_lists self.old) self.old.config step.old
            (from_replica self.old.config self.old.lists from message.now)) }
    {
        match *message {
            Message::Grant {
                boot,
                machine,
                seq,
                n,
                vip,
                start,
            } => {
                let range = Range { vip, start };
                let grant = Granted {
                    machine,
                    seq,
                    n,
                    range,
                };
                self.on_grant(alloc, step, from, boot, &grant)
            }
            Message::Denied {
                boot,
                machine,
                seq,
                ..
            } => self.on_denied(step, from, boot, machine, seq),
            Message::Returned { boot, n } => self.on_returned(step, from, boot, n),
            Message::AgentKnown { boot } => self.on_known(step, from, boot),
            _ => drop_for(step, DropCause::WrongRole),
        }
    }

    /// A message of a node. A Redirect is dropped, until connections do without a mux.
    #[tactic(auto, using(node_spec::proofs::Turning::drop_turned), unfolding(agent_spec::specs::AgentTable::agent_hears))]
    fn hears(
        &mut self,
        alloc: Global,
        step: &mut Step,
        sender: &NodeId,
        message: &Message,
    ) -> Result<(), NoMemory>
        ensures { OnOk result ((self.new, step.new)
            ≡ turned (with_lists self.old) self.old.config step.old
            (agent_hears self.old.config self.old.lists sender.now message.now)) }
    {
        match *sender {
            NodeId::Replica(from) => self.from_replica(alloc, step, from, message),
            NodeId::Mux(_) | NodeId::Agent(_) => drop_for(step, DropCause::WrongRole),
        }
    }

    /// What an unwrapped packet says of itself.
    #[tactic(auto, using(node_spec::proofs::Turning::drop_turned))]
    fn take_outer(
        &mut self,
        alloc: Global,
        step: &mut Step,
        sender: Who,
        inner: &Inner<'_>,
    ) -> Result<(), NoMemory>
        requires { EntriesApart self.old.config self.old.lists.traffic.inbound }
        ensures { OnOk result ((self.new, step.new)
            ≡ turned (with_lists self.old) self.old.config step.old
            (outer_as self.old.config self.old.lists sender (inner_of inner.now))) }
    {
        if !self.hosts.is_own(inner.outer_dst) {
            return drop_for(step, DropCause::NotMine);
        }
        if !may_wrap(&self.cfg, sender, inner.outer_src) {
            return drop_for(step, DropCause::BadSender);
        }
        take_inner(
            alloc,
            &self.cfg,
            &mut self.traffic,
            step,
            sender,
            inner.outer_dst,
            inner.bytes,
        )?;
        Ok(())
    }

    /// A wrapped packet.
    #[tactic(auto, using(node_spec::proofs::Turning::drop_turned), unfolding(agent_spec::specs::Wrapped::on_wrapped))]
    fn on_wrapped(
        &mut self,
        alloc: Global,
        step: &mut Step,
        sender: Who,
        bytes: &[u8],
    ) -> Result<(), NoMemory>
        requires { EntriesApart self.old.config self.old.lists.traffic.inbound }
        ensures { OnOk result ((self.new, step.new)
            ≡ turned (with_lists self.old) self.old.config step.old
            (on_wrapped self.old.config self.old.lists sender bytes.now)) }
    {
        match unwrap(bytes) {
            Ok(inner) => self.take_outer(alloc, step, sender, &inner),
            Err(fault) => drop_for(step, unwrap_cause(fault)),
        }
    }

    /// A packet of anyone.
    #[tactic(auto, using(node_spec::proofs::Turning::drop_turned), unfolding(agent_spec::specs::AgentTable::agent_takes))]
    fn takes(
        &mut self,
        alloc: Global,
        step: &mut Step,
        sender: Who,
        bytes: &[u8],
    ) -> Result<(), NoMemory>
        requires { EntriesApart self.old.config self.old.lists.traffic.inbound }
        ensures { OnOk result ((self.new, step.new)
            ≡ turned (with_lists self.old) self.old.config step.old
            (agent_takes self.old.config self.old.lists sender bytes.now)) }
    {
        match sender {
            Who::Replica(_) => drop_for(step, DropCause::WrongRole),
            Who::Mux(_) | Who::Agent(_) => self.on_wrapped(alloc, step, sender, bytes),
            Who::Machine(machine) => self.from_machine(alloc, step, machine, bytes),
            Who::Outside => drop_for(step, DropCause::NotMine),
        }
    }

    /// What an input makes of the agent so far.
    #[tactic(auto, using(node_spec::proofs::Turning::drop_turned), unfolding(agent_spec::specs::AgentTable::agent_step))]
    fn take_input(
        &mut self,
        alloc: Global,
        step: &mut Step,
        input: &Input<'_>,
    ) -> Result<(), NoMemory>
        requires { EntriesApart self.old.config self.old.lists.traffic.inbound }
        ensures { OnOk result ((self.new, step.new)
            ≡ turned (with_lists self.old) self.old.config step.old
            (agent_step self.old.config self.old.lists (input_of input.now))) }
    {
        match *input {
            Input::Tick { now } => self.on_tick(alloc, step, now),
            Input::Datagram { from, bytes } => self.take_datagram(alloc, step, &from, bytes),
        }
    }

    /// A datagram: the common tests, and then its row.
    #[tactic(auto, using(node_spec::proofs::Turning::drop_turned))]
    fn take_datagram(
        &mut self,
        alloc: Global,
        step: &mut Step,
        from: &Socket,
        bytes: &[u8],
    ) -> Result<(), NoMemory>
        requires { EntriesApart self.old.config self.old.lists.traffic.inbound }
        ensures { OnOk result ((self.new, step.new)
            ≡ turned (with_lists self.old) self.old.config step.old
            (by_heard (drop_turn self.old.lists) (agent_hears self.old.config self.old.lists)
            (agent_takes self.old.config self.old.lists) (heard self.old.config from.now bytes.now))) }
    {
        match hear(&self.cfg, from, bytes) {
            Heard::Refused(cause) => drop_for(step, cause),
            Heard::Told(sender, message) => self.hears(alloc, step, &sender, &message),
            Heard::Brought(sender, packet) => self.takes(alloc, step, sender, packet),
        }
    }

    /// Its configuration keeps the rules. It does nothing else than to say so.
    fn keeps_rules(&self)
        ensures { KeepsRules self.now.config }
    {
        self.cfg.keeps_rules();
    }

    /// One input: a datagram or a tick. The step is what the table says, and so are the lists that are left.
    pub(crate) fn turn(&mut self, alloc: Global, input: &Input<'_>) -> Result<Step, NoMemory>
        requires { EntriesApart self.old.config self.old.lists.traffic.inbound }
        ensures turn { IfOk result (λ step. (self.new, step)
            ≡ turned (with_lists self.old) self.old.config no_step
            (agent_step self.old.config self.old.lists (input_of input.now))) }
        ensures apart { OnOk result (EntriesApart self.new.config self.new.lists.traffic.inbound) }
    {
        self.keeps_rules();
        let mut step = Step::new(alloc);
        self.take_input(alloc, &mut step, input)?;
        Ok(step)
    }
}
