ghost use Rattle.std.specs.Prelude.{◌≡◌, ◌<◌, true, IfOk, IfSome};
ghost use Rattle.manager_core.specs.Seen.{IsBelowFive, halved, taken, with_lists};
ghost use Rattle.manager_spec.specs.ManagerTable.{from_agent, from_mux, from_replica, manager_half, manager_hears, manager_step, manager_takes, refuses};
ghost use Rattle.manager_spec.specs.Proposal.{whole};
ghost use Rattle.node_spec.specs.Bodies.{Spells};
ghost use Rattle.node_spec.specs.Datagrams.{admitted, by_heard, decoded, is_mux, is_redirect};
ghost use Rattle.node_spec.specs.Steps.{input_of, turned};
ghost use Rattle.node_spec.specs.Turns.{Arrived};
ghost use Rattle.control_msg.specs.Reading.{message_at};
ghost use Rattle.paxos_spec.specs.Leader.{value_out};
ghost use Rattle.wire_core.specs.Commands.{IsValue};
ghost use Rattle.wire_core.specs.Steps.{no_step};

use crate::half::{Half, stops};
use crate::manager::Manager;
use control_msg::{Frame, Message, decode};
use node_spec::is_in_bytes;
use std::alloc::AllocError;
use vip_config::Who;
use wire_core::{DropCause, Input, NoMemory, Socket, Step};

fn is_redirect(m: &Message) -> bool
    ensures { result ≡ is_redirect m.now }
{
    matches!(m, Message::Redirect { .. })
}

fn is_mux(sender: Who) -> bool
    ensures { result ≡ is_mux sender }
{
    matches!(sender, Who::Mux(_))
}

impl Manager {
    /// The messages of replicas, from 0 to 4.
    #[tactic(auto, unfolding(crate::specs::Seen::halved, node_spec::specs::Steps::turned))]
    fn from_replica(&mut self, from: u8, m: &Message) -> Result<Half, NoMemory>
        requires sound { self.old.sound ≡ true }
        requires from { from < 5 }
        ensures { IfOk result (λ half.
            (self.new, half) ≡ halved self.old (from_replica self.old.config self.old.lists from m.now)) }
    {
        let step = match m {
            Message::Prepare { ballot } => self.on_prepare(from, *ballot)?,
            Message::Promise {
                ballot,
                length,
                vote,
                value,
            } => self.on_promise(from, *ballot, *length, *vote, value.as_ref())?,
            Message::Accept {
                ballot,
                slot,
                value,
            } => self.on_accept(from, *ballot, *slot, value)?,
            Message::Accepted { ballot, slot } => return self.on_accepted(from, *ballot, *slot),
            Message::Refuse { ballot, promised } => self.on_refuse(*ballot, *promised)?,
            Message::Chosen {
                slot,
                ballot,
                value,
            } => self.on_chosen(from, *slot, *ballot, value)?,
            Message::Fetch { slot } => self.on_fetch(from, *slot)?,
            Message::Lead { ballot, length } => self.on_lead(from, *ballot, *length)?,
            _ => return self.refuses(DropCause::WrongRole),
        };
        Ok(stops(step))
    }

    /// The messages of muxes.
    fn from_mux(&mut self, mux: u16, m: &Message) -> Result<Half, NoMemory>
        requires { self.old.sound ≡ true }
        ensures { IfOk result (λ half.
            (self.new, half) ≡ halved self.old (from_mux self.old.config self.old.lists mux m.now)) }
    {
        match m {
            Message::MuxHello { boot, epoch } => self.on_hello(mux, *boot, *epoch),
            Message::MuxRefuse { boot, kept, .. } => self.on_mux_refuse(mux, *boot, *kept),
            Message::Programmed { epoch, boot, n } => self.on_programmed(mux, *epoch, *boot, *n),
            Message::Unprogrammed { epoch, boot, n } => self.on_unprogrammed(
                mux, *epoch, *boot, *n,
            ),
            _ => self.refuses(DropCause::WrongRole),
        }
    }

    /// The messages of agents.
    fn from_agent(&mut self, agent: u16, m: &Message) -> Result<Half, NoMemory>
        requires { self.old.sound ≡ true }
        ensures { IfOk result (λ half.
            (self.new, half) ≡ halved self.old (from_agent self.old.config self.old.lists agent m.now)) }
    {
        match m {
            Message::Ask { boot, machine, seq } => self.on_ask(agent, *boot, *machine, *seq),
            Message::Return { boot, n } => self.on_return(agent, *boot, *n),
            Message::AgentUp { boot } => self.on_agent_up(agent, *boot),
            _ => self.refuses(DropCause::WrongRole),
        }
    }

    /// The third and the fourth test of a message: a Redirect is of a mux, and a message is of a node. Then by the
    /// sender's role.
    #[tactic(auto, unfolding(node_spec::specs::Datagrams::admitted, manager_spec::specs::ManagerTable::manager_hears))]
    fn on_message(&mut self, sender: Who, m: &Message) -> Result<Half, NoMemory>
        requires sound { self.old.sound ≡ true }
        requires below { IsBelowFive sender }
        ensures { IfOk result (λ half. (self.new, half) ≡ halved self.old (by_heard (refuses self.old.lists)
            (manager_hears self.old.config self.old.lists) (manager_takes self.old.lists) (admitted sender m.now))) }
    {
        if is_redirect(m) && !is_mux(sender) {
            return self.refuses(DropCause::NotFromMux);
        }
        match sender {
            Who::Replica(from) => self.from_replica(from, m),
            Who::Mux(mux) => self.from_mux(mux, m),
            Who::Agent(agent) => self.from_agent(agent, m),
            Who::Machine(_) | Who::Outside => self.refuses(DropCause::NotNode),
        }
    }

    /// The second test: what a control frame holds is a message.
    fn on_control(&mut self, sender: Who, bytes: &[u8]) -> Result<Half, NoMemory>
        requires sound { self.old.sound ≡ true }
        requires below { IsBelowFive sender }
        ensures { IfOk result (λ half. (self.new, half) ≡ halved self.old (by_heard (refuses self.old.lists)
            (manager_hears self.old.config self.old.lists) (manager_takes self.old.lists)
            (decoded sender (message_at bytes.now)))) }
    {
        match decode(bytes) {
            Err(_) => self.refuses(DropCause::BadMessage),
            Ok(m) => self.on_message(sender, &m),
        }
    }

    /// A datagram comes: first, it is a frame. A packet is nothing for a replica.
    #[tactic(auto, unfolding(manager_spec::specs::ManagerTable::manager_half, node_spec::specs::Datagrams::heard), using(crate::proofs::OwnerLaws::owner_below))]
    fn on_datagram(&mut self, from: &Socket, bytes: &[u8]) -> Result<Half, NoMemory>
        requires { self.old.sound ≡ true }
        ensures { IfOk result (λ half. (self.new, half)
            ≡ halved self.old (manager_half self.old.config self.old.lists (Arrived from.now bytes.now))) }
    {
        self.cfg.keeps_rules();
        let sender = self.cfg.who(from);
        match Frame::read(bytes) {
            None => self.refuses(DropCause::BadFrame),
            Some(Frame::Control(message)) => self.on_control(sender, message),
            Some(Frame::Packet(_)) => self.refuses(DropCause::WrongRole),
        }
    }

    /// The row of an input.
    #[tactic(auto, unfolding(manager_spec::specs::ManagerTable::manager_half))]
    fn half(&mut self, input: &Input) -> Result<Half, NoMemory>
        requires { self.old.sound ≡ true }
        ensures { IfOk result (λ half. (self.new, half)
            ≡ halved self.old (manager_half self.old.config self.old.lists (input_of input.now))) }
    {
        match *input {
            Input::Datagram { from, bytes } => self.on_datagram(&from, bytes),
            Input::Tick { now } => self.on_tick(now),
        }
    }

    /// What is outstanding is a value. It does nothing else than to say so.
    fn proposes_a_value(&self)
        ensures { IfSome (value_out self.now.lists.memory.leader.out) IsValue }
    {
        if let Some(value) = self.log.replica().outstanding() {
            value.keeps_rules();
        }
    }

    /// What an input makes of a whole replica: its row, and the proposal where one follows.
    #[tactic(auto, unfolding(manager_spec::specs::ManagerTable::manager_step, manager_spec::specs::Proposal::whole, crate::specs::Seen::halved, node_spec::specs::Steps::turned), using(manager_log::proofs::TurnLaws::proposed_onto))]
    fn take_input(&mut self, input: &Input) -> Result<Step, NoMemory>
        requires { self.old.sound ≡ true }
        ensures { IfOk result (λ step. (self.new, step) ≡ turned (with_lists self.old) self.old.config no_step
            (manager_step self.old.config self.old.lists (input_of input.now))) }
    {
        let mut half = self.half(input)?;
        if half.proposes {
            self.propose(&mut half.step)?;
        }
        Ok(half.step)
    }

    /// What an input makes of a replica: its step, whose entry is to be durable before a datagram leaves. Every input is
    /// taken: one that is dropped leaves all as it was, and its cause is noted. Without memory it isn't to be used again,
    /// and where it isn't whole it says no more than that.
    pub fn handle(&mut self, input: &Input) -> Result<Step, NoMemory>
        ensures turned { IfOk result (λ step. (self.new, step) ≡ turned (with_lists self.old) self.old.config no_step
            (manager_step self.old.config self.old.lists (input_of input.now))) }
        ensures written { IfOk result (λ step. Spells step.entry
            (manager_step self.old.config self.old.lists (input_of input.now)).entry) }
    {
        if !self.log.is_sound() {
            return Err(AllocError);
        }
        is_in_bytes(input);
        self.proposes_a_value();
        let step = self.take_input(input)?;
        Ok(step)
    }
}
