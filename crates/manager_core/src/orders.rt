ghost use Rattle.std.specs.Prelude.{◌≡◌, ◌∷◌, map, true, OnOk};
ghost use Rattle.std.specs.List.{flat_map};
ghost use Rattle.lease_spec.specs.Table.{row_at};
ghost use Rattle.manager_spec.specs.Known.{running};
ghost use Rattle.manager_spec.specs.Manager.{leases};
ghost use Rattle.manager_spec.specs.Orders.{denied, known, order_of, orders, orders_of};
ghost use Rattle.manager_spec.specs.Orders.{program_new, unprogram};
ghost use Rattle.node_spec.specs.Sends.{tell};
ghost use Rattle.node_spec.specs.Steps.{outgoing, turned, with_sends};
ghost use Rattle.control_msg.specs.declared.message.Message.TheVariants.{Returned};
ghost use Rattle.vip_config.specs.Serving.{agent_with};
ghost use Rattle.wire_core.specs.declared.node.NodeId.TheVariants.{Agent};
ghost use Rattle.manager_core.specs.Seen.{with_lists};

use crate::manager::Manager;
use control_msg::Message;
use manager_log::{forget, grant, program_all, unprogram_all};
use node_spec::say;
use port_leases::{Effect, Phase, Row};
use wire_core::{Ip4, NoMemory, NodeId, Step};

/// The reasons of a Denied: no range was free, or the machine had as many as it may.
pub const EXHAUSTED: u8 = 1;

pub const AT_LIMIT: u8 = 2;

impl Manager {
    /// One more message to a node.
    pub(crate) fn tell(&self, out: &mut Step, to: NodeId, m: &Message) -> Result<(), NoMemory>
        ensures { OnOk result (out.new ≡ with_sends (outgoing self.now.config (tell to m.now)) out.old) }
    {
        say(self.alloc, &self.cfg, out, to, m)
    }

    /// A machine's agent is told that there is no range.
    fn deny(
        &self,
        out: &mut Step,
        boot: u64,
        machine: Ip4,
        seq: u64,
        reason: u8,
        number: u64,
    ) -> Result<(), NoMemory>
        ensures { OnOk result (out.new ≡ with_sends (flat_map (outgoing self.now.config)
            (denied (agent_with self.now.config machine) boot machine seq reason number)) out.old) }
    {
        match self.cfg.agent_of(machine) {
            None => Ok(()),
            Some(agent) => {
                let m = Message::Denied {
                    boot,
                    machine,
                    seq,
                    reason,
                    number,
                };
                self.tell(out, NodeId::Agent(agent), &m)
            }
        }
    }

    /// A new row is told to muxes where it is still BeingLeased.
    fn program_new(&self, out: &mut Step, n: u64) -> Result<(), NoMemory>
        requires { self.now.sound ≡ true }
        ensures { OnOk result (out.new ≡ with_sends (flat_map (outgoing self.now.config)
            (program_new self.now.lists.memory.leader.ballot (running self.now.lists)
            (row_at (leases self.now.config self.now.lists).rows n))) out.old) }
    {
        match self.log.row(n) {
            Some(row) if row.phase == Phase::BeingLeased => {
                let epoch = self.log.replica().ballot();
                program_all(
                    self.alloc,
                    &self.cfg,
                    out,
                    epoch,
                    self.muxes.as_slice(),
                    row,
                )
            }
            _ => Ok(()),
        }
    }

    /// An agent and the muxes are told that a lease ends.
    fn release(&self, out: &mut Step, row: Row) -> Result<(), NoMemory>
        ensures { OnOk result (out.new ≡ with_sends (flat_map (outgoing self.now.config)
            (tell (Agent row.agent) (Returned row.boot row.n)
            ∷ map (unprogram self.now.lists.memory.leader.ballot row) (running self.now.lists))) out.old) }
    {
        let m = Message::Returned {
            boot: row.boot,
            n: row.n,
        };
        self.tell(out, NodeId::Agent(row.agent), &m)?;
        let epoch = self.log.replica().ballot();
        unprogram_all(
            self.alloc,
            &self.cfg,
            out,
            epoch,
            self.muxes.as_slice(),
            row,
        )
    }

    /// An agent is told that its boot is known, where it is configured.
    fn tell_known(&self, out: &mut Step, agent: u16, boot: u64) -> Result<(), NoMemory>
        ensures { OnOk result (out.new ≡ with_sends (flat_map (outgoing self.now.config)
            (known self.now.config agent boot)) out.old) }
    {
        if usize::from(agent) < self.cfg.agents().len() {
            self.tell(out, NodeId::Agent(agent), &Message::AgentKnown { boot })
        } else {
            Ok(())
        }
    }

    /// What is said of one effect.
    fn order(&self, out: &mut Step, effect: Effect) -> Result<(), NoMemory>
        requires { self.now.sound ≡ true }
        ensures { OnOk result (out.new ≡ with_sends (flat_map (outgoing self.now.config)
            (order_of self.now.config self.now.lists.memory.leader.ballot (running self.now.lists)
            (leases self.now.config self.now.lists).rows effect)) out.old) }
    {
        match effect {
            Effect::Reserved { row } => self.program_new(out, row.n),
            Effect::Exhausted {
                machine,
                boot,
                seq,
                place,
            } => self.deny(out, boot, machine, seq, EXHAUSTED, place),
            Effect::AtLimit {
                machine,
                boot,
                seq,
                count,
            } => self.deny(out, boot, machine, seq, AT_LIMIT, u64::from(count)),
            Effect::Granted { row } => self.tell(out, NodeId::Agent(row.agent), &grant(&row)),
            Effect::Released { row } => self.release(out, row),
            Effect::Known { agent, boot } => self.tell_known(out, agent, boot),
            Effect::Freed { .. } | Effect::Cleared { .. } => Ok(()),
        }
    }

    /// What is said of effects, in their order.
    #[tactic(auto, unfolding(manager_spec::specs::Orders::orders_of))]
    fn say_orders(&self, out: &mut Step, effects: &[Effect]) -> Result<(), NoMemory>
        requires { self.now.sound ≡ true }
        ensures { OnOk result (out.new ≡ with_sends (flat_map (outgoing self.now.config)
            (orders_of self.now.config self.now.lists.memory.leader.ballot (running self.now.lists)
            (leases self.now.config self.now.lists).rows effects.now)) out.old) }
    {
        for effect in effects {
            self.order(out, *effect)?;
        }
        Ok(())
    }

    /// The command messages of what was learned: to muxes and agents, in the order of what was done. Looks at each mux
    /// for each row that was made or given back.
    #[tactic(auto, using(node_spec::proofs::Turning::says_turned))]
    pub(crate) fn orders(&mut self, out: &mut Step, effects: &[Effect]) -> Result<(), NoMemory>
        requires { self.old.sound ≡ true }
        ensures { OnOk result ((self.new, out.new) ≡ turned (with_lists self.old) self.old.config out.old
            (orders self.old.config effects.now self.old.lists)) }
    {
        self.say_orders(out, effects)?;
        forget(&mut self.acks, &mut self.pending, &self.log, effects);
        Ok(())
    }
}
