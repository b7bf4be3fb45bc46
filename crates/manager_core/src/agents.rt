ghost use Rattle.std.specs.Prelude.{◌≡◌, ◌∷◌, [], true, IfOk};
ghost use Rattle.lease_spec.specs.Table.{last_of, row_at};
ghost use Rattle.manager_log.specs.Parts.{command_of};
ghost use Rattle.manager_core.specs.Seen.{halved};
ghost use Rattle.manager_spec.specs.Agents.{answer_again, ask_after, deny_again, enqueue, grant_again};
ghost use Rattle.manager_spec.specs.Agents.{is_outstanding, on_agent_up, on_ask, on_return, return_of, returned};
ghost use Rattle.manager_spec.specs.Manager.{leases};
ghost use Rattle.manager_spec.specs.Proposal.{goes_on};
ghost use Rattle.node_spec.specs.Sends.{tell};
ghost use Rattle.node_spec.specs.Turns.{says};
ghost use Rattle.paxos_spec.specs.Leader.{value_out};

use crate::half::{Half, goes_on};
use crate::manager::Manager;
use crate::orders::{AT_LIMIT, EXHAUSTED};
use control_msg::Message;
use manager_log::{Request, grant};
use port_leases::{Outcome, Phase, Row};
use wire_core::{DropCause, Ip4, NoMemory, NodeId, Step};

impl Manager {
    /// A row that answers a node.
    #[tactic(auto, unfolding(crate::specs::Seen::halved, node_spec::specs::Steps::onto, node_spec::specs::Steps::turned))]
    fn answers(&self, to: NodeId, m: &Message) -> Result<Half, NoMemory>
        ensures { IfOk result (λ half.
            (self.now, half) ≡ halved self.now (goes_on (says self.now.lists (tell to m.now ∷ [])))) }
    {
        let mut step = Step::new(self.alloc);
        self.tell(&mut step, to, m)?;
        Ok(goes_on(step))
    }

    /// Whether the request is outstanding.
    fn is_outstanding(&self, request: &Request) -> bool
        ensures { result ≡ is_outstanding (value_out self.now.lists.memory.leader.out) (command_of request.now) }
    {
        match self.log.replica().outstanding() {
            None => false,
            Some(value) => request.is_within(&value),
        }
    }

    /// A request joins the queue, unless it waits already or the queue is full.
    #[tactic(auto, unfolding(manager_spec::specs::Agents::enqueue, crate::specs::Seen::halved, node_spec::specs::Steps::onto, node_spec::specs::Steps::turned))]
    fn enqueue(&mut self, request: Request) -> Result<Half, NoMemory>
        ensures { IfOk result (λ half.
            (self.new, half) ≡ halved self.old (enqueue self.old.lists (command_of request))) }
    {
        if self.queue.has(&request) || self.is_outstanding(&request) {
            return self.refuses(DropCause::Waiting);
        }
        if self.queue.is_full() {
            return self.refuses(DropCause::QueueFull);
        }
        self.queue.push(request)?;
        Ok(goes_on(Step::new(self.alloc)))
    }

    /// The Ask that was answered by this row comes again.
    fn grant_again(&self, n: u64) -> Result<Half, NoMemory>
        requires { self.now.sound ≡ true }
        ensures { IfOk result (λ half. (self.now, half)
            ≡ halved self.now (grant_again self.now.lists (row_at (leases self.now.config self.now.lists).rows n))) }
    {
        let Some(row) = self.log.row(n) else {
            return self.refuses(DropCause::Late);
        };
        match row.phase {
            Phase::BeingLeased => self.refuses(DropCause::Waiting),
            Phase::Freeing => self.refuses(DropCause::Late),
            Phase::Leased => self.answers(NodeId::Agent(row.agent), &grant(&row)),
        }
    }

    /// The Ask that was denied comes again.
    fn deny_again(
        &self,
        agent: u16,
        boot: u64,
        machine: Ip4,
        seq: u64,
        reason: u8,
        number: u64,
    ) -> Result<Half, NoMemory>
        ensures { IfOk result (λ half.
            (self.now, half) ≡ halved self.now (deny_again self.now.lists agent boot machine seq reason number)) }
    {
        let m = Message::Denied {
            boot,
            machine,
            seq,
            reason,
            number,
        };
        self.answers(NodeId::Agent(agent), &m)
    }

    /// The machine's last Ask comes again: what it came to decides.
    fn answer_again(
        &self,
        agent: u16,
        boot: u64,
        machine: Ip4,
        seq: u64,
        outcome: Outcome,
    ) -> Result<Half, NoMemory>
        requires { self.now.sound ≡ true }
        ensures { IfOk result (λ half. (self.now, half)
            ≡ halved self.now (answer_again self.now.config self.now.lists agent boot machine seq outcome)) }
    {
        match outcome {
            Outcome::Reserved { n, .. } => self.grant_again(n),
            Outcome::Exhausted { place } => self.deny_again(
                agent, boot, machine, seq, EXHAUSTED, place,
            ),
            Outcome::AtLimit { count } => {
                self.deny_again(agent, boot, machine, seq, AT_LIMIT, u64::from(count))
            }
        }
    }

    /// An Ask of a machine's agent in its known boot or a later one.
    #[tactic(auto, unfolding(manager_spec::specs::Agents::ask_after))]
    fn ask_after(&mut self, agent: u16, boot: u64, machine: Ip4, seq: u64) -> Result<Half, NoMemory>
        requires { self.old.sound ≡ true }
        ensures { IfOk result (λ half. (self.new, half)
            ≡ halved self.old (ask_after self.old.config self.old.lists agent boot machine seq
            (last_of (leases self.old.config self.old.lists).lasts machine))) }
    {
        let request = Request::Reserve {
            agent,
            boot,
            machine,
            seq,
        };
        let (Some((life, count)), Some(outcome)) = (
            self.log.last(machine),
            self.log.outcome(machine),
        ) else {
            return self.enqueue(request);
        };
        if life < boot || (life == boot && count < seq) {
            self.enqueue(request)
        } else if life == boot && count == seq {
            self.answer_again(agent, boot, machine, seq, outcome)
        } else {
            self.refuses(DropCause::Late)
        }
    }

    /// An Ask comes.
    #[tactic(auto, unfolding(manager_spec::specs::Agents::on_ask))]
    pub(crate) fn on_ask(
        &mut self,
        agent: u16,
        boot: u64,
        machine: Ip4,
        seq: u64,
    ) -> Result<Half, NoMemory>
        requires { self.old.sound ≡ true }
        ensures { IfOk result (λ half. (self.new, half)
            ≡ halved self.old (on_ask self.old.config self.old.lists agent boot machine seq)) }
    {
        if !self.is_primary() {
            return self.refuses(DropCause::NotPrimary);
        }
        match self.log.machine_rule(machine) {
            Some(rule) if rule.agent == agent => {}
            _ => return self.refuses(DropCause::NotMine),
        }
        if boot < self.log.known(agent) {
            return self.refuses(DropCause::Late);
        }
        self.ask_after(agent, boot, machine, seq)
    }

    /// The agent is told that the lease has ended.
    fn returned(&self, agent: u16, boot: u64, n: u64) -> Result<Half, NoMemory>
        ensures { IfOk result (λ half. (self.now, half) ≡ halved self.now (returned self.now.lists agent boot n)) }
    {
        self.answers(NodeId::Agent(agent), &Message::Returned { boot, n })
    }

    /// A Return by the row of its number.
    fn return_of(
        &mut self,
        agent: u16,
        boot: u64,
        n: u64,
        row: Option<Row>,
    ) -> Result<Half, NoMemory>
        ensures { IfOk result (λ half. (self.new, half) ≡ halved self.old (return_of self.old.lists agent boot n row)) }
    {
        let Some(row) = row else {
            return self.returned(agent, boot, n);
        };
        if row.agent != agent || row.boot != boot {
            self.refuses(DropCause::NotMine)
        } else if row.phase == Phase::Freeing {
            self.returned(agent, boot, n)
        } else {
            self.enqueue(Request::Release { n })
        }
    }

    /// A Return comes.
    #[tactic(auto, unfolding(manager_spec::specs::Agents::on_return))]
    pub(crate) fn on_return(&mut self, agent: u16, boot: u64, n: u64) -> Result<Half, NoMemory>
        requires { self.old.sound ≡ true }
        ensures { IfOk result (λ half. (self.new, half)
            ≡ halved self.old (on_return self.old.config self.old.lists agent boot n)) }
    {
        if !self.is_primary() {
            return self.refuses(DropCause::NotPrimary);
        }
        if n == 0 || u128::from(n) > 16 * u128::from(self.length()) {
            return self.refuses(DropCause::Unknown);
        }
        let row = self.log.row(n);
        self.return_of(agent, boot, n, row)
    }

    /// An AgentUp comes.
    #[tactic(auto, unfolding(manager_spec::specs::Agents::on_agent_up))]
    pub(crate) fn on_agent_up(&mut self, agent: u16, boot: u64) -> Result<Half, NoMemory>
        requires { self.old.sound ≡ true }
        ensures { IfOk result (λ half. (self.new, half)
            ≡ halved self.old (on_agent_up self.old.config self.old.lists agent boot)) }
    {
        if !self.is_primary() {
            return self.refuses(DropCause::NotPrimary);
        }
        let known = self.log.known(agent);
        if boot < known {
            self.refuses(DropCause::Late)
        } else if boot == known {
            self.answers(NodeId::Agent(agent), &Message::AgentKnown { boot })
        } else {
            self.enqueue(Request::Up { agent, boot })
        }
    }
}
