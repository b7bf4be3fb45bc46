ghost use Rattle.std.specs.Prelude.{◌≡◌, ◌<◌, ◌++◌, false, true, IfOk, OnOk};
ghost use Rattle.std.specs.List.{flat_map};
ghost use Rattle.manager_core.specs.Seen.{halved, taken};
ghost use Rattle.manager_spec.specs.Clock.{accept_again, lead_again, leads, on_tick, runs_for};
ghost use Rattle.manager_spec.specs.Orders.{push};
ghost use Rattle.node_spec.specs.Sends.{others};
ghost use Rattle.node_spec.specs.Steps.{outgoing, with_sends};
ghost use Rattle.paxos_spec.specs.Leader.{is_primary};
ghost use Rattle.paxos_spec.specs.Replica.{on_campaign};

use crate::half::{Half, goes_on, stops};
use crate::manager::Manager;
use control_msg::Message;
use manager_log::say_said;
use node_spec::say_each;
use wire_core::{NoMemory, Step};

/// All replicas but this one.
fn others(me: u8) -> &'static [u8]
    requires { me < 5 }
    ensures { result.now ≡ others me }
{
    match me {
        0 => &[1, 2, 3, 4],
        1 => &[0, 2, 3, 4],
        2 => &[0, 1, 3, 4],
        3 => &[0, 1, 2, 4],
        _ => &[0, 1, 2, 3],
    }
}

impl Manager {
    /// Its ballot and the length of its log, to the others.
    fn lead_again(&self, out: &mut Step) -> Result<(), NoMemory>
        ensures { OnOk result (out.new
            ≡ with_sends (flat_map (outgoing self.now.config) (lead_again self.now.lists)) out.old) }
    {
        let replica = self.log.replica();
        let lead = Message::Lead {
            ballot: replica.ballot(),
            length: replica.length(),
        };
        say_each(self.alloc, &self.cfg, out, others(self.index), &lead)
    }

    /// The Accept of what is outstanding, to all five.
    fn accept_again(&self, out: &mut Step) -> Result<(), NoMemory>
        ensures { OnOk result (out.new
            ≡ with_sends (flat_map (outgoing self.now.config) (accept_again self.now.lists)) out.old) }
    {
        let said = self.log.replica().accept_again(self.index)?;
        say_said(self.alloc, &self.cfg, out, said.as_ref())
    }

    /// What a primary says at a tick: Lead, what is outstanding again, and the push.
    #[tactic(auto, using(manager_log::proofs::TurnLaws::flat_three))]
    fn say_leads(&self, out: &mut Step) -> Result<(), NoMemory>
        requires { self.now.sound ≡ true }
        ensures { OnOk result (out.new ≡ with_sends (flat_map (outgoing self.now.config)
            (lead_again self.now.lists ++ accept_again self.now.lists ++ push self.now.config self.now.lists)) out.old) }
    {
        self.lead_again(out)?;
        self.accept_again(out)?;
        self.push(out)
    }

    /// A primary leads on.
    #[tactic(auto, using(node_spec::proofs::Turning::says_turned))]
    fn leads(&mut self) -> Result<Step, NoMemory>
        requires { self.old.sound ≡ true }
        ensures { IfOk result (λ step. (self.new, step) ≡ taken self.old (leads self.old.config self.old.lists)) }
    {
        let mut step = Step::new(self.alloc);
        self.look()?;
        self.say_leads(&mut step)?;
        Ok(step)
    }

    /// It runs for election, where a ballot of its own fits.
    #[tactic(auto, unfolding(crate::specs::Rows::ran, manager_log::specs::Log::Fits, node_spec::specs::Steps::onto, node_spec::specs::Steps::turned), using(manager_log::proofs::PendingLaws::current_new, crate::proofs::RowLaws::campaign_row, crate::proofs::Rooms::campaign_fits, crate::proofs::Rooms::fits_room))]
    fn runs(&mut self) -> Result<Step, NoMemory>
        requires sound { self.old.sound ≡ true }
        requires may { is_primary self.old.lists.memory.leader.stage ≡ false }
        ensures { IfOk result (λ step. (self.new, step) ≡ taken self.old (runs_for self.old.config self.old.lists
            (on_campaign self.old.lists.index self.old.lists.acceptor self.old.lists.memory))) }
    {
        let Some(step) = self.log.replica().campaign(self.index)? else {
            return Ok(Step::new(self.alloc));
        };
        self.acks.clear();
        self.pending.clear();
        self.queue.clear();
        self.agree_heard(step)
    }

    /// The time comes, in milliseconds. A primary leads on; another runs for election once it heard nothing for
    /// `lead_silent`.
    #[tactic(auto, unfolding(manager_spec::specs::Clock::on_tick, crate::specs::Seen::halved, node_spec::specs::Steps::onto, node_spec::specs::Steps::turned))]
    pub(crate) fn on_tick(&mut self, now: u64) -> Result<Half, NoMemory>
        requires { self.old.sound ≡ true }
        ensures { IfOk result (λ half. (self.new, half)
            ≡ halved self.old (on_tick self.old.config self.old.lists now)) }
    {
        self.time = self.time.max(now);
        if self.is_primary() {
            return Ok(goes_on(self.leads()?));
        }
        if self.time.saturating_sub(self.heard) < self.cfg.timers().lead_silent {
            return Ok(stops(Step::new(self.alloc)));
        }
        Ok(stops(self.runs()?))
    }
}
