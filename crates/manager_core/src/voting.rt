ghost use Rattle.std.specs.Prelude.{◌≡◌, ◌<◌, true, IfOk};
ghost use Rattle.manager_log.specs.Log.{Fits, HasRoom};
ghost use Rattle.manager_core.specs.Rows.{tallied};
ghost use Rattle.manager_core.specs.Seen.{halved, taken};
ghost use Rattle.manager_spec.specs.Voting.{completes, on_accept, on_accepted, on_chosen, on_fetched};
ghost use Rattle.paxos_spec.specs.Acceptor.{reach};

use crate::half::{Half, goes_on, stops};
use crate::manager::Manager;
use paxos_replica::ReplicaStep;
use wire_core::{DropCause, NoMemory, Step, Value};

impl Manager {
    /// An Accept comes.
    #[tactic(auto, using(crate::proofs::Rooms::accept_fits, crate::proofs::RowLaws::accept_row))]
    pub(crate) fn on_accept(
        &mut self,
        from: u8,
        ballot: u64,
        slot: u64,
        value: &Value,
    ) -> Result<Step, NoMemory>
        requires { self.old.sound ≡ true }
        ensures { IfOk result (λ step.
            (self.new, step) ≡ taken self.old (on_accept self.old.config self.old.lists from ballot slot value.now)) }
    {
        let step = self
            .log
            .replica()
            .on_accept(self.index, from, ballot, slot, value)?;
        self.counted_heard(step)
    }

    /// The third Accepted: the value is learned and told, and then the command messages.
    #[tactic(auto, unfolding(manager_spec::specs::Voting::completes, node_spec::specs::Steps::onto, node_spec::specs::Steps::turned))]
    fn completes(&mut self, step: ReplicaStep) -> Result<Step, NoMemory>
        requires sound { self.old.sound ≡ true }
        requires room { HasRoom (reach self.old.lists.acceptor) step.entry }
        ensures { IfOk result (λ out.
            (self.new, out) ≡ taken self.old (completes self.old.config self.old.lists step)) }
    {
        let mut out = Step::new(self.alloc);
        let effects = self.take(&mut out, step)?;
        self.orders(&mut out, effects.as_slice())?;
        Ok(out)
    }

    /// The step of an Accepted: with an entry it is the third.
    #[tactic(auto, unfolding(crate::specs::Rows::tallied, manager_log::specs::Log::Fits, crate::specs::Seen::halved, node_spec::specs::Steps::turned))]
    fn tallied(&mut self, step: Option<ReplicaStep>) -> Result<Half, NoMemory>
        requires sound { self.old.sound ≡ true }
        requires fits { Fits self.old.lists.acceptor step }
        ensures { IfOk result (λ half.
            (self.new, half) ≡ halved self.old (tallied self.old.config self.old.lists step)) }
    {
        let Some(step) = step else {
            return self.refuses(DropCause::Late);
        };
        if step.entry().is_some() {
            let out = self.completes(step)?;
            Ok(goes_on(out))
        } else {
            let out = self.agree(step)?;
            Ok(stops(out))
        }
    }

    /// An Accepted comes.
    #[tactic(auto, using(crate::proofs::Rooms::accepted_fits, crate::proofs::RowLaws::accepted_row))]
    pub(crate) fn on_accepted(&mut self, from: u8, ballot: u64, slot: u64) -> Result<Half, NoMemory>
        requires sound { self.old.sound ≡ true }
        requires from { from < 5 }
        ensures { IfOk result (λ half.
            (self.new, half) ≡ halved self.old (on_accepted self.old.config self.old.lists from ballot slot)) }
    {
        let step = self
            .log
            .replica()
            .on_accepted(self.index, from, ballot, slot)?;
        self.tallied(step)
    }

    /// A Chosen comes.
    #[tactic(auto, using(crate::proofs::Rooms::chosen_fits, crate::proofs::RowLaws::chosen_row))]
    pub(crate) fn on_chosen(
        &mut self,
        from: u8,
        slot: u64,
        ballot: u64,
        value: &Value,
    ) -> Result<Step, NoMemory>
        requires { self.old.sound ≡ true }
        ensures { IfOk result (λ step.
            (self.new, step) ≡ taken self.old (on_chosen self.old.config self.old.lists from slot ballot value.now)) }
    {
        let step = self
            .log
            .replica()
            .on_chosen(self.index, from, slot, ballot, value)?;
        self.counted_heard(step)
    }

    /// A Fetch comes.
    #[tactic(auto, using(crate::proofs::Rooms::fetch_fits, crate::proofs::RowLaws::fetch_row))]
    pub(crate) fn on_fetch(&mut self, from: u8, slot: u64) -> Result<Step, NoMemory>
        requires { self.old.sound ≡ true }
        ensures { IfOk result (λ step.
            (self.new, step) ≡ taken self.old (on_fetched self.old.config self.old.lists from slot)) }
    {
        let step = self.log.replica().on_fetch(self.index, from, slot)?;
        self.counted(step)
    }
}
