ghost use Rattle.std.specs.Prelude.{◌≡◌, ◌<◌, if◌then◌else◌, nat_lt, true, IfOk};
ghost use Rattle.std.specs.Option.{option_copied};
ghost use Rattle.manager_core.specs.Seen.{taken};
ghost use Rattle.manager_spec.specs.Leading.{on_lead, on_prepare, on_promise, on_refuse};
ghost use Rattle.paxos_spec.specs.Votes.{cast};

use crate::manager::Manager;
use wire_core::{DropCause, NoMemory, Step, Value};

impl Manager {
    /// A Prepare comes.
    #[tactic(auto, unfolding(manager_spec::specs::Leading::on_prepare), using(crate::proofs::Rooms::prepare_room))]
    pub(crate) fn on_prepare(&mut self, from: u8, ballot: u64) -> Result<Step, NoMemory>
        requires { self.old.sound ≡ true }
        ensures { IfOk result (λ step.
            (self.new, step) ≡ taken self.old (on_prepare self.old.config self.old.lists from ballot)) }
    {
        let step = self.log.replica().on_prepare(self.index, from, ballot)?;
        self.agree_heard(step)
    }

    /// A Promise comes.
    #[tactic(auto, using(crate::proofs::Rooms::promise_fits, crate::proofs::RowLaws::promise_row))]
    pub(crate) fn on_promise(
        &mut self,
        from: u8,
        ballot: u64,
        length: u64,
        vote: u64,
        value: Option<&Value>,
    ) -> Result<Step, NoMemory>
        requires sound { self.old.sound ≡ true }
        requires from { from < 5 }
        ensures { IfOk result (λ step. (self.new, step) ≡ taken self.old
            (on_promise self.old.config self.old.lists from ballot length (cast vote (option_copied value.entry)))) }
    {
        let step = self
            .log
            .replica()
            .on_promise(self.index, from, ballot, length, vote, value)?;
        self.counted(step)
    }

    /// A Refuse comes.
    #[tactic(auto, unfolding(manager_spec::specs::Leading::on_refuse), using(crate::proofs::Rooms::refuse_fits, crate::proofs::Rooms::fits_room))]
    pub(crate) fn on_refuse(&mut self, ballot: u64, promised: u64) -> Result<Step, NoMemory>
        requires { self.old.sound ≡ true }
        ensures { IfOk result (λ step.
            (self.new, step) ≡ taken self.old (on_refuse self.old.config self.old.lists ballot promised)) }
    {
        match self.log.replica().on_refuse(ballot, promised) {
            None => self.drops(DropCause::Late),
            Some(step) => {
                self.heard = self.time;
                self.agree(step)
            }
        }
    }

    /// When it last heard of a leader, with one of this ballot: not below the promise.
    fn heard_at(&self, ballot: u64) -> u64
        ensures { result ≡ (if nat_lt ballot self.now.lists.acceptor.promise
            then self.now.lists.heard
            else self.now.lists.time) }
    {
        if ballot < self.log.replica().promised() {
            self.heard
        } else {
            self.time
        }
    }

    /// A Lead comes.
    #[tactic(auto, using(crate::proofs::Rooms::lead_room, crate::proofs::RowLaws::lead_row))]
    pub(crate) fn on_lead(&mut self, from: u8, ballot: u64, length: u64) -> Result<Step, NoMemory>
        requires { self.old.sound ≡ true }
        ensures { IfOk result (λ step.
            (self.new, step) ≡ taken self.old (on_lead self.old.config self.old.lists from ballot length)) }
    {
        let step = self
            .log
            .replica()
            .on_lead(self.index, from, ballot, length)?;
        self.heard = self.heard_at(ballot);
        self.agree(step)
    }
}
