ghost use Rattle.std.specs.Prelude.{◌≡◌, ◌==◌, ◌&&◌, is_some, true, IfOk, OnOk};
ghost use Rattle.lease_spec.specs.Table.{row_at};
ghost use Rattle.manager_core.specs.Seen.{halved, with_lists};
ghost use Rattle.manager_spec.specs.declared.marks.Marks.{Marks};
ghost use Rattle.manager_spec.specs.Known.{hear_mux, marks_at, set_marks};
ghost use Rattle.manager_spec.specs.Manager.{leases};
ghost use Rattle.manager_spec.specs.Muxes.{hear_epoch, on_ack, on_hello, on_mux_refuse, programmed_by, unprogrammed_by};
ghost use Rattle.paxos_spec.specs.Leader.{is_primary};

use crate::half::{Half, goes_on};
use crate::manager::Manager;
use manager_log::{acknowledge, boot_of, hear_again, mark, marks_at};
use manager_spec::Marks;
use wire_core::{DropCause, NoMemory, Step};

impl Manager {
    /// A mux was heard, in this boot.
    fn hear_mux(&mut self, mux: u16, boot: u64)
        ensures { self.new ≡ with_lists self.old (hear_mux self.old.lists mux boot) }
    {
        hear_again(&mut self.muxes, &mut self.pending, mux, boot, self.time);
    }

    /// An epoch was heard of. One above its own ballot makes it step down.
    #[tactic(auto, using(manager_log::proofs::PeerLaws::epoch_heard))]
    fn hear_epoch(&mut self, epoch: u64)
        ensures { self.new ≡ with_lists self.old (hear_epoch self.old.lists epoch) }
    {
        self.log.on_epoch(epoch);
        self.rest();
    }

    /// A MuxHello comes.
    #[tactic(auto, unfolding(manager_spec::specs::Muxes::on_hello, crate::specs::Seen::halved, node_spec::specs::Steps::onto, node_spec::specs::Steps::turned))]
    pub(crate) fn on_hello(&mut self, mux: u16, boot: u64, epoch: u64) -> Result<Half, NoMemory>
        ensures { IfOk result (λ half. (self.new, half)
            ≡ halved self.old (on_hello self.old.config self.old.lists mux boot epoch)) }
    {
        if boot < boot_of(self.muxes.as_slice(), mux) {
            return self.refuses(DropCause::Late);
        }
        self.hear_mux(mux, boot);
        self.hear_epoch(epoch);
        Ok(goes_on(Step::new(self.alloc)))
    }

    /// A MuxRefuse comes.
    #[tactic(auto, unfolding(manager_spec::specs::Muxes::on_mux_refuse, crate::specs::Seen::halved, node_spec::specs::Steps::onto, node_spec::specs::Steps::turned))]
    pub(crate) fn on_mux_refuse(&mut self, mux: u16, boot: u64, kept: u64) -> Result<Half, NoMemory>
        ensures { IfOk result (λ half. (self.new, half)
            ≡ halved self.old (on_mux_refuse self.old.config self.old.lists mux boot kept)) }
    {
        self.hear_mux(mux, boot);
        self.hear_epoch(kept);
        Ok(goes_on(Step::new(self.alloc)))
    }

    /// Row n has these acknowledgements.
    fn acknowledge(&mut self, n: u64, marks: Marks) -> Result<(), NoMemory>
        ensures { OnOk result (self.new ≡ with_lists self.old
            (record self.old.lists { acks = set_marks self.old.lists.acks n marks })) }
    {
        acknowledge(
            &mut self.acks,
            &mut self.pending,
            self.muxes.as_slice(),
            n,
            marks,
        )
    }

    /// Whether an acknowledgement of this epoch and row counts.
    fn is_ours(&self, epoch: u64, n: u64) -> bool
        requires { self.now.sound ≡ true }
        ensures { result ≡ (is_primary self.now.lists.memory.leader.stage
            && (self.now.lists.memory.leader.ballot == epoch)
            && is_some (row_at (leases self.now.config self.now.lists).rows n)) }
    {
        self.is_primary() && self.log.replica().ballot() == epoch && self.log.row(n).is_some()
    }

    /// A Programmed comes.
    #[tactic(auto, unfolding(manager_spec::specs::Muxes::on_ack, crate::specs::Seen::halved, node_spec::specs::Steps::onto, node_spec::specs::Steps::turned))]
    pub(crate) fn on_programmed(
        &mut self,
        mux: u16,
        epoch: u64,
        boot: u64,
        n: u64,
    ) -> Result<Half, NoMemory>
        requires { self.old.sound ≡ true }
        ensures { IfOk result (λ half. (self.new, half)
            ≡ halved self.old (on_ack self.old.config self.old.lists programmed_by mux epoch boot n)) }
    {
        if !self.is_ours(epoch, n) {
            return self.refuses(DropCause::Late);
        }
        let mut marks = marks_at(&self.acks, n);
        mark(&mut marks.programmed, mux, boot);
        self.acknowledge(n, marks)?;
        self.hear_mux(mux, boot);
        Ok(goes_on(Step::new(self.alloc)))
    }

    /// An Unprogrammed comes.
    #[tactic(auto, unfolding(manager_spec::specs::Muxes::on_ack, crate::specs::Seen::halved, node_spec::specs::Steps::onto, node_spec::specs::Steps::turned))]
    pub(crate) fn on_unprogrammed(
        &mut self,
        mux: u16,
        epoch: u64,
        boot: u64,
        n: u64,
    ) -> Result<Half, NoMemory>
        requires { self.old.sound ≡ true }
        ensures { IfOk result (λ half. (self.new, half)
            ≡ halved self.old (on_ack self.old.config self.old.lists unprogrammed_by mux epoch boot n)) }
    {
        if !self.is_ours(epoch, n) {
            return self.refuses(DropCause::Late);
        }
        let mut marks = marks_at(&self.acks, n);
        mark(&mut marks.unprogrammed, mux, boot);
        self.acknowledge(n, marks)?;
        self.hear_mux(mux, boot);
        Ok(goes_on(Step::new(self.alloc)))
    }
}
