// What a primary commands: Program and Unprogram.
ghost use Rattle.std.specs.Prelude.{◌≡◌, Some, OnOk};
ghost use Rattle.mux_core.specs.Seen.{with_lists};
ghost use Rattle.mux_spec.specs.Commands.{on_program, on_unprogram, programs, raised, refused, unprograms};
ghost use Rattle.node_spec.specs.Steps.{body_of, turned};
ghost use Rattle.wire_core.specs.declared.entry.Entry.TheVariants.{Epoch};
ghost use Rattle.wire_core.specs.Steps.{with_entry};

use crate::mux::Mux;
use crate::notes::drop_for;
use control_msg::Message;
use mux_epochs::admit;
use mux_spec::{Admit, Order, Programmed};
use node_spec::{entry_bytes, say};
use std::alloc::Global;
use wire_core::{DropCause, Entry, Ip4, NoMemory, Step};

impl Mux {
    /// A command that isn't obeyed is dropped, and refused to its sender.
    #[tactic(auto, unfolding(mux_spec::specs::Commands::refused), using(crate::proofs::Turns::refused_turned))]
    fn refuse(
        &mut self,
        alloc: Global,
        step: &mut Step,
        o: &Order,
        cause: DropCause,
    ) -> Result<(), NoMemory>
        ensures { OnOk result ((self.new, step.new)
            ≡ turned (with_lists self.old) self.old.config step.old (refused self.old.lists o.now cause)) }
    {
        let refusal = Message::MuxRefuse {
            epoch: o.epoch,
            boot: self.gate.boot,
            kept: self.gate.epoch,
        };
        say(alloc, self.routes.config(), step, o.from, &refusal)?;
        drop_for(step, cause)
    }

    /// A Program that is obeyed.
    #[tactic(auto, unfolding(mux_spec::specs::Commands::programs), using(node_spec::proofs::Turning::drop_turned, node_spec::proofs::Turning::send_turned))]
    fn program(
        &mut self,
        alloc: Global,
        step: &mut Step,
        o: &Order,
        machine: Ip4,
    ) -> Result<(), NoMemory>
        ensures { OnOk result ((self.new, step.new)
            ≡ turned (with_lists self.old) self.old.config step.old
            (programs self.old.config o.now machine self.old.lists)) }
    {
        if !self.routes.may_have(&o.range, machine) {
            return drop_for(step, DropCause::NotMine);
        }
        match self.routes.program(o.n, &o.range, machine) {
            Programmed::Old { kept } => drop_for(step, DropCause::OldNumber(kept)),
            Programmed::Set | Programmed::Same => {
                let done = Message::Programmed {
                    epoch: o.epoch,
                    boot: o.boot,
                    n: o.n,
                };
                say(alloc, self.routes.config(), step, o.from, &done)
            }
        }
    }

    /// An Unprogram that is obeyed.
    #[tactic(auto, unfolding(mux_spec::specs::Commands::unprograms), using(node_spec::proofs::Turning::drop_turned, node_spec::proofs::Turning::send_turned))]
    fn unprogram(&mut self, alloc: Global, step: &mut Step, o: &Order) -> Result<(), NoMemory>
        ensures { OnOk result ((self.new, step.new)
            ≡ turned (with_lists self.old) self.old.config step.old
            (unprograms self.old.config o.now self.old.lists)) }
    {
        if !self.routes.is_leasable(&o.range) {
            return drop_for(step, DropCause::NotMine);
        }
        self.routes.unprogram(o.n, &o.range);
        let done = Message::Unprogrammed {
            epoch: o.epoch,
            boot: o.boot,
            n: o.n,
        };
        say(alloc, self.routes.config(), step, o.from, &done)
    }

    /// A greater epoch is kept from here on, and made durable.
    fn raise(&mut self, alloc: Global, step: &mut Step, epoch: u64) -> Result<(), NoMemory>
        ensures mux { self.new ≡ with_lists self.old (raised self.old.lists epoch) }
        ensures step { OnOk result (step.new ≡ with_entry (Some (body_of (Epoch epoch))) step.old) }
    {
        self.gate.epoch = epoch;
        step.write(Some(entry_bytes(alloc, &Entry::Epoch { epoch })?));
        Ok(())
    }

    /// A replica's Program.
    #[tactic(auto, unfolding(mux_spec::specs::Commands::on_program), using(crate::proofs::Turns::raised_turned))]
    pub(crate) fn on_program(
        &mut self,
        alloc: Global,
        step: &mut Step,
        o: &Order,
        machine: Ip4,
    ) -> Result<(), NoMemory>
        ensures { OnOk result ((self.new, step.new)
            ≡ turned (with_lists self.old) self.old.config step.old
            (on_program self.old.config self.old.lists o.now machine)) }
    {
        match admit(&self.gate, o.epoch, o.boot) {
            Admit::WrongBoot(kept) => self.refuse(alloc, step, o, DropCause::WrongBoot(kept)),
            Admit::OldEpoch(kept) => self.refuse(alloc, step, o, DropCause::OldEpoch(kept)),
            Admit::Raise(epoch) => {
                self.raise(alloc, step, epoch)?;
                self.program(alloc, step, o, machine)
            }
            Admit::Yes => self.program(alloc, step, o, machine),
        }
    }

    /// A replica's Unprogram.
    #[tactic(auto, unfolding(mux_spec::specs::Commands::on_unprogram), using(crate::proofs::Turns::raised_turned))]
    pub(crate) fn on_unprogram(
        &mut self,
        alloc: Global,
        step: &mut Step,
        o: &Order,
    ) -> Result<(), NoMemory>
        ensures { OnOk result ((self.new, step.new)
            ≡ turned (with_lists self.old) self.old.config step.old
            (on_unprogram self.old.config self.old.lists o.now)) }
    {
        match admit(&self.gate, o.epoch, o.boot) {
            Admit::WrongBoot(kept) => self.refuse(alloc, step, o, DropCause::WrongBoot(kept)),
            Admit::OldEpoch(kept) => self.refuse(alloc, step, o, DropCause::OldEpoch(kept)),
            Admit::Raise(epoch) => {
                self.raise(alloc, step, epoch)?;
                self.unprogram(alloc, step, o)
            }
            Admit::Yes => self.unprogram(alloc, step, o),
        }
    }
}
