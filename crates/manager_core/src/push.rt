ghost use Rattle.std.specs.Prelude.{◌≡◌, ◌<◌, ◌≤◌, ◌-◌, length, take, true, IfOk, IfSome, OnOk};
ghost use Rattle.std.specs.List.{flat_map};
ghost use Rattle.manager_spec.specs.Manager.{leases};
ghost use Rattle.manager_spec.specs.Orders.{push, push_row};
ghost use Rattle.node_spec.specs.Steps.{outgoing, with_sends};
ghost use Rattle.port_leases.specs.TableState.{onward_all, rows_above};

use crate::manager::Manager;
use manager_log::{Pushed, look, marks_at, push_each};
use port_leases::{Phase, Row};
use wire_core::{NoMemory, Step};

/// The most messages of a push.
const MOST_PUSHED: usize = 64;

impl Manager {
    /// What the muxes that aren't silent are told of a row.
    fn push_row(&self, out: &mut Step, row: Row, room: usize) -> Result<usize, NoMemory>
        ensures sends { OnOk result (out.new ≡ with_sends (flat_map (outgoing self.now.config)
            (take room (push_row self.now.config self.now.lists row))) out.old) }
        ensures room { IfOk result (λ left. left ≡ room - length (push_row self.now.config self.now.lists row)) }
    {
        let pushed = Pushed {
            epoch: self.log.replica().ballot(),
            row,
            marks: marks_at(&self.acks, row.n),
        };
        push_each(
            self.alloc,
            &self.cfg,
            out,
            &pushed,
            self.muxes.as_slice(),
            self.time,
            room,
        )
    }

    /// The rows that are new since the last push are looked at.
    pub(crate) fn look(&mut self) -> Result<(), NoMemory>
        requires { self.old.sound ≡ true }
        ensures { OnOk result (self.new ≡ self.old) }
    {
        look(
            &mut self.pending,
            &self.log,
            &self.acks,
            self.muxes.as_slice(),
        )
    }

    /// Of the rows with numbers above this one and up to the one that is answered no mux has to be told.
    fn quiet_to(&self, above: u64) -> u64
        requires { self.now.sound ≡ true }
        ensures further { above ≤ result }
        ensures quiet { flat_map (push_row self.now.config self.now.lists)
            (rows_above (leases self.now.config self.now.lists).rows above)
            ≡ flat_map (push_row self.now.config self.now.lists)
            (rows_above (leases self.now.config self.now.lists).rows result) }
    {
        let seen = self.pending.quiet_to(above);
        let Some(row) = self.log.next_in(Phase::Freeing, above) else {
            return seen;
        };
        if row.n <= seen { row.n - 1 } else { seen }
    }

    /// The next row above this number of which a mux may have to be told.
    #[tactic(auto, using(manager_log::proofs::QuietLaws::fewer_to_go))]
    fn next_told(&self, above: u64) -> Option<Row>
        requires { self.now.sound ≡ true }
        ensures said { flat_map (push_row self.now.config self.now.lists)
            (rows_above (leases self.now.config self.now.lists).rows above)
            ≡ flat_map (push_row self.now.config self.now.lists)
            (onward_all (leases self.now.config self.now.lists).rows result) }
        ensures nearer { IfSome result (λ row. length (rows_above (leases self.now.config self.now.lists).rows row.n)
            < length (rows_above (leases self.now.config self.now.lists).rows above)) }
    {
        self.log.next_row(self.quiet_to(above))
    }

    /// The push: over rows by number and muxes by number, the first 64 messages. Looks at the rows of which a mux may
    /// have to be told, until it has them.
    #[tactic(auto, unfolding(manager_spec::specs::Orders::push), using(manager_log::proofs::TurnLaws::pushed_next, manager_log::proofs::TurnLaws::no_room, manager_log::proofs::TurnLaws::none_pushed, manager_log::proofs::ZeroLaws::all_above, manager_log::proofs::ZeroLaws::no_zero))]
    pub(crate) fn push(&self, out: &mut Step) -> Result<(), NoMemory>
        requires { self.now.sound ≡ true }
        ensures { OnOk result (out.new ≡ with_sends
            (flat_map (outgoing self.now.config) (push self.now.config self.now.lists)) out.old) }
    {
        let mut room = MOST_PUSHED;
        let mut above = 0;
        while let Some(row) = self.next_told(above) {
            if room == 0 {
                return Ok(());
            }
            room = self.push_row(out, row, room)?;
            above = row.n;
        }
        Ok(())
    }
}
