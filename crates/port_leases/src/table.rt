ghost use Rattle.std.specs.Prelude.{◌≡◌, ◌<◌, ◌^◌, ◌++◌, ◌∷◌, [], false, IfOk, OnOk, OnErr, IsNone, length};
ghost use Rattle.lease_spec.specs.Table.{known_boot, last_of, row_at, rule_of};
ghost use Rattle.port_leases.specs.TableState.{apply_slot, fresh, has_vip, outcome_of, pair_of, with_machine, with_vip};
ghost use Rattle.port_leases.specs.TableState.{onward, onward_all, onward_in, row_above, row_on, rows_above, rows_in, rows_of};

use crate::commands::{apply_value, effects_room};
use crate::store::Store;
use lease_rows::Effects;
use lease_spec::{EffectList, Outcome, Phase, Row};
use std::alloc::Global;
use std::marker::Model;
use wire_core::{Ip4, LeaseRules, MachineRule, NoMemory, Range, Value, VipRule};

/// The lease table after so many slots of the log.
#[derive(Drop)]
pub struct Table {
    alloc: Global,
    store: Store,
    /// How many slots were applied.
    slots: u64,
}

impl Model for Table {
    ghost use Rattle.port_leases.specs.TableState.{TableState};
    ghost use Rattle.std.specs.Prelude.{◌≤◌, ◌+◌, ◌*◌};

    ghost Value = { TableState };

    ghost view = { λ t. record { rules = t.store.rules; leases = t.store.leases; slots = t.slots } };

    ghost invariant = { λ t. t.store.next ≤ 16 * t.slots + 1 };
}

impl Table {
    /// A table without leases, before the first slot. `NoMemory` is the only refusal.
    pub fn new(alloc: Global, rules: LeaseRules) -> Result<Table, NoMemory>
        ensures { IfOk result (λ table. table ≡ fresh rules) }
    {
        let store = Store::new(alloc, rules)?;
        Ok(Table {
            alloc,
            store,
            slots: 0,
        })
    }

    /// One more VIP, whose address is new among the VIPs. Without memory the table stays as it was.
    pub fn add_vip(&mut self, v: VipRule) -> Result<(), NoMemory>
        requires { has_vip self.old.rules v.vip ≡ false }
        ensures ok { OnOk result (self.new ≡ record self.old { rules = with_vip self.old.rules v }) }
        ensures err { OnErr result (self.new ≡ self.old) }
    {
        self.store.add_vip(self.alloc, v)
    }

    /// One more machine, whose address is new among the machines. Without memory the table stays as it was.
    pub fn add_machine(&mut self, m: MachineRule) -> Result<(), NoMemory>
        requires { rule_of self.old.rules m.machine ≡ None }
        ensures ok { OnOk result (self.new ≡ record self.old { rules = with_machine self.old.rules m }) }
        ensures err { OnErr result (self.new ≡ self.old) }
    {
        self.store.add_machine(m)
    }

    /// Applies the commands of the next slot in order, and answers what they did. Without memory the table stays as it
    /// was, and none of the commands is applied.
    pub fn apply(&mut self, slot: u64, value: &Value) -> Result<EffectList, NoMemory>
        requires next { slot ≡ self.old.slots }
        requires few { slot < 2 ^ 58 }
        ensures ok { IfOk result (λ effects. (self.new, effects) ≡ apply_slot self.old value.now) }
        ensures err { OnErr result (self.new ≡ self.old) }
    {
        let place = 16 * slot + 1;
        let mut effects = Effects::with_room(self.alloc, effects_room(&self.store, place, value))?;
        self.store.reserve_room(3 * value.len())?;
        apply_value(&mut self.store, place, value, &mut effects);
        self.slots = slot + 1;
        Ok(effects.into_list())
    }

    /// The number of slots that were applied.
    pub fn slots(&self) -> u64
        ensures { result ≡ self.now.slots }
    {
        self.slots
    }

    /// The row with this number. `None` exactly where there is none.
    pub fn row(&self, n: u64) -> Option<Row>
        ensures { result ≡ row_at self.now.leases.rows n }
    {
        self.store.row_at(n)
    }

    /// The row on this range, in any phase. `None` exactly where the range has none.
    pub fn state(&self, r: &Range) -> Option<Row>
        ensures { result ≡ row_on self.now.leases.rows r.now }
    {
        self.store.row_on(*r)
    }

    /// The number of rows.
    pub fn len(&self) -> usize
        ensures { result ≡ length self.now.leases.rows }
    {
        self.store.len()
    }

    /// The row with the least number above this one. `None` exactly where there is none. A walk from 0, and on from
    /// each row's number, meets each row once, by number. Costs a binary search and a look at places of rows that left,
    /// of which there are no more than of rows.
    pub fn next_row(&self, above: u64) -> Option<Row>
        ensures row { result ≡ row_above self.now.leases.rows above }
        ensures walk { rows_above self.now.leases.rows above ≡ onward_all self.now.leases.rows result }
    {
        self.store.row_above(above)
    }

    /// The row in this phase with the least number above this one. `None` exactly where there is none. A walk from 0,
    /// and on from each row's number, meets each row in this phase once, by number. Costs a binary search and a look at
    /// no more than 128 rows and at one flag for each 64 rows.
    pub fn next_in(&self, phase: Phase, above: u64) -> Option<Row>
        ensures { rows_in self.now.leases.rows phase above ≡ onward_in self.now.leases.rows phase result }
    {
        self.store.next_in(phase, above)
    }

    /// The machine's row with the least number above this one. `None` exactly where it has none. A walk from 0, and on
    /// from each row's number, costs a look-up and a binary search a row. From a number between two of the machine's
    /// rows it costs a walk over the rows between them.
    pub fn next_row_of(&self, machine: Ip4, above: u64) -> Option<Row>
        ensures { rows_of self.now.leases.rows machine above ≡ onward self.now.leases.rows machine result }
    {
        self.store.next_row_of(machine, above)
    }

    /// What the machine's last request with an effect came to. `None` exactly where it made none.
    pub fn outcome(&self, machine: Ip4) -> Option<Outcome>
        ensures { result ≡ outcome_of (last_of self.now.leases.lasts machine) }
    {
        match self.store.last_of(machine) {
            Some(last) => Some(last.outcome),
            None => None,
        }
    }

    /// The boot and the seq of the machine's last request with an effect. `None` exactly where it made none.
    pub fn last(&self, machine: Ip4) -> Option<(u64, u64)>
        ensures { result ≡ pair_of (last_of self.now.leases.lasts machine) }
    {
        match self.store.last_of(machine) {
            Some(last) => Some((last.boot, last.seq)),
            None => None,
        }
    }

    /// The agent's known boot, at first 0.
    pub fn known(&self, agent: u16) -> u64
        ensures { result ≡ known_boot self.now.leases.known agent }
    {
        self.store.known_boot(agent)
    }

    /// Whether the rules name the VIP.
    pub fn has_vip(&self, vip: Ip4) -> bool
        ensures { result ≡ has_vip self.now.rules vip }
    {
        self.store.has_vip(vip)
    }

    /// The machine's rule. `None` exactly where the rules don't name the machine.
    pub fn machine_rule(&self, machine: Ip4) -> Option<MachineRule>
        ensures { result ≡ rule_of self.now.rules machine }
    {
        self.store.rule_of(machine)
    }
}
