ghost use Rattle.std.specs.Prelude.{◌≡◌, ◌<◌, ◌≤◌, ◌+◌, ◌*◌, ◌/◌, ◌^◌, ◌-◌, ◌++◌, ◌∷◌, [], true, false, not, ◌&&◌, ◌==◌, filter, find, slice_index_or, ℕ, is_ok, nat_le, length, slice_set, Some, None, option_map, IsSomeAnd, if◌then◌else◌, IfSome, IfNone, OnOk, OnErr, IfOk};
ghost use Rattle.std.specs.Option.{option_or};
ghost use Rattle.indexmap.specs.IndexMap.{get};
ghost use Rattle.lease_spec.specs.Free.{has_no_row, is_free, least_free};
ghost use Rattle.lease_spec.specs.Table.{decide, is_later, known_boot, last_of, move, no_leases, noted, raise_known, row_at, row_count, rule_of};
ghost use Rattle.lease_rows.specs.Effects.{Adds};
ghost use Rattle.lease_rows.specs.Entries.{InOrder};
ghost use Rattle.lease_rows.specs.Rows.{same_address};
ghost use Rattle.port_leases.specs.Store.{AreFree, IsFreeOf, first_of};
ghost use Rattle.port_leases.specs.TableState.{has_vip, with_machine, with_vip};
ghost use Rattle.port_leases.specs.TableState.{onward, onward_all, onward_in, row_above, row_on, rows_above, rows_in, rows_of};
ghost use Rattle.port_leases.specs.Requests.{last_with};
ghost use Rattle.wire_core.specs.Ranges.{is_leasable, range_at};
ghost use Rattle.wire_core.specs.declared.address.Ip4 as ip;

use crate::requests::{self, Request};
use indexmap::IndexMap;
use lease_rows::{Effects, Rows, Starts};
use lease_spec::{Effect, Outcome, Phase, Row};
use std::alloc::Global;
use std::marker::Model;
use wire_core::{Ip4, LeaseRules, MachineRule, NoMemory, Range, VipRule};

/// How many multiples of 8 there are among the ports.
const STARTS: usize = 8192;

/// The rules, and what stands now.
#[derive(Drop)]
pub struct Store {
    rules: LeaseRules,
    /// The rule of each machine.
    machines: IndexMap<Ip4, MachineRule>,
    /// The free starts of each VIP.
    vips: IndexMap<Ip4, Starts>,
    rows: Rows,
    /// The known boot of each agent that had one.
    known: IndexMap<u16, u64>,
    /// The last request of each machine that made one.
    lasts: IndexMap<Ip4, Request>,
}

impl Model for Store {
    ghost use Rattle.std.specs.Prelude.{min};
    ghost use Rattle.indexmap.specs.IndexMap.{get, spare};
    ghost use Rattle.lease_rows.specs.Rows.{same_address};
    ghost use Rattle.port_leases.specs.Store.{IsStored, StoreState, known_of, lasts_of};

    ghost Value = { StoreState };

    ghost view = { λ t. record {
      rules = t.rules;
      leases = record {
        rows = t.rows.rows;
        known = known_of t.known.entries;
        lasts = lasts_of t.lasts.entries;
      };
      next = t.rows.next;
      room = min t.rows.room (min (spare t.known) (spare t.lasts));
    } };

    ghost invariant = { λ t. IsStored t.rules t.rows.rows (get same_address t.machines) (get same_address t.vips) };
}

/// The least free start of a VIP.
fn first_free(vips: &IndexMap<Ip4, Starts>, vip: Ip4) -> Option<u16>
    ensures { result ≡ first_of (get same_address vips.now vip) }
{
    match vips.get(&vip) {
        Some(starts) => starts.first(),
        None => None,
    }
}

/// A range is free from now on, or isn't any more.
fn set_free(vips: &mut IndexMap<Ip4, Starts>, range: Range, free: bool)
    ensures { (v : ip.Ip4) → get same_address vips.new v
        ≡ (if same_address range.vip v
        then option_map (λ flags. slice_set flags (range.start / 8) free) (get same_address vips.old range.vip)
        else get same_address vips.old v) }
{
    if let Some(starts) = vips.get_mut(&range.vip) {
        starts.set(usize::from(range.start / 8), free);
    }
}

/// The rule of a machine.
fn rule_of(machines: &IndexMap<Ip4, MachineRule>, machine: Ip4) -> Option<MachineRule>
    ensures { result ≡ get same_address machines.now machine }
{
    machines.get(&machine).copied()
}

/// A machine's rule, where the machine has none yet.
fn put_rule(machines: &mut IndexMap<Ip4, MachineRule>, rule: MachineRule) -> Result<(), NoMemory>
    ensures { OnOk result ((m : ip.Ip4) → get same_address machines.new m
        ≡ option_or (get same_address machines.old m) (if same_address rule.machine m then Some rule else None)) }
{
    if machines.contains_key(&rule.machine) {
        return Ok(());
    }
    machines.insert(rule.machine, rule)?;
    Ok(())
}

/// The machines by their addresses.
fn index_machines(
    alloc: Global,
    rules: &[MachineRule],
) -> Result<IndexMap<Ip4, MachineRule>, NoMemory>
    ensures { IfOk result (λ machines. (m : ip.Ip4)
        → get same_address machines m ≡ find (λ rule. rule.machine.0 == m.0) rules.now) }
{
    let mut machines = IndexMap::new(alloc);
    for rule in rules {
        put_rule(&mut machines, *rule)?;
    }
    Ok(machines)
}

/// Which ranges of the VIP may be leased. Looks once at each of its endpoints.
fn leasable_starts(rules: &LeaseRules, vip: Ip4) -> [bool; STARTS]
    ensures len { length result ≡ 8192 }
    ensures each { (i : ℕ) → i < 8192 → slice_index_or result i false ≡ is_leasable rules.now (range_at vip (8 * i)) }
{
    let mut leasable = [false; STARTS];
    rules.mark_leasable(vip, &mut leasable);
    leasable
}

/// The flags of a VIP's starts go down where a row is on the range.
fn take_rows(flags: &mut [bool; STARTS], rows: &Rows, vip: Ip4)
    ensures each { (i : ℕ) → i < 8192 → slice_index_or flags.new i false
        ≡ slice_index_or flags.old i false && has_no_row rows.now.rows (range_at vip (8 * i)) }
{
    for i in 0..8192u16 {
        let at = usize::from(i);
        flags[at] = flags[at] && !rows.has_row(Range { vip, start: 8 * i });
    }
}

/// Which ranges of the VIP are free: those that may be leased and have no row. Where there are no rows, none is asked
/// for.
fn free_flags(rules: &LeaseRules, rows: &Rows, vip: Ip4) -> [bool; STARTS]
    ensures len { length result ≡ 8192 }
    ensures each { (i : ℕ) → i < 8192 → slice_index_or result i false
        ≡ is_free rules.now rows.now.rows (range_at vip (8 * i)) }
{
    let mut flags = leasable_starts(rules, vip);
    if rows.len() > 0 {
        take_rows(&mut flags, rows, vip);
    }
    flags
}

/// The free starts of a VIP.
fn fill(starts: &mut Starts, rules: &LeaseRules, rows: &Rows, vip: Ip4)
    requires count { length starts.old ≡ 8192 }
    requires named { has_vip rules.now vip ≡ true }
    ensures { AreFree rules.now rows.now.rows vip starts.new }
{
    starts.put(&free_flags(rules, rows, vip));
}

/// A VIP's free starts, where the VIP has none yet.
fn put_starts(
    alloc: Global,
    vips: &mut IndexMap<Ip4, Starts>,
    rules: &LeaseRules,
    rows: &Rows,
    vip: Ip4,
) -> Result<(), NoMemory>
    requires named { has_vip rules.now vip ≡ true }
    requires free { IfSome (get same_address vips.old vip) (AreFree rules.now rows.now.rows vip) }
    ensures here { OnOk result (IsSomeAnd (get same_address vips.new vip) (AreFree rules.now rows.now.rows vip)) }
    ensures others { OnOk result ((v : ip.Ip4) → same_address vip v ≡ false
        → get same_address vips.new v ≡ get same_address vips.old v) }
{
    if vips.contains_key(&vip) {
        return Ok(());
    }
    let mut starts = Starts::new(alloc, 128)?;
    fill(&mut starts, rules, rows, vip);
    vips.insert(vip, starts)?;
    Ok(())
}

/// The free starts of each VIP.
fn index_vips(
    alloc: Global,
    rules: &LeaseRules,
    rows: &Rows,
) -> Result<IndexMap<Ip4, Starts>, NoMemory>
    ensures { IfOk result (λ vips. (v : ip.Ip4) → IsFreeOf rules.now rows.now.rows v (get same_address vips v)) }
{
    let mut vips = IndexMap::new(alloc);
    for rule in rules.vips.as_slice() {
        put_starts(alloc, &mut vips, rules, rows, rule.vip)?;
    }
    Ok(vips)
}

impl Store {
    /// No leases.
    pub fn new(alloc: Global, rules: LeaseRules) -> Result<Store, NoMemory>
        ensures rules { IfOk result (λ store. store.rules ≡ rules) }
        ensures leases { IfOk result (λ store. store.leases ≡ no_leases) }
        ensures next { IfOk result (λ store. store.next ≡ 0) }
    {
        let rows = Rows::new(alloc);
        let machines = index_machines(alloc, rules.machines.as_slice())?;
        let vips = index_vips(alloc, &rules, &rows)?;
        Ok(Store {
            rules,
            machines,
            vips,
            rows,
            known: IndexMap::new(alloc),
            lasts: IndexMap::new(alloc),
        })
    }

    /// One more VIP.
    pub fn add_vip(&mut self, alloc: Global, rule: VipRule) -> Result<(), NoMemory>
        requires { has_vip self.old.rules rule.vip ≡ false }
        ensures rules { self.new.rules ≡ (if is_ok result then with_vip self.old.rules rule else self.old.rules) }
        ensures leases { self.new.leases ≡ self.old.leases }
        ensures next { self.new.next ≡ self.old.next }
    {
        let vip = rule.vip;
        let mut starts = Starts::new(alloc, 128)?;
        self.vips.reserve(1)?;
        self.rules.vips.push(rule)?;
        fill(&mut starts, &self.rules, &self.rows, vip);
        self.vips.insert(vip, starts).unwrap();
        Ok(())
    }

    /// One more machine.
    pub fn add_machine(&mut self, rule: MachineRule) -> Result<(), NoMemory>
        requires { rule_of self.old.rules rule.machine ≡ None }
        ensures rules { self.new.rules ≡ (if is_ok result then with_machine self.old.rules rule else self.old.rules) }
        ensures leases { self.new.leases ≡ self.old.leases }
        ensures next { self.new.next ≡ self.old.next }
    {
        self.machines.reserve(1)?;
        self.rules.machines.push(rule)?;
        self.machines.insert(rule.machine, rule).unwrap();
        Ok(())
    }

    /// The row with this number.
    pub fn row_at(&self, n: u64) -> Option<Row>
        ensures { result ≡ row_at self.now.leases.rows n }
    {
        self.rows.row_at(n)
    }

    /// The row with the least number above this one.
    pub fn row_above(&self, n: u64) -> Option<Row>
        ensures row { result ≡ row_above self.now.leases.rows n }
        ensures walk { rows_above self.now.leases.rows n ≡ onward_all self.now.leases.rows result }
    {
        self.rows.row_above(n)
    }

    /// The row in this phase with the least number above this one.
    pub fn next_in(&self, phase: Phase, above: u64) -> Option<Row>
        ensures { rows_in self.now.leases.rows phase above ≡ onward_in self.now.leases.rows phase result }
    {
        self.rows.next_in(phase, above)
    }

    /// The machine's row with the least number above this one, if any. Where this number is below the machine's first
    /// or is one of a row of the machine, it is found at once; else by a walk over the rows between them.
    pub fn next_row_of(&self, machine: Ip4, above: u64) -> Option<Row>
        ensures { rows_of self.now.leases.rows machine above ≡ onward self.now.leases.rows machine result }
    {
        self.rows.next_row_of(machine, above)
    }

    /// The row on this range.
    pub fn row_on(&self, r: Range) -> Option<Row>
        ensures { result ≡ row_on self.now.leases.rows r }
    {
        self.rows.row_on(r)
    }

    /// The agent's known boot, at first 0.
    pub fn known_boot(&self, agent: u16) -> u64
        ensures { result ≡ known_boot self.now.leases.known agent }
    {
        requests::known_boot(&self.known, agent)
    }

    /// The machine's last request.
    pub fn last_of(&self, machine: Ip4) -> Option<Request>
        ensures { option_map (last_with machine) result ≡ last_of self.now.leases.lasts machine }
    {
        requests::last_of(&self.lasts, machine)
    }

    /// Whether a request of this boot and seq comes later than the machine's last one.
    pub fn is_later(&self, machine: Ip4, boot: u64, seq: u64) -> bool
        ensures { result ≡ is_later boot seq (last_of self.now.leases.lasts machine) }
    {
        requests::is_later(&self.lasts, machine, boot, seq)
    }

    /// The machine's rule.
    pub fn rule_of(&self, machine: Ip4) -> Option<MachineRule>
        ensures { result ≡ rule_of self.now.rules machine }
    {
        rule_of(&self.machines, machine)
    }

    /// Whether the rules name the VIP.
    pub fn has_vip(&self, vip: Ip4) -> bool
        ensures { result ≡ has_vip self.now.rules vip }
    {
        self.vips.contains_key(&vip)
    }

    /// The number of rows.
    pub fn len(&self) -> usize
        ensures len { result ≡ length self.now.leases.rows }
        ensures small { result < 2 ^ 63 }
        ensures order { InOrder self.now.leases.rows self.now.next }
    {
        self.rows.len()
    }

    /// Makes room for so many more rows, agents and machines.
    pub fn reserve_room(&mut self, more: usize) -> Result<(), NoMemory>
        ensures rules { self.new.rules ≡ self.old.rules }
        ensures leases { self.new.leases ≡ self.old.leases }
        ensures next { self.new.next ≡ self.old.next }
        ensures room { OnOk result (more ≤ self.new.room) }
    {
        self.rows.reserve(more)?;
        self.known.reserve(more)?;
        self.lasts.reserve(more)?;
        Ok(())
    }

    /// A raised boot of an agent becomes known, and ends its rows of lower boots.
    #[tactic(auto, unfolding(lease_spec::specs::Table::raise_known))]
    pub fn raise_known(&mut self, agent: u16, boot: u64, effects: &mut Effects)
        requires room { 0 < self.old.room }
        requires effects { length (raise_known agent boot self.old.leases).effects ≤ effects.old.room }
        ensures rules { self.new.rules ≡ self.old.rules }
        ensures leases { self.new.leases ≡ (raise_known agent boot self.old.leases).leases }
        ensures next { self.new.next ≡ self.old.next }
        ensures room { self.old.room ≤ self.new.room + 1 }
        ensures effects { Adds effects.old effects.new (raise_known agent boot self.old.leases).effects }
    {
        if requests::known_boot(&self.known, agent) < boot {
            self.rows.clear_lower(agent, boot, effects);
            requests::put_known(&mut self.known, agent, boot);
        }
    }

    /// What the machine's last request came to.
    fn note(&mut self, machine: Ip4, boot: u64, seq: u64, outcome: Outcome)
        requires { 0 < self.old.room }
        ensures rules { self.new.rules ≡ self.old.rules }
        ensures leases { self.new.leases ≡ noted machine boot seq outcome self.old.leases }
        ensures next { self.new.next ≡ self.old.next }
        ensures room { self.old.room ≤ self.new.room + 1 }
    {
        requests::put_last(&mut self.lasts, machine, Request { boot, seq, outcome });
    }

    /// A row on a free range.
    fn take(&mut self, row: Row)
        requires room { 0 < self.old.room }
        requires next { self.old.next ≤ row.n }
        requires few { row_count self.old.leases.rows row.machine < 2 ^ 32 - 1 }
        requires free { is_free self.old.rules self.old.leases.rows row.range ≡ true }
        ensures rules { self.new.rules ≡ self.old.rules }
        ensures leases { self.new.leases ≡ record self.old.leases { rows = self.old.leases.rows ++ row ∷ [] } }
        ensures next { self.new.next ≡ row.n + 1 }
        ensures room { self.old.room ≤ self.new.room + 1 }
    {
        self.rows.push(row);
        set_free(&mut self.vips, row.range, false);
    }

    /// The row with this number goes to a phase.
    pub fn set_phase(&mut self, n: u64, phase: Phase)
        ensures rules { self.new.rules ≡ self.old.rules }
        ensures leases { self.new.leases ≡ record self.old.leases { rows = move n phase self.old.leases.rows } }
        ensures next { self.new.next ≡ self.old.next }
        ensures room { self.new.room ≡ self.old.room }
    {
        self.rows.set_phase(n, phase);
    }

    /// A row leaves. Its range is free then, where it may be leased.
    pub fn remove(&mut self, row: &Row)
        requires { row_at self.old.leases.rows row.now.n ≡ Some row.now }
        ensures rules { self.new.rules ≡ self.old.rules }
        ensures leases { self.new.leases
            ≡ record self.old.leases { rows = filter (λ other. not (other.n == row.now.n)) self.old.leases.rows } }
        ensures next { self.new.next ≤ self.old.next }
        ensures room { self.old.room ≤ self.new.room }
    {
        self.rows.remove(row);
        if self.rules.leasable(&row.range) {
            set_free(&mut self.vips, row.range, true);
        }
    }

    /// How many rows the machine has, where they are as many as a machine may have.
    fn limit_reached(&self, machine: Ip4) -> Option<u32>
        ensures count { result ≡ (if nat_le self.now.rules.limit (row_count self.now.leases.rows machine)
            then Some (row_count self.now.leases.rows machine)
            else None) }
        ensures few { IfNone result (row_count self.now.leases.rows machine < 2 ^ 32 - 1) }
    {
        let count = self.rows.count(machine);
        if self.rules.limit <= count {
            Some(count)
        } else {
            None
        }
    }

    /// The free range of the VIP with the least start.
    fn least_free(&self, vip: Ip4) -> Option<Range>
        ensures range { result ≡ least_free self.now.rules self.now.leases.rows vip }
        ensures free { IfSome result (λ r. is_free self.now.rules self.now.leases.rows r ≡ true) }
    {
        match first_free(&self.vips, vip) {
            Some(start) => Some(Range { vip, start }),
            None => None,
        }
    }

    /// What a request with an effect comes to.
    #[tactic(auto, unfolding(lease_spec::specs::Table::decide))]
    pub fn decide(&mut self, place: u64, boot: u64, rule: MachineRule, seq: u64) -> Effect
        requires room { 1 < self.old.room }
        requires next { self.old.next ≤ place }
        ensures rules { self.new.rules ≡ self.old.rules }
        ensures done { decide self.old.rules place boot rule seq self.old.leases
            ≡ record { leases = self.new.leases; effects = result ∷ [] } }
        ensures next { self.new.next ≤ place + 1 }
        ensures room { self.old.room ≤ self.new.room + 2 }
    {
        let machine = rule.machine;
        if let Some(count) = self.limit_reached(machine) {
            self.note(machine, boot, seq, Outcome::AtLimit { count });
            return Effect::AtLimit {
                machine,
                boot,
                seq,
                count,
            };
        }
        let Some(range) = self.least_free(rule.vip) else {
            self.note(machine, boot, seq, Outcome::Exhausted { place });
            return Effect::Exhausted {
                machine,
                boot,
                seq,
                place,
            };
        };
        let row = Row {
            n: place,
            range,
            machine,
            agent: rule.agent,
            boot,
            seq,
            phase: Phase::BeingLeased,
        };
        self.take(row);
        self.note(machine, boot, seq, Outcome::Reserved { range, n: place });
        Effect::Reserved { row }
    }
}
