ghost use Rattle.std.specs.Prelude.{◌≡◌, ◌||◌, ◌&&◌, ◌≤◌, ◌<◌, ◌*◌, ◌++◌, ◌∷◌, [], ℕ, false, map, if◌then◌else◌, IfOk, OnOk, is_some, slice_get};
ghost use Rattle.mux_spec.specs.Rows.{kept_at, new_rows, program_row, programmed, ranges_by, row_at, set_row, unprogram_row};
ghost use Rattle.wire_core.specs.declared.range.Range as ranges;
ghost use Rattle.wire_core.specs.Ranges.{allows, is_leasable, range_at};
ghost use Rattle.vip_config.specs.Rules.{Once};
ghost use Rattle.wire_core.specs.Same.{same_range};
ghost use Rattle.mux_maps.specs.Entries.{is_in, without_row};

use indexmap::IndexMap;
use mux_spec::{Kept, Programmed};
use std::alloc::Global;
use std::marker::Model;
use wire_core::{Ip4, LeaseRules, NoMemory, Range, VipRule, equality_is_sameness};

/// Each leasable range with what is kept of it.
#[derive(Drop)]
pub struct Ranges {
    rows: IndexMap<Range, Kept>,
}

impl Model for Ranges {
    ghost use Rattle.mux_spec.specs.Rows.{Rows};

    ghost Value = { Rows };

    ghost view = { λ m. m.rows.entries };
}

#[tactic(auto, unfolding(mux_spec::specs::Rows::row_at))]
fn find(rows: &IndexMap<Range, Kept>, r: &Range) -> Option<Kept>
    ensures { result ≡ row_at rows.now.entries r.now }
{
    equality_is_sameness();
    rows.get(r).copied()
}

fn entry_at(rows: &IndexMap<Range, Kept>, i: usize) -> Option<(Range, Kept)>
    ensures { result ≡ slice_get rows.now.entries i }
{
    match rows.get_index(i) {
        Some((r, kept)) => Some((*r, *kept)),
        None => None,
    }
}

#[tactic(auto, unfolding(mux_spec::specs::Rows::set_row), using(crate::proofs::RowLaws::set_none))]
fn set(rows: &mut IndexMap<Range, Kept>, r: &Range, kept: Kept)
    ensures { rows.new.entries ≡ set_row rows.old.entries r.now kept }
{
    equality_is_sameness();
    if let Some(place) = rows.get_mut(r) {
        *place = kept;
    }
}

/// A range that had no entry has one from now on, without a row, and stands last.
#[tactic(auto, unfolding(mux_spec::specs::Rows::row_at))]
fn add(rows: &mut IndexMap<Range, Kept>, r: Range) -> Result<(), NoMemory>
    requires { is_some (row_at rows.old.entries r) ≡ false }
    ensures shown { OnOk result ((s : ranges.Range) → is_some (row_at rows.new.entries s)
        ≡ (is_some (row_at rows.old.entries s) || same_range s r)) }
    ensures list { OnOk result (rows.new.entries ≡ rows.old.entries ++ without_row (r ∷ [])) }
{
    equality_is_sameness();
    rows.insert(
        r,
        Kept {
            n: 0,
            machine: None,
        },
    )?;
    Ok(())
}

/// The same of the i-th start, if the rule allows it.
fn add_start(rows: &mut IndexMap<Range, Kept>, rule: &VipRule, i: u16) -> Result<(), NoMemory>
    requires few { i < 8192 }
    requires none { is_some (row_at rows.old.entries (range_at rule.now.vip (8 * i))) ≡ false }
    ensures shown { OnOk result ((s : ranges.Range) → is_some (row_at rows.new.entries s)
        ≡ (is_some (row_at rows.old.entries s)
        || (allows rule.now (8 * i) && same_range s (range_at rule.now.vip (8 * i))))) }
    ensures list { OnOk result (rows.new.entries ≡ (if allows rule.now (8 * i)
        then rows.old.entries ++ without_row (range_at rule.now.vip (8 * i) ∷ []) else rows.old.entries)) }
{
    if rule.allows(8 * i) {
        add(
            rows,
            Range {
                vip: rule.vip,
                start: 8 * i,
            },
        )?;
    }
    Ok(())
}

fn nothing(alloc: Global) -> IndexMap<Range, Kept>
    ensures { result.entries ≡ [] }
{
    IndexMap::new(alloc)
}

/// The rule's last port.
fn high(rule: &VipRule) -> u16
    ensures value { result ≡ rule.now.high }
    ensures bound { result ≤ 65535 }
{
    rule.high
}

/// Each range that the rule of a VIP allows has an entry, of which none had one.
fn add_vip(rows: &mut IndexMap<Range, Kept>, rule: &VipRule) -> Result<(), NoMemory>
    requires { (start : ℕ) → is_some (row_at rows.old.entries (range_at rule.now.vip start)) ≡ false }
    ensures shown { OnOk result ((s : ranges.Range) → is_some (row_at rows.new.entries s)
        ≡ (is_some (row_at rows.old.entries s) || is_in rule.now s)) }
    ensures list { OnOk result (rows.new.entries ≡ rows.old.entries ++ without_row (ranges_by rule.now)) }
{
    let _ = high(rule);
    for i in 0..8192u16 {
        add_start(rows, rule, i)?;
    }
    Ok(())
}

impl Ranges {
    /// Each leasable range, with the number 0 and no machine. The cost is, for each VIP, 8,192 starts times its
    /// endpoints.
    #[tactic(auto, unfolding(mux_spec::specs::Rows::new_rows))]
    pub fn new(alloc: Global, rules: &LeaseRules) -> Result<Ranges, NoMemory>
        requires { Once (map (λ rule. rule.vip) rules.now.vips) }
        ensures shown { IfOk result (λ m. (s : ranges.Range) → is_some (row_at m s) ≡ is_leasable rules.now s) }
        ensures list { IfOk result (λ m. m ≡ new_rows rules.now) }
    {
        let mut rows = nothing(alloc);
        for rule in rules.vips.as_slice() {
            add_vip(&mut rows, rule)?;
        }
        Ok(Ranges { rows })
    }

    /// What is kept of the range. `None` exactly where it has no entry.
    pub fn row(&self, r: &Range) -> Option<Kept>
        ensures { result ≡ row_at self.now r.now }
    {
        find(&self.rows, r)
    }

    /// What is kept of the range: the number 0 and no machine where it has no entry.
    pub fn kept(&self, r: &Range) -> Kept
        ensures { result ≡ kept_at self.now r.now }
    {
        self.row(r).unwrap_or(Kept {
            n: 0,
            machine: None,
        })
    }

    /// The i-th range in the order of the entries, from 0, with what is kept of it. `None` exactly from their count on.
    pub fn entry(&self, i: usize) -> Option<(Range, Kept)>
        ensures { result ≡ slice_get self.now i }
    {
        entry_at(&self.rows, i)
    }

    fn set(&mut self, r: &Range, kept: Kept)
        ensures { self.new ≡ set_row self.old r.now kept }
    {
        set(&mut self.rows, r, kept);
    }

    /// The range goes to the machine, by number `n`: `Set` exactly where n is above the kept number, `Same` exactly
    /// where n is that number and has a row, which stays.
    pub fn program(&mut self, n: u64, r: &Range, machine: Ip4) -> Programmed
        ensures answer { result ≡ programmed (kept_at self.old r.now) n }
        ensures rows { self.new ≡ program_row self.old n r.now machine }
    {
        let kept = self.kept(r);
        if kept.n < n {
            self.set(
                r,
                Kept {
                    n,
                    machine: Some(machine),
                },
            );
            Programmed::Set
        } else if n == kept.n && kept.machine.is_some() {
            Programmed::Same
        } else {
            Programmed::Old { kept: kept.n }
        }
    }

    /// The range goes to no machine, where n is at least the kept number.
    pub fn unprogram(&mut self, n: u64, r: &Range)
        ensures { self.new ≡ unprogram_row self.old n r.now }
    {
        if self.kept(r).n <= n {
            self.set(r, Kept { n, machine: None });
        }
    }
}
