ghost use Rattle.std.specs.Prelude.{◌≡◌, ◌<◌, ◌≤◌, ◌+◌, ◌^◌, ◌++◌, [], ◌∷◌, length, map, Some, None, IfOk, OnOk, OnErr, if◌then◌else◌, string_bytes};
ghost use Rattle.std.specs.List.{flat_map};
ghost use Rattle.lease_spec.specs.Table.{last_of, row_at, rule_of};
ghost use Rattle.port_leases.specs.TableState.{apply_slot, fresh};
ghost use Rattle.wire_core.specs.Members.{Each};
ghost use Rattle.wire_core.specs.Views.{IsWritable, command_of};
ghost use Rattle.plain_schedule.specs.Kept.{Keeps};
ghost use Rattle.plain_schedule.specs.Schedule.{ask_by, asked, effect_text, onto, named, returned, seq_after, start, step, table_onto};

use crate::connections::Connections;
use crate::full_leases::FullLeases;
use crate::line::Line;
use crate::packets::{answer, send};
use port_leases::{Effect, EffectList, Table};
use std::alloc::Global;
use std::marker::Model;
use wire_core::{Command, Ip4, Items, LeaseRules, MachineRule, NoMemory, OwnedValue, VipRule};

/// The most VIPs of a plain schedule.
const MAX_VIPS: usize = 64;

/// What a plain schedule has come to.
#[derive(Drop)]
pub struct PlainState {
    table: Table,
    vips: usize,
    opened: Connections,
    full: FullLeases,
}

impl Model for PlainState {
    ghost use Rattle.std.specs.Prelude.{◌≡◌, length};
    ghost use Rattle.plain_schedule.specs.FullLeases.{plain};
    ghost use Rattle.plain_schedule.specs.Kept.{IsKept};
    ghost use Rattle.plain_schedule.specs.Schedule.{Plain};

    ghost Value = { Plain };

    ghost view = { λ s. record { table = s.table; opened = s.opened } };

    ghost invariant = { λ s. (s.vips ≡ length s.table.rules.vips) × IsKept (plain s.table s.opened) s.full };
}

/// Applies one slot of these commands.
fn apply_commands(
    alloc: Global,
    table: &mut Table,
    commands: &[Command],
) -> Result<EffectList, NoMemory>
    requires room { table.old.slots < 2 ^ 58 }
    requires some { 0 < length commands.now }
    requires few { length commands.now ≤ 16 }
    requires writable { Each IsWritable commands.now }
    ensures ok { IfOk result (λ effects. (table.new, effects) ≡ apply_slot table.old (map command_of commands.now)) }
    ensures rules { table.new.rules ≡ table.old.rules }
    ensures kept { Keeps table.old table.new }
{
    let value = OwnedValue::new(alloc, commands)?;
    let slot = table.slots();
    table.apply(slot, &value.as_value())
}

/// Prints what one effect of an ask comes to.
fn print_effect(out: &mut String, effect: &Effect) -> Result<(), NoMemory>
    ensures { OnOk result (string_bytes out.new ≡ string_bytes out.old ++ effect_text effect.now) }
{
    match effect {
        Effect::Reserved { row } => {
            let n = row.n;
            let start = row.range.start;
            writeln!(out, "leased {n} {start}")
        }
        Effect::Exhausted { place, .. } => writeln!(out, "exhausted {place}"),
        _ => Ok(()),
    }
}

/// Prints what the effects of an ask come to.
fn print_effects(out: &mut String, effects: &[Effect]) -> Result<(), NoMemory>
    ensures { OnOk result (string_bytes out.new ≡ string_bytes out.old ++ flat_map effect_text effects.now) }
{
    for effect in effects {
        print_effect(out, effect)?;
    }
    Ok(())
}

/// The number of the machine's next request.
fn next_seq(table: &Table, machine: Ip4) -> u64
    ensures { result ≡ seq_after (last_of table.now.leases.lasts machine) }
{
    match table.last(machine) {
        Some((_, seq)) => seq.saturating_add(1),
        None => 1,
    }
}

/// One slot in which the machine asks.
fn ask_slot(
    alloc: Global,
    table: &mut Table,
    out: &mut String,
    machine: Ip4,
) -> Result<(), NoMemory>
    requires { table.old.slots < 2 ^ 58 }
    ensures after { OnOk result (table.new ≡ (asked table.old machine).0) }
    ensures text { OnOk result (string_bytes out.new ≡ string_bytes out.old ++ (asked table.old machine).1) }
    ensures rules { table.new.rules ≡ table.old.rules }
    ensures kept { Keeps table.old table.new }
{
    let seq = next_seq(table, machine);
    let command = Command::Reserve {
        agent: 0,
        boot: 1,
        machine,
        seq,
    };
    let effects = apply_commands(alloc, table, &[command])?;
    print_effects(out, effects.as_slice())
}

/// One slot in which the machine asks, unless its VIP is another one.
fn ask(
    alloc: Global,
    table: &mut Table,
    out: &mut String,
    vip: Ip4,
    machine: Ip4,
) -> Result<bool, NoMemory>
    requires { table.old.slots < 2 ^ 58 }
    ensures step { IfOk result (λ good.
        table_onto (string_bytes out.old) (ask_by table.old vip machine (rule_of table.old.rules machine))
        ≡ (if good then Some (table.new, string_bytes out.new) else None)) }
    ensures slots { OnOk result (table.new.slots ≤ table.old.slots + 1) }
    ensures vips { table.new.rules.vips ≡ table.old.rules.vips }
    ensures kept { Keeps table.old table.new }
{
    match table.machine_rule(machine) {
        None => {
            table.add_machine(MachineRule {
                machine,
                agent: 0,
                vip,
            })?;
        }
        Some(rule) => {
            if rule.vip != vip {
                return Ok(false);
            }
        }
    }
    ask_slot(alloc, table, out, machine)?;
    Ok(true)
}

/// One slot in which the lease is released and freed, where there is one.
fn give_back(alloc: Global, table: &mut Table, out: &mut String, n: u64) -> Result<(), NoMemory>
    requires { table.old.slots < 2 ^ 58 }
    ensures after { OnOk result (table.new ≡ (returned table.old n (row_at table.old.leases.rows n)).0) }
    ensures text { OnOk result (string_bytes out.new
        ≡ string_bytes out.old ++ (returned table.old n (row_at table.old.leases.rows n)).1) }
    ensures rules { table.new.rules ≡ table.old.rules }
    ensures kept { Keeps table.old table.new }
{
    match table.row(n) {
        None => writeln!(out, "unknown {n}"),
        Some(_) => {
            apply_commands(
                alloc,
                table,
                &[Command::Release { n }, Command::Freed { n }],
            )?;
            writeln!(out, "freed {n}")
        }
    }
}

impl PlainState {
    /// No VIPs, no machines, no leases.
    pub fn new(alloc: Global) -> Result<PlainState, NoMemory>
        ensures { IfOk result (λ state. state ≡ start) }
    {
        let rules = LeaseRules {
            vips: Items::new(alloc),
            machines: Items::new(alloc),
            limit: u32::MAX,
        };
        Ok(PlainState {
            table: Table::new(alloc, rules)?,
            vips: 0,
            opened: Connections::new(alloc),
            full: FullLeases::new(alloc),
        })
    }

    /// Adds a VIP. False for a bad line.
    fn add_vip(&mut self, alloc: Global, vip: Ip4, low: u16, high: u16) -> Result<bool, NoMemory>
        ensures step { IfOk result (λ good. step self.old (Some (Line.Vip vip low high))
            ≡ (if good then Some (self.new, []) else None)) }
        ensures slots { OnOk result (self.new.table.slots ≡ self.old.table.slots) }
    {
        let named = self.table.has_vip(vip) || self.table.machine_rule(vip).is_some();
        if named || self.vips >= MAX_VIPS {
            return Ok(false);
        }
        self.table.add_vip(VipRule {
            vip,
            low,
            high,
            taken: Items::new(alloc),
        })?;
        self.vips += 1;
        Ok(true)
    }

    /// A machine asks for a range of a VIP. False for a bad line.
    fn ask(
        &mut self,
        alloc: Global,
        out: &mut String,
        vip: Ip4,
        machine: Ip4,
    ) -> Result<bool, NoMemory>
        requires { self.old.table.slots < 2 ^ 58 }
        ensures step { IfOk result (λ good. onto (string_bytes out.old) (step self.old (Some (Line.Ask vip machine)))
            ≡ (if good then Some (self.new, string_bytes out.new) else None)) }
        ensures slots { OnOk result (self.new.table.slots ≤ self.old.table.slots + 1) }
    {
        if !self.table.has_vip(vip) || self.table.has_vip(machine) {
            return Ok(false);
        }
        ask(alloc, &mut self.table, out, vip, machine)
    }

    /// Gives a lease back.
    fn give_back(&mut self, alloc: Global, out: &mut String, n: u64) -> Result<(), NoMemory>
        requires { self.old.table.slots < 2 ^ 58 }
        ensures step { OnOk result (onto (string_bytes out.old) (step self.old (Some (Line.Return n)))
            ≡ Some (self.new, string_bytes out.new)) }
        ensures slots { OnOk result (self.new.table.slots ≤ self.old.table.slots + 1) }
    {
        give_back(alloc, &mut self.table, out, n)
    }

    /// A machine sends a packet.
    fn send(&mut self, alloc: Global, out: &mut String, bytes: Items<u8>) -> Result<(), NoMemory>
        ensures step { OnOk result (onto (string_bytes out.old) (step self.old (Some (Line.Packet bytes)))
            ≡ Some (self.new, string_bytes out.new)) }
        ensures slots { OnOk result (self.new.table.slots ≡ self.old.table.slots) }
    {
        let mut bytes = bytes.into_vec();
        send(
            alloc,
            &self.table,
            &mut self.opened,
            &mut self.full,
            out,
            &mut bytes,
        )
    }

    /// A remote end answers with a packet.
    fn answer(&self, alloc: Global, out: &mut String, bytes: Items<u8>) -> Result<(), NoMemory>
        ensures { OnOk result (onto (string_bytes out.old) (step self.now (Some (Line.Reply bytes)))
            ≡ Some (self.now, string_bytes out.new)) }
    {
        let mut bytes = bytes.into_vec();
        answer(alloc, &self.table, &self.opened, out, &mut bytes)
    }

    /// Does what a line says, and prints what comes of it. False for a bad line, which does and prints nothing.
    pub fn step(
        &mut self,
        alloc: Global,
        out: &mut String,
        line: Option<Line>,
    ) -> Result<bool, NoMemory>
        requires { self.old.table.slots < 2 ^ 58 }
        ensures step { IfOk result (λ good. onto (string_bytes out.old) (step self.old line)
            ≡ (if good then Some (self.new, string_bytes out.new) else None)) }
        ensures slots { OnOk result (self.new.table.slots ≤ self.old.table.slots + 1) }
    {
        match line {
            None => return Ok(false),
            Some(Line::Skip) => {}
            Some(Line::Vip { vip, low, high }) => return self.add_vip(alloc, vip, low, high),
            Some(Line::Ask { vip, machine }) => return self.ask(alloc, out, vip, machine),
            Some(Line::Return { n }) => self.give_back(alloc, out, n)?,
            Some(Line::Packet { bytes }) => self.send(alloc, out, bytes)?,
            Some(Line::Reply { bytes }) => self.answer(alloc, out, bytes)?,
        }
        Ok(true)
    }
}
