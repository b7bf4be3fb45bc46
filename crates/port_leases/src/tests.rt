use crate::{Effect, Outcome, Phase, Row, Table};
use std::alloc::Global;
use std::test::Fail;
use wire_core::{
    Command, Ip4, Items, LeaseRules, MachineRule, MachineRuleList, OwnedValue, Range, Value,
    VipRule, VipRuleList,
};

const VIP: Ip4 = Ip4(0xc000_020a);

const A: Ip4 = Ip4(0x0a01_0004);

const B: Ip4 = Ip4(0x0a01_0005);

/// The value of one Granted command: mux 0 in its boot 1 has the row of lease 1.
const GRANTED: &[u8] = b"\x01\x02\0\0\0\0\0\0\0\x01\x01\0\0\0\0\0\0\0\0\0\x01";

/// A VIP with these bounds and an endpoint on each of these ports.
fn vips(alloc: Global, low: u16, high: u16, taken: &[u16]) -> Result<VipRuleList, Fail> {
    let taken = Items::from_vec(taken.to_vec(alloc)?);
    let mut vips = Items::new(alloc);
    vips.push(VipRule {
        vip: VIP,
        low,
        high,
        taken,
    })?;
    Ok(vips)
}

/// Two machines of agent 0.
fn machines(alloc: Global) -> Result<MachineRuleList, Fail> {
    let rules = [A, B].map(|machine| MachineRule {
        machine,
        agent: 0,
        vip: VIP,
    });
    Ok(Items::from_vec(rules.to_vec(alloc)?))
}

/// The rules of a table with one VIP.
#[derive(Clone, Copy)]
struct Rules<'a> {
    limit: u32,
    low: u16,
    high: u16,
    taken: &'a [u16],
}

/// A VIP of which no range is taken, and no limit that a test reaches.
const WIDE: Rules<'static> = Rules {
    limit: 16,
    low: 1024,
    high: 65535,
    taken: &[],
};

fn table(alloc: Global, rules: Rules<'_>) -> Result<Table, Fail> {
    let vips = vips(alloc, rules.low, rules.high, rules.taken)?;
    let machines = machines(alloc)?;
    let rules = LeaseRules {
        vips,
        machines,
        limit: rules.limit,
    };
    Ok(Table::new(alloc, rules)?)
}

/// One line for an effect: what it did, and its number or place, start, or count.
fn write_effect(out: &mut String, effect: Effect) -> Result<(), Fail> {
    match effect {
        Effect::Reserved { row } => writeln!(out, "reserved {} {}", row.n, row.range.start)?,
        Effect::Exhausted { place, .. } => writeln!(out, "exhausted {place}")?,
        Effect::AtLimit { count, .. } => writeln!(out, "at limit {count}")?,
        Effect::Granted { row } => writeln!(out, "granted {} {}", row.n, row.range.start)?,
        Effect::Released { row } => writeln!(out, "released {} {}", row.n, row.range.start)?,
        Effect::Freed { row } => writeln!(out, "freed {} {}", row.n, row.range.start)?,
        Effect::Known { agent, boot } => writeln!(out, "known {agent} {boot}")?,
        Effect::Cleared { row } => writeln!(out, "cleared {} {}", row.n, row.range.start)?,
    }
    Ok(())
}

/// One slot with this value, and a line for each of its effects.
fn apply(table: &mut Table, out: &mut String, value: &Value) -> Result<(), Fail> {
    let slot = table.slots();
    if slot >= 0x0400_0000_0000_0000 {
        return Err(Fail::from("too many slots"));
    }
    for effect in table.apply(slot, value)?.as_slice() {
        write_effect(out, *effect)?;
    }
    Ok(())
}

/// One slot in which agent 0 asks for a range for the machine.
fn reserve(
    alloc: Global,
    table: &mut Table,
    out: &mut String,
    machine: Ip4,
    seq: u64,
) -> Result<(), Fail> {
    let command = Command::Reserve {
        agent: 0,
        boot: 1,
        machine,
        seq,
    };
    let value = OwnedValue::new(alloc, &[command])?;
    apply(table, out, &value.as_value())
}

/// One slot in which lease 1 is granted.
fn grant(table: &mut Table, out: &mut String) -> Result<(), Fail> {
    if let Ok((granted, _)) = Value::read(GRANTED) {
        apply(table, out, &granted)?;
    }
    Ok(())
}

/// One slot in which lease `n` is given back.
fn release(alloc: Global, table: &mut Table, out: &mut String, n: u64) -> Result<(), Fail> {
    let value = OwnedValue::new(alloc, &[Command::Release { n }])?;
    apply(table, out, &value.as_value())
}

/// One slot in which lease `n` leaves.
fn free(alloc: Global, table: &mut Table, out: &mut String, n: u64) -> Result<(), Fail> {
    let value = OwnedValue::new(alloc, &[Command::Freed { n }])?;
    apply(table, out, &value.as_value())
}

/// One slot in which agent 0 runs in a new boot.
fn up(alloc: Global, table: &mut Table, out: &mut String, boot: u64) -> Result<(), Fail> {
    let value = OwnedValue::new(alloc, &[Command::Up { agent: 0, boot }])?;
    apply(table, out, &value.as_value())
}

/// The rows that a walk meets.
#[derive(Clone, Copy)]
enum Walk {
    All,
    In(Phase),
    Of(Ip4),
}

/// What a test does with a table.
#[derive(Clone, Copy)]
enum Step {
    /// The machine asks with this seq.
    Reserve(Ip4, u64),
    /// Lease 1 is granted.
    Grant,
    Release(u64),
    Free(u64),
    /// Agent 0 runs in this boot.
    Up(u64),
    /// The numbers of the rows that a walk from 0 meets.
    Walk(Walk),
    /// The number of the first row that a walk meets above this one.
    Next(Walk, u64),
    /// What stands after the life of lease 1.
    Tell,
}

fn next(table: &Table, walk: Walk, above: u64) -> Option<Row> {
    match walk {
        Walk::All => table.next_row(above),
        Walk::In(phase) => table.next_in(phase, above),
        Walk::Of(machine) => table.next_row_of(machine, above),
    }
}

/// The numbers of the rows that a walk meets above this one, at most so many, as one line.
fn write_walk(
    table: &Table,
    out: &mut String,
    walk: Walk,
    from: u64,
    most: u32,
) -> Result<(), Fail> {
    let mut above = from;
    out.push_str("rows")?;
    for _ in 0..most {
        if let Some(row) = next(table, walk, above) {
            above = row.n;
            write!(out, " {above}")?;
        }
    }
    out.push_str("\n")?;
    Ok(())
}

/// What stands after that life, as one line.
fn write_standing(table: &Table, out: &mut String) -> Result<(), Fail> {
    let range = Range {
        vip: VIP,
        start: 1024,
    };
    let found = table.row(81).is_some() && table.row(1).is_none();
    let same = table.state(&range) == table.row(81) && table.next_row(80) == table.row(81);
    let reserved = table.outcome(B) == Some(Outcome::Reserved { range, n: 81 });
    let pairs = table.last(A) == Some((1, 1)) && table.last(B) == Some((1, 2));
    let known = table.known(0);
    let slots = table.slots();
    writeln!(out, "{found} {same} {reserved} {pairs} {known} {slots}")?;
    Ok(())
}

fn play(alloc: Global, table: &mut Table, out: &mut String, step: Step) -> Result<(), Fail> {
    match step {
        Step::Reserve(machine, seq) => reserve(alloc, table, out, machine, seq),
        Step::Grant => grant(table, out),
        Step::Release(n) => release(alloc, table, out, n),
        Step::Free(n) => free(alloc, table, out, n),
        Step::Up(boot) => up(alloc, table, out, boot),
        Step::Walk(walk) => write_walk(table, out, walk, 0, 8),
        Step::Next(walk, above) => write_walk(table, out, walk, above, 1),
        Step::Tell => write_standing(table, out),
    }
}

fn play_all(
    alloc: Global,
    table: &mut Table,
    out: &mut String,
    steps: &[Step],
) -> Result<(), Fail> {
    for step in steps {
        play(alloc, table, out, *step)?;
    }
    Ok(())
}

/// Whether these steps over a new table tell this.
fn tells(alloc: Global, table: &mut Table, steps: &[Step], wanted: &str) -> Result<bool, Fail> {
    let mut out = String::new(alloc);
    play_all(alloc, table, &mut out, steps)?;
    Ok(out.as_str() == wanted)
}

/// The same over a table with these rules.
fn holds(alloc: Global, rules: Rules<'_>, steps: &[Step], wanted: &str) -> Result<bool, Fail> {
    let mut table = table(alloc, rules)?;
    tells(alloc, &mut table, steps, wanted)
}

#[test]
fn a_lease_lives_and_leaves(rt: HostRuntime) -> Result<(), Fail> {
    let one = Rules { high: 1031, ..WIDE };
    let steps = [
        Step::Reserve(A, 1),
        Step::Grant,
        Step::Release(1),
        Step::Reserve(B, 1),
        Step::Free(1),
        Step::Reserve(B, 2),
        Step::Tell,
    ];
    let wanted =
        "reserved 1 1024\ngranted 1 1024\nreleased 1 1024\nexhausted 49\nfreed 1 1024\nreserved 81 1024\n\
        true true true true 1 6\n";
    let held = holds(rt.alloc(), one, &steps, wanted)?;
    assert!(rt; held);
    Ok(())
}

#[test]
fn the_first_range_has_an_endpoint(rt: HostRuntime) -> Result<(), Fail> {
    let rules = Rules {
        taken: &[1026],
        ..WIDE
    };
    let held = holds(
        rt.alloc(),
        rules,
        &[Step::Reserve(A, 1)],
        "reserved 1 1032\n",
    )?;
    assert!(rt; held);
    Ok(())
}

#[test]
fn one_row_a_machine(rt: HostRuntime) -> Result<(), Fail> {
    let rules = Rules { limit: 1, ..WIDE };
    let steps = [Step::Reserve(A, 1), Step::Reserve(A, 2)];
    let held = holds(rt.alloc(), rules, &steps, "reserved 1 1024\nat limit 1\n")?;
    assert!(rt; held);
    Ok(())
}

/// Two ranges for three requests, and a range that comes back.
#[test]
fn ranges_are_used_again(rt: HostRuntime) -> Result<(), Fail> {
    let two = Rules { high: 1039, ..WIDE };
    let steps = [
        Step::Reserve(A, 1),
        Step::Reserve(B, 1),
        Step::Reserve(A, 2),
        Step::Release(17),
        Step::Free(17),
        Step::Reserve(A, 3),
    ];
    let wanted =
        "reserved 1 1024\nreserved 17 1032\nexhausted 33\nreleased 17 1032\nfreed 17 1032\nreserved 81 1032\n";
    let held = holds(rt.alloc(), two, &steps, wanted)?;
    assert!(rt; held);
    Ok(())
}

/// Two leases, and a later boot of their agent.
#[test]
fn a_later_boot_ends_rows(rt: HostRuntime) -> Result<(), Fail> {
    let steps = [
        Step::Reserve(A, 1),
        Step::Reserve(B, 1),
        Step::Up(2),
        Step::Reserve(A, 2),
        Step::Walk(Walk::In(Phase::Freeing)),
    ];
    let wanted =
        "reserved 1 1024\nreserved 17 1032\nknown 0 2\ncleared 1 1024\ncleared 17 1032\nrows 1 17\n";
    let held = holds(rt.alloc(), WIDE, &steps, wanted)?;
    assert!(rt; held);
    Ok(())
}

/// Walks over five leases of two machines.
#[test]
fn walks_meet_each_row_once(rt: HostRuntime) -> Result<(), Fail> {
    let steps = [
        Step::Reserve(A, 1),
        Step::Reserve(B, 1),
        Step::Reserve(A, 2),
        Step::Reserve(B, 2),
        Step::Reserve(A, 3),
        Step::Grant,
        Step::Walk(Walk::All),
        Step::Walk(Walk::Of(A)),
        Step::Walk(Walk::Of(B)),
        Step::Walk(Walk::Of(VIP)),
        Step::Walk(Walk::In(Phase::Leased)),
        Step::Walk(Walk::In(Phase::BeingLeased)),
        Step::Next(Walk::Of(A), 34),
        Step::Next(Walk::Of(B), 49),
    ];
    let wanted =
        "reserved 1 1024\nreserved 17 1032\nreserved 33 1040\nreserved 49 1048\nreserved 65 1056\n\
        granted 1 1024\nrows 1 17 33 49 65\nrows 1 33 65\nrows 17 49\nrows\nrows 1\nrows 17 33 49 65\nrows 65\nrows\n";
    let held = holds(rt.alloc(), WIDE, &steps, wanted)?;
    assert!(rt; held);
    Ok(())
}

/// Of three leases the one in the middle leaves, and a walk goes on from its number.
#[test]
fn walks_pass_a_row_that_left(rt: HostRuntime) -> Result<(), Fail> {
    let steps = [
        Step::Reserve(A, 1),
        Step::Reserve(A, 2),
        Step::Reserve(A, 3),
        Step::Release(17),
        Step::Walk(Walk::In(Phase::Freeing)),
        Step::Free(17),
        Step::Walk(Walk::All),
        Step::Walk(Walk::Of(A)),
        Step::Walk(Walk::In(Phase::Freeing)),
        Step::Next(Walk::Of(A), 17),
    ];
    let wanted =
        "reserved 1 1024\nreserved 17 1032\nreserved 33 1040\nreleased 17 1032\nrows 17\nfreed 17 1032\n\
        rows 1 33\nrows 1 33\nrows\nrows 33\n";
    let held = holds(rt.alloc(), WIDE, &steps, wanted)?;
    assert!(rt; held);
    Ok(())
}

/// Of four leases all leave but one, so that the places of those that left are given up; and a lease comes.
#[test]
fn walks_after_places_are_given_up(rt: HostRuntime) -> Result<(), Fail> {
    let steps = [
        Step::Reserve(A, 1),
        Step::Reserve(B, 1),
        Step::Reserve(A, 2),
        Step::Reserve(B, 2),
        Step::Release(1),
        Step::Free(1),
        Step::Release(17),
        Step::Free(17),
        Step::Release(49),
        Step::Free(49),
        Step::Walk(Walk::Of(A)),
        Step::Walk(Walk::Of(B)),
        Step::Reserve(A, 3),
        Step::Walk(Walk::Of(A)),
        Step::Walk(Walk::In(Phase::BeingLeased)),
        Step::Next(Walk::Of(A), 17),
    ];
    let wanted = "reserved 1 1024\nreserved 17 1032\nreserved 33 1040\nreserved 49 1048\n\
        released 1 1024\nfreed 1 1024\nreleased 17 1032\nfreed 17 1032\nreleased 49 1048\nfreed 49 1048\n\
        rows 33\nrows\nreserved 161 1024\nrows 33 161\nrows 33 161\nrows 33\n";
    let held = holds(rt.alloc(), WIDE, &steps, wanted)?;
    assert!(rt; held);
    Ok(())
}

/// A VIP and a machine more, each where it is new.
fn grow(alloc: Global, table: &mut Table, vip: Ip4, machine: Ip4) -> Result<(), Fail> {
    let rule = VipRule {
        vip,
        low: 2048,
        high: 2055,
        taken: Items::new(alloc),
    };
    if !table.has_vip(vip) {
        table.add_vip(rule)?;
    }
    if table.machine_rule(machine).is_none() {
        table.add_machine(MachineRule {
            machine,
            agent: 0,
            vip,
        })?;
    }
    Ok(())
}

/// Whether a lease of a machine that came with its VIP is on that VIP's first range.
fn grows(alloc: Global, table: &mut Table) -> Result<bool, Fail> {
    grow(alloc, table, Ip4(1), Ip4(2))?;
    tells(
        alloc,
        table,
        &[Step::Reserve(Ip4(2), 1)],
        "reserved 1 2048\n",
    )
}

#[test]
fn rules_grow(rt: HostRuntime) -> Result<(), Fail> {
    let mut table = table(rt.alloc(), WIDE)?;
    let grown = grows(rt.alloc(), &mut table)?;
    drop(table);
    assert!(rt; grown);
    Ok(())
}
