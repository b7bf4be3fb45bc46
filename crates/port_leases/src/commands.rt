ghost use Rattle.std.specs.Prelude.{ℕ, ◌≡◌, ◌<◌, ◌≤◌, ◌+◌, ◌*◌, ◌^◌, ◌++◌, length};
ghost use Rattle.std.specs.List.{list_any};
ghost use Rattle.lease_spec.specs.Table.{apply, at_phase, command as command_done, decide, free, grant, next, raise_known, release, reserve, row_at, rule_of, up};
ghost use Rattle.lease_rows.specs.Effects.{Adds};
ghost use Rattle.lease_spec.specs.Places.{placed};
ghost use Rattle.port_leases.specs.Store.{Does, may_raise, request};
ghost use Rattle.wire_core.specs.Views.{command_of};

use crate::store::Store;
use lease_rows::Effects;
use lease_spec::{Effect, Phase, Row};
use wire_core::{Command, Ip4, MachineRule, Value};

/// The row, in another phase.
fn at_phase(row: Row, phase: Phase) -> Row
    ensures { result ≡ at_phase phase row }
{
    Row { phase, ..row }
}

/// The muxes have the row: it is Leased from now on, where it was BeingLeased.
#[tactic(auto, unfolding(lease_spec::specs::Table::grant))]
fn grant(store: &mut Store, n: u64, effects: &mut Effects)
    requires room { length (grant store.old.leases (row_at store.old.leases.rows n)).effects ≤ effects.old.room }
    ensures does { Does store.old store.new (grant store.old.leases (row_at store.old.leases.rows n)) }
    ensures effects { Adds effects.old effects.new (grant store.old.leases (row_at store.old.leases.rows n)).effects }
    ensures next { store.new.next ≤ store.old.next }
{
    let Some(row) = store.row_at(n) else {
        return;
    };
    if row.phase == Phase::BeingLeased {
        store.set_phase(row.n, Phase::Leased);
        effects.push(Effect::Granted {
            row: at_phase(row, Phase::Leased),
        });
    }
}

/// The agent gave the row back: it is Freeing from now on, where it wasn't yet.
#[tactic(auto, unfolding(lease_spec::specs::Table::release))]
fn release(store: &mut Store, n: u64, effects: &mut Effects)
    requires room { length (release store.old.leases (row_at store.old.leases.rows n)).effects ≤ effects.old.room }
    ensures does { Does store.old store.new (release store.old.leases (row_at store.old.leases.rows n)) }
    ensures effects { Adds effects.old effects.new (release store.old.leases (row_at store.old.leases.rows n)).effects }
    ensures next { store.new.next ≤ store.old.next }
{
    let Some(row) = store.row_at(n) else {
        return;
    };
    if row.phase != Phase::Freeing {
        store.set_phase(row.n, Phase::Freeing);
        effects.push(Effect::Released {
            row: at_phase(row, Phase::Freeing),
        });
    }
}

/// No mux has the row any more: it leaves, where it was Freeing.
#[tactic(auto, unfolding(lease_spec::specs::Table::free))]
fn free(store: &mut Store, n: u64, effects: &mut Effects)
    requires room { length (free store.old.leases (row_at store.old.leases.rows n)).effects ≤ effects.old.room }
    ensures does { Does store.old store.new (free store.old.leases (row_at store.old.leases.rows n)) }
    ensures effects { Adds effects.old effects.new (free store.old.leases (row_at store.old.leases.rows n)).effects }
    ensures next { store.new.next ≤ store.old.next }
{
    let Some(row) = store.row_at(n) else {
        return;
    };
    if row.phase == Phase::Freeing {
        store.remove(&row);
        effects.push(Effect::Freed { row });
    }
}

/// An agent runs in a new boot.
#[tactic(auto, unfolding(lease_spec::specs::Table::up))]
fn up(store: &mut Store, agent: u16, boot: u64, effects: &mut Effects)
    requires room { 0 < store.old.room }
    requires effects { length (up agent boot store.old.leases).effects ≤ effects.old.room }
    ensures does { Does store.old store.new (up agent boot store.old.leases) }
    ensures effects { Adds effects.old effects.new (up agent boot store.old.leases).effects }
    ensures next { store.new.next ≤ store.old.next }
{
    if agent < 256 && store.known_boot(agent) < boot {
        effects.push(Effect::Known { agent, boot });
        store.raise_known(agent, boot, effects);
    }
}

/// A request that has an effect.
fn request(
    store: &mut Store,
    place: u64,
    boot: u64,
    rule: MachineRule,
    seq: u64,
    effects: &mut Effects,
)
    requires room { 2 < store.old.room }
    requires next { store.old.next ≤ place }
    requires effects { length (request store.old.rules place boot rule seq store.old.leases).effects
        ≤ effects.old.room }
    ensures does { Does store.old store.new (request store.old.rules place boot rule seq store.old.leases) }
    ensures effects { Adds effects.old effects.new
        (request store.old.rules place boot rule seq store.old.leases).effects }
    ensures next { store.new.next ≤ place + 1 }
{
    store.raise_known(rule.agent, boot, effects);
    let effect = store.decide(place, boot, rule, seq);
    effects.push(effect);
}

/// An agent asks for a range for a machine.
#[tactic(auto, unfolding(lease_spec::specs::Table::reserve))]
fn reserve(
    store: &mut Store,
    place: u64,
    agent: u16,
    boot: u64,
    machine: Ip4,
    seq: u64,
    effects: &mut Effects,
)
    requires room { 2 < store.old.room }
    requires next { store.old.next ≤ place }
    requires effects { length (reserve store.old.rules place agent boot seq (rule_of store.old.rules machine)
        store.old.leases).effects ≤ effects.old.room }
    ensures does { Does store.old store.new
        (reserve store.old.rules place agent boot seq (rule_of store.old.rules machine) store.old.leases) }
    ensures effects { Adds effects.old effects.new
        (reserve store.old.rules place agent boot seq (rule_of store.old.rules machine) store.old.leases).effects }
    ensures next { store.new.next ≤ place + 1 }
{
    let Some(rule) = store.rule_of(machine) else {
        return;
    };
    if rule.agent == agent
        && store.known_boot(agent) <= boot
        && store.is_later(rule.machine, boot, seq)
    {
        request(store, place, boot, rule, seq, effects);
    }
}

/// One command at its place.
pub fn apply_command(store: &mut Store, place: u64, command: Command<'_>, effects: &mut Effects)
    requires room { 2 < store.old.room }
    requires next { store.old.next ≤ place }
    requires effects { length (command_done store.old.rules place (command_of command) store.old.leases).effects
        ≤ effects.old.room }
    ensures does { Does store.old store.new
        (command_done store.old.rules place (command_of command.entry) store.old.leases) }
    ensures effects { Adds effects.old effects.new
        (command_done store.old.rules place (command_of command.entry) store.old.leases).effects }
    ensures next { store.new.next ≤ place + 1 }
{
    match command {
        Command::Reserve {
            agent,
            boot,
            machine,
            seq,
        } => reserve(store, place, agent, boot, machine, seq, effects),
        Command::Granted { n, .. } => grant(store, n, effects),
        Command::Release { n } => release(store, n, effects),
        Command::Freed { n } => free(store, n, effects),
        Command::Up { agent, boot } => up(store, agent, boot, effects),
    }
}

/// Whether the command raises an agent's known boot.
fn raises(store: &Store, command: Command<'_>) -> bool
    ensures { result ≡ may_raise store.now.leases.known (command_of command.entry) }
{
    match command {
        Command::Reserve { agent, boot, .. } | Command::Up { agent, boot } => {
            store.known_boot(agent) < boot
        }
        Command::Granted { .. } | Command::Release { .. } | Command::Freed { .. } => false,
    }
}

/// Whether a command of the value raises an agent's known boot.
fn some_raises(store: &Store, value: &Value) -> bool
    ensures { result ≡ list_any (may_raise store.now.leases.known) value.now }
{
    for i in 0..value.len() {
        if raises(store, value.command(i)) {
            return true;
        }
    }
    false
}

/// At least as many effects as the value's commands have: two a command, and where a boot rises, a row that it ends.
pub fn effects_room(store: &Store, place: u64, value: &Value) -> usize
    requires { store.now.next ≤ place }
    ensures { length (apply store.now.rules (placed place value.now) store.now.leases).effects ≤ result }
{
    if some_raises(store, value) {
        store.len() + 2 * value.len()
    } else {
        2 * value.len()
    }
}

/// The commands of a value, from this place on.
pub fn apply_value(store: &mut Store, place: u64, value: &Value, effects: &mut Effects)
    requires room { 3 * length value.now ≤ store.old.room }
    requires small { place < 2 ^ 63 }
    requires next { store.old.next ≤ place }
    requires effects { length (apply store.old.rules (placed place value.now) store.old.leases).effects
        ≤ effects.old.room }
    ensures rules { store.new.rules ≡ store.old.rules }
    ensures leases { store.new.leases ≡ (apply store.old.rules (placed place value.now) store.old.leases).leases }
    ensures next { store.new.next ≤ place + length value.now }
    ensures effects { effects.new.effects
        ≡ effects.old.effects ++ (apply store.old.rules (placed place value.now) store.old.leases).effects }
{
    for i in 0..value.len() {
        apply_command(store, place + i as u64, value.command(i), effects);
    }
}
