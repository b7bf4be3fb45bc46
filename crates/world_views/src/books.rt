// The book: the rows of the lease table of the longest log.
ghost use Rattle.std.specs.Prelude.{◌≡◌, length, IfOk, OnOk};
ghost use Rattle.lease_spec.specs.Places.{slot_commands};
ghost use Rattle.node_spec.specs.Bodies.{entries_of, entry_in};
ghost use Rattle.port_leases.specs.TableState.{apply_slot, rows_above};
ghost use Rattle.vip_config.specs.Leases.{lease_rules_of};
ghost use Rattle.wire_core.specs.Entries.{read_entry};
ghost use Rattle.world_model.specs.Sound.{IsSound, world_of};
ghost use Rattle.world_spec.specs.Acts.{learned};
ghost use Rattle.world_spec.specs.Views.{book_of};
ghost use Rattle.world_views.specs.Books.{learns, longest_of, site_of};
ghost use Rattle.world_views.specs.Views.{AreBookOf};

use node_core::Core;
use node_roles::Role;
use port_leases::{Row, Table};
use std::alloc::{AllocError, Global};
use vip_config::Config;
use wire_core::{BodyList, Entry, EntryBytes, Items, NoMemory, NodeId, Value};
use world_model::World;

/// Rows of the lease table.
pub type RowList = Items<Row>;

/// More slots than any memory has values for.
const MANY: u64 = 1 << 58;

// ---- the longest log

// How many replicas there are.
fn count_replicas(world: &World<Role>) -> u8
    ensures { result ≡ length (world_of world.now).cfg.replicas }
{
    let cfg = world.config();
    cfg.keeps_rules();
    cfg.replicas().len() as u8
}

// The first of the replicas with the longest log, among so many: none where no log has a value.
fn longest(world: &World<Role>, count: u8) -> Option<u8>
    ensures { site_of (world_of world.now).nodes.replicas result
        ≡ longest_of (world_of world.now).nodes.replicas count }
{
    let mut most = 0;
    let mut who = None;
    for i in 0..count {
        let length = world.log_length(NodeId::Replica(i));
        if most < length {
            most = length;
            who = Some(i);
        }
    }
    who
}

// The bodies of its disk.
#[tactic(auto, unfolding(node_spec::specs::Bodies::entries_of))]
fn longest_bodies(alloc: Global, world: &World<Role>) -> Result<BodyList, NoMemory>
    requires sound { IsSound ⟦<Role as Core>⟧.may_open world.now }
    ensures { IfOk result (λ bodies. entries_of bodies ≡ (longest_of (world_of world.now).nodes.replicas
        (length (world_of world.now).cfg.replicas)).entries) }
{
    match longest(world, count_replicas(world)) {
        Some(i) => world.bodies(NodeId::Replica(i)),
        None => Ok(Items::new(alloc)),
    }
}

// ---- its table

// A value is that of the next slot.
fn learn(table: &mut Table, value: &Value<'_>) -> Result<(), NoMemory>
    ensures { OnOk result (table.new ≡ (apply_slot table.old value.now).0) }
{
    let slot = table.slots();
    if slot >= MANY {
        return Err(AllocError);
    }
    table.apply(slot, value)?;
    Ok(())
}

// What a body's entry learns is; other entries do nothing to the table.
#[tactic(auto, unfolding(world_spec::specs::Acts::learned))]
fn learn_body(table: &mut Table, body: &EntryBytes) -> Result<(), NoMemory>
    ensures { OnOk result (table.new ≡ learns table.old (learned (entry_in (read_entry body.now)))) }
{
    match Entry::read(body.as_slice()) {
        Ok(Entry::Learn { value, .. }) => learn(table, &value),
        Ok(Entry::Boot { .. }) => Ok(()),
        Ok(Entry::Promise { .. }) => Ok(()),
        Ok(Entry::Vote { .. }) => Ok(()),
        Ok(Entry::Epoch { .. }) => Ok(()),
        Err(_) => Ok(()),
    }
}

// All bodies, in order.
#[tactic(auto, unfolding(node_spec::specs::Bodies::entries_of, world_spec::specs::Acts::learned))]
fn learn_all(table: &mut Table, bodies: &[EntryBytes]) -> Result<(), NoMemory>
    ensures { OnOk result (table.new ≡ learns table.old (learned (entries_of bodies.now))) }
{
    for body in bodies {
        learn_body(table, body)?;
    }
    Ok(())
}

// The table of a disk with these bodies.
#[tactic(auto, using(crate::proofs::BookLaws::learns_fresh))]
fn read_table(alloc: Global, cfg: &Config, bodies: &[EntryBytes]) -> Result<Table, NoMemory>
    ensures { IfOk result (λ table. table.leases ≡ book_of cfg.now (entries_of bodies.now)) }
{
    let mut table = Table::new(alloc, cfg.lease_rules(alloc)?)?;
    learn_all(&mut table, bodies)?;
    Ok(table)
}

// Its rows, by number.
fn list_rows(alloc: Global, table: &Table) -> Result<Vec<Row>, NoMemory>
    ensures { IfOk result (λ rows. rows.items ≡ rows_above table.now.leases.rows 0) }
{
    let mut rows = Vec::new(alloc);
    let mut above = 0;
    while let Some(row) = table.next_row(above) {
        rows.push(row)?;
        above = row.n;
    }
    Ok(rows)
}

/// The rows of the book by number: those of the lease table of the longest log, which is read off the disk of its
/// replica, up or down; the first of equally long ones. Costs a copy of that disk, and applies each value of its log.
pub fn book(alloc: Global, world: &World<Role>) -> Result<RowList, NoMemory>
    requires sound { IsSound ⟦<Role as Core>⟧.may_open world.now }
    ensures { IfOk result (λ list. AreBookOf (world_of world.now) list) }
{
    let bodies = longest_bodies(alloc, world)?;
    let table = read_table(alloc, world.config(), bodies.as_slice())?;
    let rows = list_rows(alloc, &table)?;
    Ok(Items::from_vec(rows))
}
