// What is seen of the muxes that are up.
ghost use Rattle.std.specs.Prelude.{◌≡◌, ◌++◌, length, IfOk, OnOk};
ghost use Rattle.wire_core.specs.declared.node.NodeId.TheVariants as node;
ghost use Rattle.world_model.specs.Sound.{IsSound, world_of};
ghost use Rattle.world_nodes.specs.Nodes.{node_at};
ghost use Rattle.world_spec.specs.Views.{row_of};
ghost use Rattle.world_views.specs.Seen.{all_rows, rows_in, seen};
ghost use Rattle.world_views.specs.Views.{AreEntriesOf};

use mux_core::Mux;
use mux_spec::Kept;
use node_core::Core;
use node_roles::Role;
use std::alloc::{AllocError, Global};
use wire_core::{Items, NoMemory, NodeId, Range};
use world_model::World;
use world_spec::MuxRow;

/// Rows of muxes.
pub type MuxRowList = Items<MuxRow>;

// How many muxes there are.
fn count_muxes(world: &World<Role>) -> u16
    ensures { result ≡ length (world_of world.now).cfg.muxes }
{
    let cfg = world.config();
    cfg.keeps_rules();
    cfg.muxes().len() as u16
}

// The row of a range, if it has a machine, behind those before.
fn add_row(list: &mut Vec<MuxRow>, mux: &Mux, range: Range, kept: Kept) -> Result<(), NoMemory>
    ensures { OnOk result (list.new.items ≡ list.old.items ++ row_of mux.now.lists range kept.n kept.machine) }
{
    if let Some(machine) = kept.machine {
        list.push(MuxRow {
            mux: mux.index(),
            boot: mux.boot(),
            range,
            n: kept.n,
            machine,
        })?;
    }
    Ok(())
}

// The rows of a mux, behind those before.
fn add_rows(list: &mut Vec<MuxRow>, mux: &Mux) -> Result<(), NoMemory>
    ensures { OnOk result (list.new.items ≡ list.old.items ++ all_rows mux.now.lists) }
{
    for i in 0..usize::MAX {
        let Some((range, kept)) = mux.row(i) else {
            return Ok(());
        };
        add_row(list, mux, range, kept)?;
    }
    Err(AllocError)
}

// The rows of a node, if it is a mux that is up.
fn add_rows_of(list: &mut Vec<MuxRow>, world: &World<Role>, i: u16) -> Result<(), NoMemory>
    requires sound { IsSound ⟦<Role as Core>⟧.may_open world.now }
    ensures { OnOk result (list.new.items
        ≡ list.old.items ++ rows_in (node_at (world_of world.now).nodes (node.Mux i)).up) }
{
    let Some(node) = world.node(NodeId::Mux(i)) else {
        return Ok(());
    };
    match node.core() {
        Role::Mux(mux) => add_rows(list, mux),
        Role::Replica(_) | Role::Agent(_) => Ok(()),
    }
}

// The rows of the first muxes.
fn rows_first(alloc: Global, world: &World<Role>, count: u16) -> Result<Vec<MuxRow>, NoMemory>
    requires sound { IsSound ⟦<Role as Core>⟧.may_open world.now }
    ensures { IfOk result (λ list. list.items ≡ seen rows_in (world_of world.now).nodes.muxes count) }
{
    let mut list = Vec::new(alloc);
    for i in 0..count {
        add_rows_of(&mut list, world, i)?;
    }
    Ok(list)
}

/// The rows of the muxes that are up, each with the mux, its boot, and the machine: muxes by number, each mux's by the
/// VIPs of the configuration and their starts. Costs a look at each range that may be leased.
pub fn entries(alloc: Global, world: &World<Role>) -> Result<MuxRowList, NoMemory>
    requires sound { IsSound ⟦<Role as Core>⟧.may_open world.now }
    ensures { IfOk result (λ list. AreEntriesOf (world_of world.now) list) }
{
    let list = rows_first(alloc, world, count_muxes(world))?;
    Ok(Items::from_vec(list))
}
