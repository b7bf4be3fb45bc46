// One node of a world, over its disks in memory.
ghost use Rattle.std.specs.Prelude.{◌≡◌, ◌+◌, ◌++◌, Some, None, is_some, if◌then◌else◌, IfSome, IfErr, OnOk, IfOk};
ghost use Rattle.node_spec.specs.Bodies.{entries_of};
ghost use Rattle.node_spec.specs.Steps.{input_of};
ghost use Rattle.world_spec.specs.Acts.{log_length};
ghost use Rattle.world_spec.specs.Nodes.{boot_entry, booted, listed};
ghost use Rattle.world_nodes.specs.Disks.{Holds, IsLent, IsPlace, IsUp, bodies_in, entries_on, entry_of, place_entries, place_up, site_of};
ghost use Rattle.world_nodes.specs.Overflows.{FullsBy, overflow, site_cut_overflow, site_cut_restart_overflow, site_restart_overflow, site_step_overflow, world_fault};
ghost use Rattle.world_nodes.specs.declared.fault.WorldFault.TheVariants.{NoMemory};
ghost use Rattle.world_nodes.specs.Sites.{deciding, first_site, site_crash, site_cut, site_cut_restart, site_lose, site_restart, site_step, told_by, told_none};

use crate::fault::WorldFault;
use crate::outbox::Outbox;
use crate::stepped::Stepped;
use disk_model::MemDisk;
use journal::{Journal, Refused};
use node_core::{BOUND, Core, Node};
use node_disk::NodeFault;
use std::alloc::{AllocError, Global};
use std::mem;
use vip_config::Config;
use wire_core::{BodyList, Entry, EntryBytes, Input, Items, NoMemory, NodeId};

/// Where a node is: up, or down with its two disks. It is away only while it is being changed, and after a fault.
#[derive(Drop)]
pub enum Place<C: Core> {
    Up(Node<C, MemDisk>),
    Down(MemDisk, MemDisk),
    Away,
}

/// A node of a world, and how many values its log has.
#[derive(Drop)]
pub struct Site<C: Core> {
    pub(crate) place: Place<C>,
    pub(crate) learned: u64,
}

// A disk in memory fails for want of memory alone, and a node's own disk is its own.
fn fault_of(fault: NodeFault) -> WorldFault
    ensures { result ≡ world_fault fault }
{
    match fault {
        NodeFault::Full { length, body } => WorldFault::Full { length, body },
        NodeFault::Disk
        | NodeFault::NoMemory
        | NodeFault::Damaged { .. }
        | NodeFault::WrongDisk { .. }
        | NodeFault::Spent { .. } => WorldFault::NoMemory,
    }
}

// How many values the entry learns: 1 or 0.
fn count_learned(entry: &Option<EntryBytes>) -> u64
    ensures { result ≡ log_length (entry_of entry.now) }
{
    match entry {
        None => 0,
        Some(body) => match Entry::read(body.as_slice()) {
            Ok(Entry::Learn { .. }) => 1,
            Ok(Entry::Boot { .. }) => 0,
            Ok(Entry::Promise { .. }) => 0,
            Ok(Entry::Vote { .. }) => 0,
            Ok(Entry::Epoch { .. }) => 0,
            Err(_) => 0,
        },
    }
}

// One step of a node that is up, where its log had so many values.
#[tactic(auto, using(crate::proofs::Places::entries_next))]
fn step_node<C: Core>(
    alloc: Global,
    node: &mut Node<C, MemDisk>,
    learned: u64,
    input: &Input<'_>,
) -> Result<Stepped, WorldFault>
    requires up { IsUp node.old }
    ensures up { OnOk result (IsUp node.new) }
    ensures core { OnOk result (node.new.core ≡ (C.step node.old.core (input_of input.now)).0) }
    ensures entries { OnOk result (entries_on node.new.journal.first
        ≡ entries_on node.old.journal.first ++ listed (C.written node.old.core (input_of input.now))) }
    ensures told { IfOk result (λ s. s
        ≡ told_by (learned + log_length (listed (C.written node.old.core (input_of input.now))))
        (C.step node.old.core (input_of input.now)).1) }
    ensures full { FullsBy (overflow (entries_on node.old.journal.first)
        (C.written node.old.core (input_of input.now))) result }
{
    let mut outbox = Outbox::new(alloc);
    let report = match node.handle(input, &mut outbox) {
        Ok(report) => report,
        Err(fault) => return Err(fault_of(fault)),
    };
    let Some(learned) = learned.checked_add(count_learned(&report.entry)) else {
        return Err(WorldFault::NoMemory);
    };
    Ok(Stepped {
        learned,
        acts: report.acts,
        notes: report.notes,
        sends: outbox.into_sent()?,
    })
}

// What a crash leaves of a node that was up.
#[tactic(auto, using(crate::proofs::Places::holds_crashed, crate::proofs::Places::entries_crashed))]
fn fallen<C: Core>(node: Node<C, MemDisk>) -> Place<C>
    requires up { IsUp node }
    ensures place { IsPlace result }
    ensures entries { place_entries result ≡ entries_on node.journal.first }
    ensures down { place_up result ≡ None }
{
    let (a, b) = node.crash();
    Place::Down(a.crash(&[]), b.crash(&[]))
}

// Opens a node on its disks.
#[tactic(auto, using(crate::proofs::Places::holds_opened, crate::proofs::Places::entries_opened, crate::proofs::Places::core_opened, crate::proofs::Places::length_opened))]
fn open_node<C: Core>(
    alloc: Global,
    cfg: &Config,
    who: NodeId,
    a: MemDisk,
    b: MemDisk,
) -> Result<Node<C, MemDisk>, WorldFault>
    requires may { C.may_open cfg.now who }
    requires holds { Holds a }
    ensures up { IfOk result IsUp }
    ensures core { IfOk result (λ node. node.core ≡ C.opened cfg.now who (booted who (entries_on a))) }
    ensures entries { IfOk result (λ node. entries_on node.journal.first ≡ booted who (entries_on a)) }
    ensures full { FullsBy (overflow (entries_on a) (Some (boot_entry who (entries_on a)))) result }
{
    match Node::open(alloc, cfg, who, a, b) {
        Ok(node) => Ok(node),
        Err(Refused { fault, .. }) => Err(fault_of(fault)),
    }
}

/// An input to a node. `None` where it is down.
pub fn step<C: Core>(
    alloc: Global,
    site: &mut Site<C>,
    input: &Input<'_>,
) -> Result<Option<Stepped>, WorldFault>
    requires place { IsPlace site.old.place }
    ensures place { OnOk result (IsPlace site.new.place) }
    ensures step { IfOk result (λ r. (site_of site.new, r)
        ≡ site_step (deciding C.step C.written) (site_of site.old) (input_of input.now)) }
    ensures full { FullsBy (site_step_overflow (deciding C.step C.written) (site_of site.old) (input_of input.now)) result }
{
    match &mut site.place {
        Place::Up(node) => {
            let stepped = step_node(alloc, node, site.learned, input)?;
            site.learned = stepped.learned;
            Ok(Some(stepped))
        }
        Place::Down(..) => Ok(None),
        Place::Away => Ok(None),
    }
}

// The place after a crash.
fn fall<C: Core>(place: Place<C>) -> Place<C>
    requires place { IsPlace place }
    ensures place { IsPlace result }
    ensures entries { place_entries result ≡ place_entries place }
    ensures down { place_up result ≡ None }
{
    match place {
        Place::Up(node) => fallen(node),
        Place::Down(a, b) => Place::Down(a, b),
        Place::Away => Place::Away,
    }
}

fn is_up<C: Core>(site: &Site<C>) -> bool
    requires place { IsPlace site.now.place }
    ensures { result ≡ is_some (site_of site.now).up }
{
    matches!(site.place, Place::Up(_))
}

/// A crash, which does nothing where the node is down; and whether it was up.
pub fn crash<C: Core>(site: &mut Site<C>) -> bool
    requires place { IsPlace site.old.place }
    ensures place { IsPlace site.new.place }
    ensures crash { (site_of site.new, result) ≡ site_crash (site_of site.old) }
{
    let up = is_up(site);
    let place = mem::replace(&mut site.place, Place::Away);
    site.place = fall(place);
    up
}

// The place after an opening.
fn rise<C: Core>(
    alloc: Global,
    cfg: &Config,
    who: NodeId,
    place: Place<C>,
    learned: u64,
) -> Result<Place<C>, WorldFault>
    requires may { C.may_open cfg.now who }
    requires place { IsPlace place }
    ensures place { IfOk result IsPlace }
    ensures opens { IfOk result (λ p. site_of (record { place = p; learned = learned })
        ≡ (site_restart C.opened cfg.now who (site_of (record { place = place; learned = learned }))).0) }
    ensures full { FullsBy (site_restart_overflow who (site_of (record { place = place; learned = learned }))) result }
{
    let _ = learned;
    match place {
        Place::Up(node) => Ok(Place::Up(node)),
        Place::Down(a, b) => Ok(Place::Up(open_node(alloc, cfg, who, a, b)?)),
        Place::Away => Ok(Place::Away),
    }
}

/// An opening of a configured node, which does nothing where it is up; and whether it was down.
pub fn restart<C: Core>(
    alloc: Global,
    cfg: &Config,
    who: NodeId,
    site: &mut Site<C>,
) -> Result<bool, WorldFault>
    requires may { C.may_open cfg.now who }
    requires place { IsPlace site.old.place }
    ensures place { OnOk result (IsPlace site.new.place) }
    ensures restart { IfOk result (λ r. (site_of site.new, r) ≡ site_restart C.opened cfg.now who (site_of site.old)) }
    ensures full { FullsBy (site_restart_overflow who (site_of site.old)) result }
{
    let up = is_up(site);
    let place = mem::replace(&mut site.place, Place::Away);
    site.place = rise(alloc, cfg, who, place, site.learned)?;
    Ok(!up)
}

// Nothing was done, and the log has so many values.
fn nothing(alloc: Global, learned: u64) -> Stepped
    ensures { result ≡ told_none learned }
{
    Stepped {
        learned,
        acts: Items::new(alloc),
        notes: Items::new(alloc),
        sends: Items::new(alloc),
    }
}

// A crash in place of a step.
fn lose<C: Core>(alloc: Global, site: &mut Site<C>) -> Option<Stepped>
    requires place { IsPlace site.old.place }
    ensures place { IsPlace site.new.place }
    ensures lost { (site_of site.new, result) ≡ site_lose (site_of site.old) }
{
    if crash(site) {
        Some(nothing(alloc, site.learned))
    } else {
        None
    }
}

/// A step that a crash cuts short: its entry is kept or lost, and nothing is sent. `None` where the node was down.
pub fn cut<C: Core>(
    alloc: Global,
    site: &mut Site<C>,
    input: &Input<'_>,
    keep: bool,
) -> Result<Option<Stepped>, WorldFault>
    requires place { IsPlace site.old.place }
    ensures place { OnOk result (IsPlace site.new.place) }
    ensures cut { IfOk result (λ r. (site_of site.new, r)
        ≡ site_cut (deciding C.step C.written) (site_of site.old) (input_of input.now) keep) }
    ensures full { FullsBy (site_cut_overflow (deciding C.step C.written) (site_of site.old) (input_of input.now) keep)
        result }
{
    if keep {
        let stepped = step(alloc, site, input)?;
        crash(site);
        return Ok(stepped);
    }
    Ok(lose(alloc, site))
}

/// An opening of a configured node that a crash cuts short: its boot is kept or lost. It does nothing where the node is
/// up; and whether it was down.
pub fn cut_restart<C: Core>(
    alloc: Global,
    cfg: &Config,
    who: NodeId,
    site: &mut Site<C>,
    keep: bool,
) -> Result<bool, WorldFault>
    requires may { C.may_open cfg.now who }
    requires place { IsPlace site.old.place }
    ensures place { OnOk result (IsPlace site.new.place) }
    ensures cut { IfOk result (λ r. (site_of site.new, r)
        ≡ site_cut_restart C.opened cfg.now who (site_of site.old) keep) }
    ensures full { FullsBy (site_cut_restart_overflow who (site_of site.old) keep) result }
{
    if is_up(site) {
        return Ok(false);
    }
    if keep {
        restart(alloc, cfg, who, site)?;
        crash(site);
    }
    Ok(true)
}

/// A configured node, opened on empty disks.
#[tactic(auto, using(crate::proofs::Places::holds_new, crate::proofs::Places::entries_new, crate::proofs::Fulls::first_memory))]
pub fn first_site<C: Core>(alloc: Global, cfg: &Config, who: NodeId) -> Result<Site<C>, WorldFault>
    requires may { C.may_open cfg.now who }
    ensures place { IfOk result (λ s. IsPlace s.place) }
    ensures site { IfOk result (λ s. site_of s ≡ first_site C.opened cfg.now who) }
    ensures memory { IfErr result (λ e. e ≡ NoMemory) }
{
    let a = MemDisk::new(alloc)?;
    let b = MemDisk::new(alloc)?;
    let node = open_node(alloc, cfg, who, a, b)?;
    Ok(Site {
        place: Place::Up(node),
        learned: 0,
    })
}

/// The node, where it is up.
#[tactic(auto, using(crate::proofs::Places::lent))]
pub fn node<C: Core>(site: &Site<C>) -> Option<&Node<C, MemDisk>>
    requires place { IsPlace site.now.place }
    ensures lent { IfSome result (λ node. IsLent (site_of site.now) node.now) }
    ensures up { is_some result ≡ is_some (site_of site.now).up }
{
    match &site.place {
        Place::Up(node) => Some(node),
        Place::Down(..) => None,
        Place::Away => None,
    }
}

// The bodies of a disk, read off a copy.
fn read_disk(alloc: Global, disk: &MemDisk) -> Result<BodyList, NoMemory>
    requires holds { Holds disk.now }
    ensures { IfOk result (λ bodies. bodies ≡ bodies_in disk.now.history.now.bytes) }
{
    let copy = disk.copy(alloc)?;
    let other = MemDisk::new(alloc)?;
    match Journal::open(alloc, copy, other, BOUND) {
        Ok((journal, bodies)) => {
            drop(journal);
            Ok(bodies)
        }
        Err(_) => Err(AllocError),
    }
}

/// The bodies of the node's journal, whether it is up or down.
pub fn bodies<C: Core>(alloc: Global, site: &Site<C>) -> Result<BodyList, NoMemory>
    requires place { IsPlace site.now.place }
    ensures { IfOk result (λ bodies. entries_of bodies ≡ (site_of site.now).entries) }
{
    match &site.place {
        Place::Up(node) => read_disk(alloc, node.disk()),
        Place::Down(disk, _) => read_disk(alloc, disk),
        Place::Away => Ok(Items::new(alloc)),
    }
}
