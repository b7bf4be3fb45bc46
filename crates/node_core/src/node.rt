ghost use Rattle.std.specs.Prelude.{◌≡◌, ◌≤◌, ◌-◌, ◌<◌, ◌+◌, Ok, Some, true, false, ℕ, length, IfOk, IfErr, IfSome, OnOk, OnErr};
ghost use Rattle.outside_io.specs.Disk.{LeavesOnly};
ghost use Rattle.journal.specs.Durable.{IsStill, file_in};
ghost use Rattle.journal.specs.Journal.{journal_length};
ghost use Rattle.node_spec.specs.Bodies.{IsSpelled, Spells, entries_of};
ghost use Rattle.node_spec.specs.Steps.{input_of};
ghost use Rattle.node_disk.specs.Judging.{IsJudged, boot_entry, index_of, judge, role_of};
ghost use Rattle.node_disk.specs.Keeping.{Fits, IsKept, LeavesKept, ReadsKept, length_with};
ghost use Rattle.wire_core.specs.Entries.{IsEntry};
ghost use Rattle.wire_core.specs.declared.entry.Entry.TheVariants.{Boot};
ghost use Rattle.node_core.specs.Handling.{HandleFails, SpellsFull, is_ready};
ghost use Rattle.node_core.specs.Opening.{OpenFails, OpeningLeaves, OpensAs, OpensWith, first_after, next_boot, second_after, with_boot};
ghost use Rattle.node_core.specs.Sending.{Handed};

use crate::decides::Core;
use crate::sending::send_all;
use journal::{Journal, Refused};
use node_disk::{NodeFault, boot_bytes, judge, keep};
use outside_io::{Disk, Link};
use std::alloc::Global;
use vip_config::Config;
use wire_core::{ActList, BodyList, EntryBytes, Input, NodeId, NoteList};

/// The most bytes of a journal.
pub const BOUND: u32 = 1_073_741_824;

/// What a step did.
#[derive(Debug, Drop)]
pub struct Report {
    /// What it made durable.
    pub entry: Option<EntryBytes>,
    pub acts: ActList,
    pub notes: NoteList,
    /// How many datagrams the link took.
    pub sent: u64,
    /// How many it lost.
    pub failed: u64,
}

/// One node over its two disks.
#[derive(Drop)]
pub struct Node<C: Core, D: Disk> {
    alloc: Global,
    journal: Journal<D>,
    core: C,
    live: bool,
}

// The core of an opening of a journal with these bodies and this length in bytes, and its Boot entry.
fn prepare<C: Core>(
    alloc: Global,
    cfg: &Config,
    who: NodeId,
    bodies: BodyList,
    end: u32,
) -> Result<(C, Option<EntryBytes>), NodeFault>
    requires may { C.may_open cfg.now who }
    requires length { journal_length bodies ≡ end }
    ensures judged { IfOk result (λ x. judge who bodies ≡ Ok (next_boot bodies)) }
    ensures core { IfOk result (λ x. x.0 ≡ C.opened cfg.now who (entries_of (with_boot who bodies))) }
    ensures entry { IfOk result (λ x. x.1 ≡ Some (boot_entry who (next_boot bodies))) }
    ensures spelled { IfOk result (λ x. IfSome x.1 IsSpelled) }
    ensures allowed { OnOk result (IsEntry (Boot 1 (role_of who) (index_of who) (next_boot bodies))) }
    ensures fault { IfErr result (λ e. IsJudged e (judge who bodies)) }
{
    let boot = judge(alloc, who, bodies.as_slice(), end)?;
    let entry = boot_bytes(alloc, who, boot)?;
    let mut bodies = bodies;
    bodies.push(boot_bytes(alloc, who, boot)?)?;
    let core = C::recover(alloc, cfg, who, &bodies)?;
    Ok((core, Some(entry)))
}

impl<C: Core, D: Disk> Node<C, D> {
    /// Opens a configured node over its two disks: reads the journal in `a`, judges whether it is this node's, and
    /// appends its Boot entry. A fault hands the two disks back; the first that applies is told, in the order of
    /// [`NodeFault`]. `b` is left as it is. The cost is linear in the journal and in the configuration.
    pub fn open(
        alloc: Global,
        cfg: &Config,
        who: NodeId,
        a: D,
        b: D,
    ) -> Result<Node<C, D>, Refused<NodeFault, D>>
        requires may { C.may_open cfg.now who }
        ensures live { IfOk result (λ node. is_ready node ≡ true) }
        ensures bound { IfOk result (λ node. node.journal.bound ≡ 1073741824) }
        ensures opened { IfOk result (λ node. OpensAs 1073741824 cfg.now who (D.history a)
            (D.history node.journal.first) C.opened node.core) }
        ensures with { IfOk result (λ node. OpensWith 1073741824 cfg.now who (D.history a)
            (D.history node.journal.first) C.opened node.core node.journal.length) }
        ensures still { IsStill (D.history a)
            → OpeningLeaves 1073741824 who (D.history a) (D.history a) (D.history (first_after result)) }
        ensures fault { IfErr result (λ e. OpenFails 1073741824 who (D.history a) (D.faults a) (D.faults e.a) e.fault) }
        ensures second { second_after result ≡ b }
    {
        let (mut journal, bodies) = match Journal::open(alloc, a, b, BOUND) {
            Ok(opened) => opened,
            Err(Refused { fault, a, b }) => {
                return Err(Refused {
                    fault: NodeFault::from(fault),
                    a,
                    b,
                });
            }
        };
        let end = journal.length();
        let (core, entry) = match prepare(alloc, cfg, who, bodies, end) {
            Ok(prepared) => prepared,
            Err(fault) => {
                let (a, b) = journal.into_disks();
                return Err(Refused { fault, a, b });
            }
        };
        match keep(&mut journal, &entry) {
            Ok(()) => Ok(Node {
                alloc,
                journal,
                core,
                live: true,
            }),
            Err(fault) => {
                let (a, b) = journal.into_disks();
                Err(Refused { fault, a, b })
            }
        }
    }

    /// The two disks as they stand.
    pub fn crash(self) -> (D, D)
        ensures { result ≡ (self.journal.first, self.journal.second) }
    {
        let Node { journal, .. } = self;
        journal.into_disks()
    }

    /// What decides in the node, as its last step left it.
    pub fn core(&self) -> &C
        ensures { result.now ≡ self.now.core }
    {
        &self.core
    }

    /// Lends the disk that its journal is on.
    pub fn disk(&self) -> &D
        ensures { result.now ≡ self.now.journal.first }
    {
        self.journal.disk()
    }

    /// Whether the node may be used: false exactly after a fault of [`Node::handle`].
    pub fn is_live(&self) -> bool
        ensures { result ≡ is_ready self.now }
    {
        self.live && self.journal.is_live()
    }

    /// One step: the core's; then its entry is made durable; then each of its datagrams is handed over once, in order.
    /// After a fault nothing was handed over, and the node isn't live.
    #[tactic(auto, using(crate::proofs::Handles::spells_full))]
    pub fn handle<L: Link>(&mut self, input: &Input<'_>, link: &mut L) -> Result<Report, NodeFault>
        requires live { is_ready self.old ≡ true }
        ensures live { OnOk result (is_ready self.new ≡ true) }
        ensures core { OnOk result (self.new.core ≡ (C.step self.old.core (input_of input.now)).0) }
        ensures entry { IfOk result (λ r. r.entry ≡ (C.step self.old.core (input_of input.now)).1.entry) }
        ensures written { IfOk result (λ r. Spells r.entry (C.written self.old.core (input_of input.now))) }
        ensures acts { IfOk result (λ r. r.acts ≡ (C.step self.old.core (input_of input.now)).1.acts) }
        ensures notes { IfOk result (λ r. r.notes ≡ (C.step self.old.core (input_of input.now)).1.notes) }
        ensures durable { OnOk result (LeavesKept self.old.journal.bound
            (C.step self.old.core (input_of input.now)).1.entry
            (D.history self.old.journal.first) (D.history self.new.journal.first)) }
        ensures reads { OnOk result (ReadsKept self.old.journal.bound
            (C.step self.old.core (input_of input.now)).1.entry
            (D.history self.old.journal.first) (D.history self.new.journal.first)) }
        ensures length { OnOk result (self.new.journal.length
            ≡ length_with self.old.journal.length (C.step self.old.core (input_of input.now)).1.entry) }
        ensures fits { OnOk result (Fits self.old.journal.bound self.old.journal.length
            (C.step self.old.core (input_of input.now)).1.entry) }
        ensures handed { IfOk result (λ r. Handed (L.sent link.old) (L.sent link.new)
            (C.step self.old.core (input_of input.now)).1.sends r.failed) }
        ensures counts { IfOk result (λ r. r.sent
            ≡ length (C.step self.old.core (input_of input.now)).1.sends - r.failed) }
        ensures few { IfOk result (λ r. r.failed ≤ length (C.step self.old.core (input_of input.now)).1.sends) }
        ensures silent { OnErr result (link.new ≡ link.old) }
        ensures moments { LeavesOnly (D.history self.old.journal.first) (D.history self.new.journal.first)
            (IsKept self.old.journal.bound (file_in (D.history self.old.journal.first))
            (C.step self.old.core (input_of input.now)).1.entry) }
        ensures dead { OnErr result (is_ready self.new ≡ false) }
        ensures fault { IfErr result (λ e. HandleFails self.old.journal.bound self.old.journal.length
            (D.faults self.old.journal.first) (D.faults self.new.journal.first)
            (C.step self.old.core (input_of input.now)).1.entry e) }
        ensures full { IfErr result (λ e. SpellsFull e (C.step self.old.core (input_of input.now)).1.entry
            (C.written self.old.core (input_of input.now))) }
        ensures later { D.faults self.old.journal.first ≤ D.faults self.new.journal.first }
        ensures answers { L.answers link.new ≡ L.answers link.old }
        ensures next_faults { L.next_faults link.new ≡ L.next_faults link.old }
        ensures second { self.new.journal.second ≡ self.old.journal.second }
        ensures bound { self.new.journal.bound ≡ self.old.journal.bound }
    {
        self.live = false;
        // A live journal's file opens as it did, also where the core finds no memory.
        let _ = self.journal.is_live();
        let step = match self.core.handle(self.alloc, input) {
            Ok(step) => step,
            Err(_) => return Err(NodeFault::NoMemory),
        };
        keep(&mut self.journal, &step.entry)?;
        self.live = true;
        let sends = step.sends.as_slice();
        let failed = send_all(link, sends);
        let sent = sends.len() as u64 - failed;
        Ok(Report {
            entry: step.entry,
            acts: step.acts,
            notes: step.notes,
            sent,
            failed,
        })
    }
}
