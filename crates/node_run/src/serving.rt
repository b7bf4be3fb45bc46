ghost use Rattle.std.specs.Prelude.{◌≡◌, ◌≤◌, ◌+◌, ◌-◌, ◌^◌, min, Ok, Err, true, length, IfErr, IfOk, OnErr, OnOk};
ghost use Rattle.outside_io.specs.Faults.{Rose};
ghost use Rattle.node_spec.specs.Steps.{input_of};
ghost use Rattle.node_core.specs.Handling.{is_ready};
ghost use Rattle.node_run.specs.Going.{GoesOn, Handled, NotHandled, StopsAt};
ghost use Rattle.node_run.specs.Serving.{Serves, Stops, Taken, state_of};
ghost use Rattle.node_run.specs.Turns.{drops_in, is_drop};
ghost use Rattle.node_run.specs.declared.serving.ServeFault.TheVariants.{Link, Node as of_node};
ghost use Rattle.node_disk.specs.declared.fault.NodeFault.TheVariants.{Disk};

use crate::timer::Timer;
use node_core::{Core, Node, Report};
use node_disk::NodeFault;
use outside_io::{Clock, Disk, Link, MAX_DATAGRAM};
use std::alloc::Global;
use wire_core::{Input, NoMemory, Note};

/// What was served. A count stands still at its greatest value.
#[derive(Clone, Copy, Debug, PartialEq, Eq)]
pub struct Served {
    /// How many turns were taken.
    pub turns: u64,
    /// How many datagrams the link took.
    pub sent: u64,
    /// How many inputs and held packets were dropped.
    pub dropped: u64,
    /// How many datagrams the link lost.
    pub failed: u64,
}

/// Why serving ended early.
#[derive(Debug, Drop)]
pub enum ServeFault {
    /// The node's step wasn't done.
    Node(NodeFault),
    /// A `next` of the link failed: its count of faults rose.
    Link,
}

fn is_drop(note: &Note) -> bool
    ensures { result ≡ is_drop note.now }
{
    match note {
        Note::Dropped { .. } => true,
        Note::Queued { .. } => false,
    }
}

// How many drops are among the notes.
fn drops(notes: &[Note]) -> u64
    ensures { result ≡ drops_in notes.now }
{
    notes.iter().filter(|note| is_drop(note)).count() as u64
}

// What was served, with a step more.
fn counted(served: Served, report: &Report) -> Served
    ensures turns { result.turns ≡ served.turns }
    ensures sent { result.sent ≡ min (served.sent + report.now.sent) (2 ^ 64 - 1) }
    ensures failed { result.failed ≡ min (served.failed + report.now.failed) (2 ^ 64 - 1) }
    ensures dropped { result.dropped ≡ min (served.dropped + drops_in report.now.notes) (2 ^ 64 - 1) }
{
    Served {
        turns: served.turns,
        sent: served.sent.saturating_add(report.sent),
        dropped: served
            .dropped
            .saturating_add(drops(report.notes.as_slice())),
        failed: served.failed.saturating_add(report.failed),
    }
}

// One input.
fn step<C: Core, D: Disk, L: Link>(
    node: &mut Node<C, D>,
    link: &mut L,
    input: &Input<'_>,
    served: &mut Served,
) -> Result<(), ServeFault>
    requires live { is_ready node.old ≡ true }
    ensures live { OnOk result (is_ready node.new ≡ true) }
    ensures done { OnOk result (Handled node.old.journal.bound (C.step node.old.core (input_of input.now))
        (L.sent link.old) (L.sent link.new) (state_of D.history node.old) (state_of D.history node.new)
        served.old served.new) }
    ensures not_done { IfErr result (λ e. NotHandled node.old.journal.bound (C.step node.old.core (input_of input.now))
        (L.sent link.old) (L.sent link.new) (state_of D.history node.old) (state_of D.history node.new) e) }
    ensures turns { served.new.turns ≡ served.old.turns }
    ensures link { result ≡ Err Link → Rose (L.next_faults link.old) (L.next_faults link.new) }
    ensures disk { result ≡ Err (of_node Disk)
        → Rose (D.faults node.old.journal.first) (D.faults node.new.journal.first) }
    ensures faults { D.faults node.old.journal.first ≤ D.faults node.new.journal.first }
    ensures answers { L.answers link.new ≡ L.answers link.old }
    ensures next_faults { L.next_faults link.new ≡ L.next_faults link.old }
    ensures second { node.new.journal.second ≡ node.old.journal.second }
    ensures bound { node.new.journal.bound ≡ node.old.journal.bound }
{
    match node.handle(input, link) {
        Ok(report) => {
            *served = counted(*served, &report);
            Ok(())
        }
        Err(fault) => Err(ServeFault::Node(fault)),
    }
}

// One turn: a tick where it is due, else what came.
fn turn<C: Core, D: Disk, L: Link, K: Clock>(
    node: &mut Node<C, D>,
    link: &mut L,
    clock: &mut K,
    timer: &mut Timer,
    served: &mut Served,
    buf: &mut [u8],
) -> Result<(), ServeFault>
    requires live { is_ready node.old ≡ true }
    requires room { length buf.old ≡ 65507 }
    ensures live { OnOk result (is_ready node.new ≡ true) }
    ensures goes_on { OnOk result (GoesOn C.step node.old.journal.bound
        (record {
          times = K.times clock.old;
          answers = L.answers link.old;
          sent = L.sent link.old;
          state = state_of D.history node.old;
        }) timer.old served.old
        (record {
          times = K.times clock.new;
          answers = L.answers link.new;
          sent = L.sent link.new;
          state = state_of D.history node.new;
        }) timer.new served.new) }
    ensures stops { IfErr result (λ e. StopsAt C.step node.old.journal.bound
        (record {
          times = K.times clock.old;
          answers = L.answers link.old;
          sent = L.sent link.old;
          state = state_of D.history node.old;
        }) timer.old served.old
        (record {
          times = K.times clock.new;
          answers = L.answers link.new;
          sent = L.sent link.new;
          state = state_of D.history node.new;
        }) e) }
    ensures turns { served.new.turns ≡ served.old.turns }
    ensures taken { Taken 1 (K.times clock.old) (K.times clock.new) }
    ensures link { result ≡ Err Link → Rose (L.next_faults link.old) (L.next_faults link.new) }
    ensures later { L.next_faults link.old ≤ L.next_faults link.new }
    ensures disk { result ≡ Err (of_node Disk)
        → Rose (D.faults node.old.journal.first) (D.faults node.new.journal.first) }
    ensures faults { D.faults node.old.journal.first ≤ D.faults node.new.journal.first }
    ensures second { node.new.journal.second ≡ node.old.journal.second }
    ensures bound { node.new.journal.bound ≡ node.old.journal.bound }
    ensures room { length buf.new ≡ 65507 }
{
    let due = timer.is_due(clock.now());
    if due {
        let now = timer.time();
        return step(node, link, &Input::Tick { now }, served);
    }
    match link.next(buf) {
        Err(_) => Err(ServeFault::Link),
        Ok(None) => Ok(()),
        Ok(Some(arrival)) => {
            let bytes = &buf[..arrival.len];
            let from = arrival.from;
            step(node, link, &Input::Datagram { from, bytes }, served)
        }
    }
}

fn room(alloc: Global) -> Result<Vec<u8>, NoMemory>
    ensures { IfOk result (λ buf. length buf.items ≡ 65507) }
{
    vec![in alloc; 0u8; MAX_DATAGRAM]
}

/// Serves exactly so many turns. In each the clock is read; where this is the first turn or 100 milliseconds have
/// passed since the last tick, the turn is a tick; else it is one `next`, and what arrives is handled. The room for
/// what arrives is taken first.
///
/// What was sent and what the disk has is exactly the fold of the core's steps over what the clock and the link told.
/// After a fault it is that of a front: all turns but the last one, of which nothing was sent.
pub fn serve<C: Core, D: Disk, L: Link, K: Clock>(
    alloc: Global,
    node: &mut Node<C, D>,
    link: &mut L,
    clock: &mut K,
    turns: u64,
) -> Result<Served, ServeFault>
    requires live { is_ready node.old ≡ true }
    ensures live { OnOk result (is_ready node.new ≡ true) }
    ensures turns { IfOk result (λ served. served.turns ≡ turns) }
    ensures taken { OnOk result (Taken turns (K.times clock.old) (K.times clock.new)) }
    ensures served { IfOk result (λ served. Serves C.step node.old.journal.bound
        (record {
          times = K.times clock.old;
          answers = L.answers link.old;
          sent = L.sent link.old;
          state = state_of D.history node.old;
        })
        (record {
          times = K.times clock.new;
          answers = L.answers link.new;
          sent = L.sent link.new;
          state = state_of D.history node.new;
        }) served) }
    ensures stops { IfErr result (λ e. Stops C.step node.old.journal.bound
        (record {
          times = K.times clock.old;
          answers = L.answers link.old;
          sent = L.sent link.old;
          state = state_of D.history node.old;
        })
        (record {
          times = K.times clock.new;
          answers = L.answers link.new;
          sent = L.sent link.new;
          state = state_of D.history node.new;
        }) e) }
    ensures link { result ≡ Err Link → Rose (L.next_faults link.old) (L.next_faults link.new) }
    ensures later { L.next_faults link.old ≤ L.next_faults link.new }
    ensures disk { result ≡ Err (of_node Disk)
        → Rose (D.faults node.old.journal.first) (D.faults node.new.journal.first) }
    ensures faults { D.faults node.old.journal.first ≤ D.faults node.new.journal.first }
    ensures second { node.new.journal.second ≡ node.old.journal.second }
{
    let mut buf = match room(alloc) {
        Ok(buf) => buf,
        Err(_) => return Err(ServeFault::Node(NodeFault::NoMemory)),
    };
    let mut timer = Timer::new();
    let mut served = Served {
        turns,
        sent: 0,
        dropped: 0,
        failed: 0,
    };
    for _ in 0..turns {
        turn(node, link, clock, &mut timer, &mut served, &mut buf)?;
    }
    Ok(served)
}
