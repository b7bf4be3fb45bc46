ghost use Rattle.std.specs.Prelude.{◌≡◌, ◌<◌, ◌+◌, ◌^◌, IsErr, Ok, OnOk, length};
ghost use Rattle.node_schedule.specs.Answers.{CountsLines, Writes, WritesFront};
ghost use Rattle.node_schedule.specs.Safety.{IsSafeText};
ghost use Rattle.node_schedule.specs.Schedule.{scheduled};

use crate::fault::ScheduleFault;
use crate::laws::roles_follow;
use crate::reading::read;
use node_roles::Role;
use outside_io::Sink;
use schedule_text::Event;
use std::alloc::Global;
use transcript_summary::Counts;
use vip_config::Config;
use world_model::{ReplayFault, WorldFault, count_lines, replay};

/// Writes the transcript of some events.
fn write_run<K: Sink>(
    alloc: Global,
    cfg: &Config,
    events: &[Event],
    out: &mut K,
) -> Result<(), ScheduleFault>
    ensures answer { Writes (K.written out.old) (K.written out.new) (K.faults out.old) (K.faults out.new) result
        (Ok (cfg.now, events.now)) }
    ensures front { WritesFront (K.written out.old) (K.written out.new) (Ok (cfg.now, events.now)) }
{
    roles_follow();
    match replay::<Role, K>(alloc, cfg, events, out) {
        Ok(()) => Ok(()),
        Err(ReplayFault::Full { .. }) => Err(ScheduleFault::Full),
        Err(ReplayFault::Write) => Err(ScheduleFault::Write),
        Err(ReplayFault::NoMemory) => Err(ScheduleFault::NoMemory),
    }
}

/// How many lines of each kind the transcript of some events has.
fn count_run(alloc: Global, cfg: &Config, events: &[Event]) -> Result<Counts, ScheduleFault>
    ensures { CountsLines result (Ok (cfg.now, events.now)) }
{
    roles_follow();
    match count_lines::<Role>(alloc, cfg, events) {
        Ok(counts) => Ok(counts),
        Err(WorldFault::Full { .. }) => Err(ScheduleFault::Full),
        Err(WorldFault::NoMemory) => Err(ScheduleFault::NoMemory),
    }
}

/// Writes the transcript of a schedule of nodes, or tells why the text is none: first the configuration's first fault,
/// then the first bad line. The first event happens once the whole text is read, and lines are written as they come.
/// After a fault a front of them is written; nothing where the text is no schedule. Reading a line costs what its words
/// do; an event costs what its nodes do. Memory grows with what was sent. Each moment of a run that is written is safe.
pub fn write_lines<K: Sink>(alloc: Global, text: &[u8], out: &mut K) -> Result<(), ScheduleFault>
    requires { length text.now + 1 < 2 ^ 32 }
    ensures answer { Writes (K.written out.old) (K.written out.new) (K.faults out.old) (K.faults out.new) result
        (scheduled text.now) }
    ensures front { WritesFront (K.written out.old) (K.written out.new) (scheduled text.now) }
    ensures nothing { IsErr (scheduled text.now) → out.new ≡ out.old }
    ensures safe { OnOk result (IsSafeText text.now) }
{
    let (cfg, events) = read(alloc, text)?;
    write_run(alloc, &cfg, events.as_slice(), out)
}

/// How many lines of each kind the transcript of a schedule of nodes has, or why the text is none, as
/// [`write_lines`] tells it.
pub fn count_transcript(alloc: Global, text: &[u8]) -> Result<Counts, ScheduleFault>
    requires { length text.now + 1 < 2 ^ 32 }
    ensures answer { CountsLines result (scheduled text.now) }
    ensures safe { OnOk result (IsSafeText text.now) }
{
    let (cfg, events) = read(alloc, text)?;
    count_run(alloc, &cfg, events.as_slice())
}
