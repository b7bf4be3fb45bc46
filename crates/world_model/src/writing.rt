// A run's transcript, passed on to a sink as it comes.
ghost use Rattle.std.specs.Prelude.{◌≡◌, ◌≤◌, [], OnErr, OnOk, string_bytes};
ghost use Rattle.std.specs.Io.KnownBytes.{Appends};
ghost use Rattle.outside_io.specs.Faults.{Rose};
ghost use Rattle.world_nodes.specs.Firsts.{MayOpen};
ghost use Rattle.world_nodes.specs.Sites.{deciding};
ghost use Rattle.world_model.specs.Firsts.{first_world};
ghost use Rattle.world_model.specs.Overflows.{run_overflow};
ghost use Rattle.world_model.specs.Runs.{Front, Passed, ReplayFulls, WritesFail, overflow_left, run_text, text_left};
ghost use Rattle.world_model.specs.Shown.{IsTranscript};
ghost use Rattle.world_model.specs.Sound.{IsSound, world_of};
ghost use Rattle.world_model.specs.TableOverflows.{IsRunOverflow};

use crate::advancing::{Progress, advance};
use crate::fault::ReplayFault;
use crate::world::World;
use node_core::Core;
use outside_io::{Failed, Sink};
use schedule_text::Event;
use sink_text::pass_on;
use std::alloc::Global;
use vip_config::Config;

// The least text in bytes that is passed on before the run ends.
const ENOUGH: usize = 65_536;

// Passes a text on where it is long. After a fault a front of it is written.
#[tactic(auto, using(crate::proofs::Passing::passed_none, crate::proofs::Passing::passed_all, crate::proofs::Passing::front_none))]
fn pass_long<K: Sink>(out: &mut K, text: &mut String) -> Result<(), Failed>
    ensures passed { OnOk result (Passed (K.written out.old) (K.written out.new) (string_bytes text.new)
        (string_bytes text.old)) }
    ensures front { Front (K.written out.old) (K.written out.new) (string_bytes text.old) }
    ensures err { OnErr result (Rose (K.faults out.old) (K.faults out.new)) }
    ensures later { K.faults out.old ≤ K.faults out.new }
{
    if text.len() < ENOUGH {
        return Ok(());
    }
    pass_on(out, text)?;
    Ok(())
}

// All that is left of a run, through a text that is empty at first.
fn write_run<C: Core, K: Sink>(
    alloc: Global,
    cfg: &Config,
    world: &mut World<C>,
    events: &[Event],
    out: &mut K,
    text: &mut String,
) -> Result<(), ReplayFault>
    requires sound { IsSound C.may_open world.old }
    requires empty { string_bytes text.old ≡ [] }
    ensures written { OnOk result (Appends (K.written out.old) (K.written out.new)
        (text_left (deciding C.step C.written) C.opened cfg.now (world_of world.old) 0 events.now)) }
    ensures front { Front (K.written out.old) (K.written out.new)
        (text_left (deciding C.step C.written) C.opened cfg.now (world_of world.old) 0 events.now) }
    ensures write { WritesFail (K.faults out.old) (K.faults out.new) result }
    ensures full { ReplayFulls (overflow_left (deciding C.step C.written) C.opened (world_of world.old) 0 events.now)
        result }
{
    let mut progress = Progress { at: 0, left: 0 };
    loop {
        let more = advance(alloc, cfg, world, events, &mut progress, text)?;
        if !more {
            return Ok(pass_on(out, text)?);
        }
        pass_long(out, text)?;
    }
}

/// What a run under a configuration writes is the transcript by the tables, and it finds no room where they find none,
/// where what decides follows them.
pub(crate) fn follows_tables<C: Core>(cfg: &Config, events: &[Event])
    ensures transcript { IsTranscript (deciding C.step C.written) C.opened cfg.now events.now
        (run_text (deciding C.step C.written) C.opened cfg.now events.now) }
    ensures overflow { IsRunOverflow (deciding C.step C.written) C.opened cfg.now events.now
        (run_overflow (deciding C.step C.written) C.opened (first_world C.opened cfg.now) events.now) }
{
    let _ = events;
    cfg.keeps_rules();
}

/// Writes what a schedule prints under a configuration, each of whose nodes may be opened: of each event its own line
/// and what it does to a world of real nodes, from empty disks on. The lines are passed on as they come. After a fault
/// a front of them is written. Memory grows with what was sent alone.
#[tactic(auto, using(crate::proofs::Passing::front_none))]
pub fn replay<C: Core, K: Sink>(
    alloc: Global,
    cfg: &Config,
    events: &[Event],
    out: &mut K,
) -> Result<(), ReplayFault>
    requires may { MayOpen C.may_open cfg.now }
    ensures written { OnOk result (Appends (K.written out.old) (K.written out.new)
        (run_text (deciding C.step C.written) C.opened cfg.now events.now)) }
    ensures front { Front (K.written out.old) (K.written out.new)
        (run_text (deciding C.step C.written) C.opened cfg.now events.now) }
    ensures transcript { IsTranscript (deciding C.step C.written) C.opened cfg.now events.now
        (run_text (deciding C.step C.written) C.opened cfg.now events.now) }
    ensures write { WritesFail (K.faults out.old) (K.faults out.new) result }
    ensures full { ReplayFulls (run_overflow (deciding C.step C.written) C.opened (first_world C.opened cfg.now)
        events.now) result }
    ensures overflow { IsRunOverflow (deciding C.step C.written) C.opened cfg.now events.now
        (run_overflow (deciding C.step C.written) C.opened (first_world C.opened cfg.now) events.now) }
{
    follows_tables::<C>(cfg, events);
    let mut world = World::<C>::new(alloc, cfg.copy(alloc)?)?;
    let mut text = String::new(alloc);
    write_run(alloc, cfg, &mut world, events, out, &mut text)
}
