// A run step by step: an event, or one delivery of a settle, with its lines.
ghost use Rattle.std.specs.Prelude.{◌≡◌, ◌<◌, ◌++◌, [], None, true, false, drop, IfErr, IfOk, OnOk, string_bytes};
ghost use Rattle.schedule_text.specs.Transcript.{printed_line};
ghost use Rattle.schedule_text.specs.declared.line.Line.TheVariants as line;
ghost use Rattle.transcript_summary.specs.Summary.{IsWhole};
ghost use Rattle.world_nodes.specs.Overflows.{IsFaultOf};
ghost use Rattle.world_nodes.specs.Sites.{deciding};
ghost use Rattle.world_model.specs.Overflows.{event_overflow, settle_overflow};
ghost use Rattle.world_model.specs.Runs.{deliveries, overflow_left, steps_in, steps_left, text_left, text_of};
ghost use Rattle.world_model.specs.Sound.{IsSound, world_of};
ghost use Rattle.world_model.specs.World.{applied, settle};

use crate::printing::{write_lines, write_own};
use crate::world::World;
use node_core::Core;
use schedule_text::Event;
use std::alloc::Global;
use vip_config::Config;
use world_nodes::WorldFault;

/// How far a run is: the events before `at` have begun, and the last of them is a settle that may deliver `left`
/// datagrams more, where that isn't 0.
#[derive(Clone, Copy, Debug, PartialEq, Eq)]
pub struct Progress {
    pub at: usize,
    pub left: u64,
}

// One delivery of a settle that may deliver so many, with its lines behind those of a text. Answers how many it may
// deliver after that.
fn deliver_next<C: Core>(
    alloc: Global,
    cfg: &Config,
    world: &mut World<C>,
    left: u64,
    text: &mut String,
) -> Result<u64, WorldFault>
    requires sound { IsSound C.may_open world.old }
    requires some { 0 < left }
    ensures sound { OnOk result (IsSound C.may_open world.new) }
    ensures text { IfOk result (λ more. string_bytes text.new
        ++ text_of cfg.now (settle (deciding C.step C.written) more (world_of world.new)).1
        ≡ string_bytes text.old ++ text_of cfg.now (settle (deciding C.step C.written) left (world_of world.old)).1) }
    ensures world { IfOk result (λ more. (settle (deciding C.step C.written) more (world_of world.new)).0
        ≡ (settle (deciding C.step C.written) left (world_of world.old)).0) }
    ensures less { IfOk result (λ more. more < left) }
    ensures whole { OnOk result (IsWhole (string_bytes text.old) → IsWhole (string_bytes text.new)) }
    ensures room { IfOk result (λ more. settle_overflow (deciding C.step C.written) more (world_of world.new)
        ≡ settle_overflow (deciding C.step C.written) left (world_of world.old)) }
    ensures full { IfErr result (IsFaultOf (settle_overflow (deciding C.step C.written) left (world_of world.old))) }
{
    let mut lines = Vec::new(alloc);
    let more = world.settle_one(&mut lines)?;
    write_lines(alloc, cfg, text, lines.as_slice())?;
    if !more {
        return Ok(0);
    }
    Ok(left - 1)
}

// How many deliveries an event is a settle of.
fn deliveries(event: &Event) -> Option<u64>
    ensures { result ≡ deliveries event.now }
{
    match event {
        Event::Settle { n } => Some(*n),
        Event::Single(_) => None,
        Event::Crash { .. } => None,
        Event::During { .. } => None,
    }
}

// An event, with its own line and those behind it; of a settle its own line alone. Answers how many deliveries are
// left of it.
fn event_next<C: Core>(
    alloc: Global,
    cfg: &Config,
    world: &mut World<C>,
    event: &Event,
    text: &mut String,
) -> Result<u64, WorldFault>
    requires sound { IsSound C.may_open world.old }
    ensures sound { OnOk result (IsSound C.may_open world.new) }
    ensures text { IfOk result (λ left. string_bytes text.new
        ++ text_of cfg.now (settle (deciding C.step C.written) left (world_of world.new)).1
        ≡ string_bytes text.old ++ printed_line cfg.now (line.Event event.now)
        ++ text_of cfg.now (applied (deciding C.step C.written) C.opened (world_of world.old) event.now).1) }
    ensures world { IfOk result (λ left. (settle (deciding C.step C.written) left (world_of world.new)).0
        ≡ (applied (deciding C.step C.written) C.opened (world_of world.old) event.now).0) }
    ensures less { IfOk result (λ left. left < steps_in event.now) }
    ensures whole { OnOk result (IsWhole (string_bytes text.new)) }
    ensures room { IfOk result (λ left. settle_overflow (deciding C.step C.written) left (world_of world.new)
        ≡ event_overflow (deciding C.step C.written) (world_of world.old) event.now) }
    ensures full { IfErr result (IsFaultOf (event_overflow (deciding C.step C.written) (world_of world.old) event.now)) }
{
    write_own(alloc, cfg, text, event)?;
    if let Some(n) = deliveries(event) {
        return Ok(n);
    }
    let mut lines = Vec::new(alloc);
    world.happen(event, &mut lines)?;
    write_lines(alloc, cfg, text, lines.as_slice())?;
    Ok(0)
}

/// The next step of a run, with its lines behind those of a text: one delivery of a settle that has begun, or the next
/// event. Answers whether there was one.
pub fn advance<C: Core>(
    alloc: Global,
    cfg: &Config,
    world: &mut World<C>,
    events: &[Event],
    progress: &mut Progress,
    text: &mut String,
) -> Result<bool, WorldFault>
    requires sound { IsSound C.may_open world.old }
    ensures sound { OnOk result (IsSound C.may_open world.new) }
    ensures text { OnOk result (string_bytes text.new ++ text_left (deciding C.step C.written) C.opened cfg.now
        (world_of world.new) progress.new.left (drop progress.new.at events.now)
        ≡ string_bytes text.old ++ text_left (deciding C.step C.written) C.opened cfg.now
        (world_of world.old) progress.old.left (drop progress.old.at events.now)) }
    ensures whole { OnOk result (IsWhole (string_bytes text.old) → IsWhole (string_bytes text.new)) }
    ensures less { IfOk result (λ more. more ≡ true
        → steps_left progress.new events.now < steps_left progress.old events.now) }
    ensures done { IfOk result (λ more. more ≡ false → text_left (deciding C.step C.written) C.opened cfg.now
        (world_of world.new) progress.new.left (drop progress.new.at events.now) ≡ []) }
    ensures same { IfOk result (λ more. more ≡ false → string_bytes text.new ≡ string_bytes text.old) }
    ensures room { OnOk result (overflow_left (deciding C.step C.written) C.opened
        (world_of world.new) progress.new.left (drop progress.new.at events.now)
        ≡ overflow_left (deciding C.step C.written) C.opened
        (world_of world.old) progress.old.left (drop progress.old.at events.now)) }
    ensures none { IfOk result (λ more. more ≡ false → overflow_left (deciding C.step C.written) C.opened
        (world_of world.new) progress.new.left (drop progress.new.at events.now) ≡ None) }
    ensures full { IfErr result (IsFaultOf (overflow_left (deciding C.step C.written) C.opened
        (world_of world.old) progress.old.left (drop progress.old.at events.now))) }
{
    let begun = progress.left > 0;
    if begun {
        progress.left = deliver_next(alloc, cfg, world, progress.left, text)?;
        return Ok(true);
    }
    let over = progress.at >= events.len();
    if over {
        return Ok(false);
    }
    let event = &events[progress.at];
    progress.left = event_next(alloc, cfg, world, event, text)?;
    progress.at += 1;
    Ok(true)
}
