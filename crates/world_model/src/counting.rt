// A run's lines, counted as they come.
ghost use Rattle.std.specs.Prelude.{◌≡◌, [], IfOk, string_bytes};
ghost use Rattle.transcript_summary.specs.Summary.{counts_of};
ghost use Rattle.world_nodes.specs.Firsts.{MayOpen};
ghost use Rattle.world_nodes.specs.Overflows.{FullsBy};
ghost use Rattle.world_nodes.specs.Sites.{deciding};
ghost use Rattle.world_model.specs.Firsts.{first_world};
ghost use Rattle.world_model.specs.Overflows.{run_overflow};
ghost use Rattle.world_model.specs.Runs.{overflow_left, run_text, text_left};
ghost use Rattle.world_model.specs.Shown.{IsTranscript};
ghost use Rattle.world_model.specs.Sound.{IsSound, world_of};
ghost use Rattle.world_model.specs.TableOverflows.{IsRunOverflow};

use crate::advancing::{Progress, advance};
use crate::world::World;
use crate::writing::follows_tables;
use node_core::Core;
use schedule_text::Event;
use std::alloc::Global;
use transcript_summary::{Counts, counts_by_pieces};
use vip_config::Config;
use world_nodes::WorldFault;

// The lines of all that is left of a run, through a text that is empty at first.
fn count_run<C: Core>(
    alloc: Global,
    cfg: &Config,
    world: &mut World<C>,
    events: &[Event],
    text: &mut String,
) -> Result<Counts, WorldFault>
    requires sound { IsSound C.may_open world.old }
    requires empty { string_bytes text.old ≡ [] }
    ensures counts { IfOk result (λ counts. counts
        ≡ counts_of (text_left (deciding C.step C.written) C.opened cfg.now (world_of world.old) 0 events.now)) }
    ensures full { FullsBy (overflow_left (deciding C.step C.written) C.opened (world_of world.old) 0 events.now)
        result }
{
    counts_by_pieces();
    let mut counts = Counts::of(b"".as_slice());
    let mut progress = Progress { at: 0, left: 0 };
    loop {
        let more = advance(alloc, cfg, world, events, &mut progress, text)?;
        if !more {
            return Ok(counts);
        }
        counts = counts.with(&Counts::of(text.as_bytes()))?;
        text.clear();
    }
}

/// How many lines of each kind a schedule prints, as [`replay`](crate::replay) would write them. No more than the lines
/// of one delivery or event are in memory at a time.
pub fn count_lines<C: Core>(
    alloc: Global,
    cfg: &Config,
    events: &[Event],
) -> Result<Counts, WorldFault>
    requires may { MayOpen C.may_open cfg.now }
    ensures counts { IfOk result (λ counts. counts
        ≡ counts_of (run_text (deciding C.step C.written) C.opened cfg.now events.now)) }
    ensures transcript { IsTranscript (deciding C.step C.written) C.opened cfg.now events.now
        (run_text (deciding C.step C.written) C.opened cfg.now events.now) }
    ensures full { FullsBy (run_overflow (deciding C.step C.written) C.opened (first_world C.opened cfg.now) events.now)
        result }
    ensures overflow { IsRunOverflow (deciding C.step C.written) C.opened cfg.now events.now
        (run_overflow (deciding C.step C.written) C.opened (first_world C.opened cfg.now) events.now) }
{
    follows_tables::<C>(cfg, events);
    let mut world = World::<C>::new(alloc, cfg.copy(alloc)?)?;
    let mut text = String::new(alloc);
    count_run(alloc, cfg, &mut world, events, &mut text)
}
