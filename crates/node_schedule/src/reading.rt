// A text as a configuration and what happens to its nodes.
ghost use Rattle.std.specs.Prelude.{◌<◌, ◌+◌, ◌^◌, IfSome, OnOk, Some, length};
ghost use Rattle.std.specs.Option.{option_copied};
ghost use Rattle.node_schedule.specs.Answers.{Says};
ghost use Rattle.node_schedule.specs.Safety.{IsSafeRun, IsSafeText};
ghost use Rattle.node_schedule.specs.Schedule.{scheduled, scheduled_by, under};

use crate::fault::ScheduleFault;
use crate::text::halves;
use config_text::ConfigFault;
use schedule_text::{EventList, LineFault, read_schedule};
use std::alloc::Global;
use vip_config::Config;
use world_safety::always_safe;

/// Each moment of the run of these lines is safe, and the run shows what the managers' log did.
fn runs_safely(cfg: &Config, lines: &[u8])
    ensures { IsSafeRun (under cfg.now (Some lines.now)) }
{
    let _ = lines;
    cfg.keeps_rules();
    always_safe();
}

/// A configuration with the lines behind it.
fn read_under(
    alloc: Global,
    cfg: Config,
    lines: &[u8],
) -> Result<(Config, EventList), ScheduleFault>
    requires { length lines.now + 1 < 2 ^ 32 }
    ensures says { Says result (under cfg (Some lines.now)) }
    ensures safe { IsSafeRun (under cfg (Some lines.now)) }
{
    runs_safely(&cfg, lines);
    match read_schedule(alloc, lines, &cfg) {
        Ok(events) => Ok((cfg, events)),
        Err(LineFault::Line(number)) => Err(ScheduleFault::Line(number)),
        Err(LineFault::NoMemory) => Err(ScheduleFault::NoMemory),
    }
}

/// A configuration, and the lines behind it where there are any.
fn read_halves(
    alloc: Global,
    config: &[u8],
    lines: Option<&[u8]>,
) -> Result<(Config, EventList), ScheduleFault>
    requires { IfSome lines (λ x. length x.now + 1 < 2 ^ 32) }
    ensures says { Says result (scheduled_by (config.now, option_copied lines.entry)) }
    ensures safe { OnOk result (IsSafeRun (scheduled_by (config.now, option_copied lines.entry))) }
{
    match Config::read(alloc, config) {
        Ok(cfg) => match lines {
            Some(lines) => read_under(alloc, cfg, lines),
            None => Err(ScheduleFault::Line(0)),
        },
        Err(ConfigFault::Json) => Err(ScheduleFault::Json),
        Err(ConfigFault::Field(path)) => Err(ScheduleFault::Field(path)),
        Err(ConfigFault::NoMemory) => Err(ScheduleFault::NoMemory),
    }
}

/// What a text says, or why it is no schedule: first the configuration's first fault, then the first bad line. Each
/// moment of the run that it says is safe. A line costs what its words do.
pub fn read(alloc: Global, text: &[u8]) -> Result<(Config, EventList), ScheduleFault>
    requires { length text.now + 1 < 2 ^ 32 }
    ensures says { Says result (scheduled text.now) }
    ensures safe { OnOk result (IsSafeText text.now) }
{
    let (config, lines) = halves(text);
    read_halves(alloc, config, lines)
}
