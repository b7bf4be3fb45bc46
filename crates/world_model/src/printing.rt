// Lines in bytes.
ghost use Rattle.std.specs.Prelude.{◌≡◌, ◌++◌, OnOk, string_bytes};
ghost use Rattle.schedule_text.specs.Transcript.{printed_line};
ghost use Rattle.schedule_text.specs.declared.line.Line.TheVariants as line;
ghost use Rattle.world_model.specs.Runs.{text_of};

use schedule_text::{Event, Line, print_line, write_event};
use std::alloc::Global;
use vip_config::Config;
use wire_core::NoMemory;

/// An event's own line.
pub fn write_own(
    alloc: Global,
    cfg: &Config,
    out: &mut String,
    event: &Event,
) -> Result<(), NoMemory>
    ensures { OnOk result (string_bytes out.new
        ≡ string_bytes out.old ++ printed_line cfg.now (line.Event event.now)) }
{
    let _ = cfg;
    out.push_str("event ")?;
    write_event(alloc, out, event)?;
    out.push_str("\n")?;
    Ok(())
}

/// Lines, one behind the other.
pub fn write_lines(
    alloc: Global,
    cfg: &Config,
    out: &mut String,
    lines: &[Line],
) -> Result<(), NoMemory>
    ensures { OnOk result (string_bytes out.new ≡ string_bytes out.old ++ text_of cfg.now lines.now) }
{
    for line in lines {
        print_line(alloc, line, cfg, out)?;
    }
    Ok(())
}
