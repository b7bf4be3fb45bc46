ghost use Rattle.std.specs.Prelude.{◌≡◌, ◌<◌, ◌≤◌, ◌+◌, ◌^◌, Some, None, IfOk, IfSome, OnOk, length};
ghost use Rattle.std.specs.Option.{option_copied, option_map};
ghost use Rattle.address_text.specs.Fields.{parts_of};
ghost use Rattle.schedule_text.specs.declared.schedule.LineFault.TheVariants.{NoMemory};
ghost use Rattle.schedule_text.specs.Schedule.{Reads, counted, events_from, line_step, onto, schedule_of};
ghost use Rattle.schedule_text.specs.Schedule.{settles, without_end};

use crate::event::{Event, EventList};
use crate::read::event_of;
use address_text::cut;
use std::alloc::{AllocError, Global};
use vip_config::Config;
use wire_core::Items;

/// The most lines of a schedule.
const MAX_LINES: u64 = 100_000;

/// The most that the numbers of all `settle` lines come to.
const MAX_SETTLES: u64 = 1_000_000;

/// Why a schedule isn't read.
#[derive(Clone, Copy, Debug, PartialEq, Eq)]
pub enum LineFault {
    /// The number of the first bad line, from 1.
    Line(u64),
    NoMemory,
}

impl From<AllocError> for LineFault {
    ghost from_gives = { λ _ e. e ≡ NoMemory };

    fn from(_: AllocError) -> Self {
        LineFault::NoMemory
    }
}

/// The number of a settle line.
fn settles(event: &Event) -> u64
    ensures { result ≡ settles event.now }
{
    match event {
        Event::Settle { n } => *n,
        _ => 0,
    }
}

/// Adds an event, and counts what it settles. `None` where that is too much.
fn add_event(
    events: &mut EventList,
    sum: u64,
    event: Option<Event>,
) -> Result<Option<u64>, AllocError>
    requires { sum ≤ 1000000 }
    ensures step { IfOk result (λ next. onto events.old (counted sum event) ≡ option_map (λ s. (s, events.new)) next) }
    ensures within { IfOk result (λ next. IfSome next (λ s. s ≤ 1000000)) }
{
    let Some(event) = event else {
        return Ok(None);
    };
    let more = settles(&event);
    if more > MAX_SETTLES - sum {
        return Ok(None);
    }
    events.push(event)?;
    Ok(Some(sum + more))
}

/// Adds what a line says. `None` for a bad line.
fn read_line(
    alloc: Global,
    cfg: &Config,
    events: &mut EventList,
    number: u64,
    sum: u64,
    line: &[u8],
) -> Result<Option<u64>, AllocError>
    requires { sum ≤ 1000000 }
    ensures step { IfOk result (λ next. onto events.old (line_step cfg.now number sum line.now)
        ≡ option_map (λ s. (s, events.new)) next) }
    ensures within { IfOk result (λ next. IfSome next (λ s. s ≤ 1000000)) }
{
    if number > MAX_LINES {
        return Ok(None);
    }
    if line.is_empty() || line[0] == b'#' {
        return Ok(Some(sum));
    }
    let event = event_of(alloc, cfg, line)?;
    add_event(events, sum, event)
}

/// The events of these lines.
fn read_lines(alloc: Global, cfg: &Config, lines: Option<&[u8]>) -> Result<EventList, LineFault>
    requires { length (parts_of 10 (option_copied lines)) < 2 ^ 32 }
    ensures { Reads result (events_from cfg.now 1 0 (parts_of 10 (option_copied lines.entry))) }
{
    let mut events = Items::new(alloc);
    let mut number = 1u64;
    let mut sum = 0u64;
    let mut left = lines;
    while let Some(text) = left {
        let (line, more) = cut(text, b'\n');
        match read_line(alloc, cfg, &mut events, number, sum, line)? {
            None => return Err(LineFault::Line(number)),
            Some(next) => {
                sum = next;
            }
        }
        number += 1;
        left = more;
    }
    Ok(events)
}

fn without_end(text: &[u8]) -> &[u8]
    ensures value { result.now ≡ without_end text.now }
    ensures len { length result.now ≤ length text.now }
{
    match text {
        [front @ .., b'\n'] => front,
        all => all,
    }
}

/// The events of a schedule, or its first bad line. A line costs what its words do.
pub fn read_schedule(alloc: Global, bytes: &[u8], cfg: &Config) -> Result<EventList, LineFault>
    requires { length bytes.now + 1 < 2 ^ 32 }
    ensures { Reads result (schedule_of cfg.now bytes.now) }
{
    read_lines(alloc, cfg, Some(without_end(bytes)))
}
