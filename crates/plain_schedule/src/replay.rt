ghost use Rattle.std.specs.Prelude.{◌≡◌, ◌<◌, ◌≤◌, ◌+◌, ◌^◌, Some, None, if◌then◌else◌, IfOk, OnOk, length, string_bytes};
ghost use Rattle.std.specs.Option.{option_copied};
ghost use Rattle.address_text.specs.Fields.{parts_of};
ghost use Rattle.plain_schedule.specs.declared.replay.PlainFault.TheVariants.{NoMemory};
ghost use Rattle.plain_schedule.specs.Answers.{Plays, Prints};
ghost use Rattle.plain_schedule.specs.Safety.{IsAlwaysSafe};
ghost use Rattle.plain_schedule.specs.Schedule.{line_step, lines_from, onto, plain_lines, printed, start, without_end};

use crate::laws::always_safe;
use crate::line::line_of;
use crate::state::PlainState;
use address_text::cut;
use std::alloc::{AllocError, Global};

/// The most lines of a schedule, the first line counted.
const MAX_LINES: u64 = 100_000;

/// Why a plain schedule prints nothing.
#[derive(Clone, Copy, Debug, PartialEq, Eq)]
pub enum PlainFault {
    /// The number of the first bad line, from 1.
    Line(u64),
    NoMemory,
}

impl From<AllocError> for PlainFault {
    ghost from_gives = { λ _ e. e ≡ NoMemory };

    fn from(_: AllocError) -> Self {
        PlainFault::NoMemory
    }
}

/// Does what the line with this number says, and prints what comes of it. False for a bad line.
fn play_line(
    alloc: Global,
    state: &mut PlainState,
    out: &mut String,
    number: u64,
    line: &[u8],
) -> Result<bool, AllocError>
    requires { state.old.table.slots < number }
    ensures step { IfOk result (λ good. onto (string_bytes out.old) (line_step number state.old line.now)
        ≡ (if good then Some (state.new, string_bytes out.new) else None)) }
    ensures slots { OnOk result (state.new.table.slots < number + 1) }
{
    if number > MAX_LINES {
        return Ok(false);
    }
    let line = line_of(alloc, line)?;
    state.step(alloc, out, line)
}

/// Does the lines behind the first, one after the other, and prints what comes of them. Stops at the first bad one.
fn play_lines(
    alloc: Global,
    state: &mut PlainState,
    out: &mut String,
    rest: Option<&[u8]>,
) -> Result<(), PlainFault>
    requires slots { state.old.table.slots < 2 }
    requires few { length (parts_of 10 (option_copied rest)) < 2 ^ 32 }
    ensures { Plays result (string_bytes out.new)
        (printed (string_bytes out.old) (lines_from state.old 2 (parts_of 10 (option_copied rest.entry)))) }
{
    let mut number = 2u64;
    let mut left = rest;
    while let Some(text) = left {
        let (line, more) = cut(text, b'\n');
        if !play_line(alloc, state, out, number, line)? {
            return Err(PlainFault::Line(number));
        }
        number += 1;
        left = more;
    }
    Ok(())
}

/// What the lines behind the first print from this state on.
#[tactic(auto, using(crate::proofs::LineByLine::printed_none))]
fn print_from(
    alloc: Global,
    state: &mut PlainState,
    rest: Option<&[u8]>,
) -> Result<String, PlainFault>
    requires slots { state.old.table.slots < 2 }
    requires few { length (parts_of 10 (option_copied rest)) < 2 ^ 32 }
    ensures { Prints result (lines_from state.old 2 (parts_of 10 (option_copied rest.entry))) }
{
    let mut out = String::new(alloc);
    match play_lines(alloc, state, &mut out, rest) {
        Ok(()) => Ok(out),
        Err(fault) => Err(fault),
    }
}

/// What the lines behind the first print.
fn print_lines(alloc: Global, rest: Option<&[u8]>) -> Result<String, PlainFault>
    requires { length (parts_of 10 (option_copied rest)) < 2 ^ 32 }
    ensures { Prints result (lines_from start 2 (parts_of 10 (option_copied rest.entry))) }
{
    let mut state = PlainState::new(alloc)?;
    print_from(alloc, &mut state, rest)
}

fn without_end(text: &[u8]) -> &[u8]
    ensures value { result.now ≡ without_end text.now }
    ensures len { length result.now ≤ length text.now }
{
    match text {
        [front @ .., b'\n'] => front,
        all => all,
    }
}

/// What the text of a plain schedule prints, or its first bad line. Each moment that the text leads through is safe. A
/// line costs time in its length and a few look-ups in maps; a packet that opens a connection also passes the machine's
/// leases that are full for its remote end, each once in all.
pub fn plain_lines(alloc: Global, text: &[u8]) -> Result<String, PlainFault>
    requires { length text.now + 1 < 2 ^ 32 }
    ensures prints { Prints result (plain_lines text.now) }
    ensures safe { IsAlwaysSafe text.now }
{
    always_safe();
    let (first, rest) = cut(without_end(text), b'\n');
    if first != b"plain".as_slice() {
        return Err(PlainFault::Line(1));
    }
    print_lines(alloc, rest)
}
