ghost use Rattle.std.specs.Prelude.{◌≡◌, ◌≤◌, IfOk, Ok, string_bytes};
ghost use Rattle.generated_schedule.specs.Generated.{generated};
ghost use Rattle.ananta_top.specs.Answers.{Answers, write};

use crate::refusal::Refusal;
use generated_schedule::append_generated;
use std::alloc::{AllocError, Global};
use wire_core::NoMemory;

/// The schedule of a number, with so many lines.
fn schedule_text(alloc: Global, number: u64, count: u64) -> Result<String, NoMemory>
    requires { count ≤ 99996 }
    ensures { IfOk result (λ text. string_bytes text ≡ generated number count) }
{
    let mut text = String::new(alloc);
    append_generated(alloc, &mut text, number, count)?;
    Ok(text)
}

/// What `generate` answers: the schedule of a number, with so many lines.
pub fn generate(alloc: Global, number: u64, count: u64) -> Result<String, Refusal>
    requires { count ≤ 99996 }
    ensures { Answers result (Ok (write (generated number count))) }
{
    match schedule_text(alloc, number, count) {
        Ok(text) => Ok(text),
        Err(AllocError) => Err(Refusal::NoMemory),
    }
}
