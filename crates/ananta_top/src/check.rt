//! The command `check`: a configuration is read, and told in one line.
ghost use Rattle.std.specs.Prelude.{◌≡◌, ◌++◌, IfOk, OnOk, string_bytes};
ghost use Rattle.ananta_top.specs.Answers.{Answers, answer, config_line, count, counts_line};
ghost use Rattle.ananta_top.specs.declared.words.Job.TheVariants.{Check};

use crate::refusal::Refusal;
use config_text::ConfigFault;
use std::alloc::{AllocError, Global};
use vip_config::{Config, Counts};

/// Appends ` NAME N`.
#[tactic(auto, unfolding(crate::specs::Answers::count))]
pub fn write_count(line: &mut String, name: &str, number: u64) -> Result<(), AllocError>
    ensures { OnOk result (string_bytes line.new ≡ string_bytes line.old ++ count name.now number) }
{
    write!(line, " {name} {number}")
}

/// The line of these numbers.
fn counts_line(alloc: Global, counts: &Counts, ranges: u64) -> Result<String, AllocError>
    ensures { IfOk result (λ line. string_bytes line ≡ counts_line counts.now ranges) }
{
    let mut line = String::from_str(alloc, "ok replicas 5")?;
    write_count(&mut line, "muxes", counts.muxes)?;
    write_count(&mut line, "agents", counts.agents)?;
    write_count(&mut line, "machines", counts.machines)?;
    write_count(&mut line, "vips", counts.vips)?;
    write_count(&mut line, "ranges", ranges)?;
    line.push_str("\n")?;
    Ok(line)
}

/// The line of a configuration that keeps every rule.
fn config_line(alloc: Global, config: &Config) -> Result<String, AllocError>
    ensures { IfOk result (λ line. string_bytes line ≡ config_line config.now) }
{
    let ranges = config.ranges(alloc)?;
    counts_line(alloc, &config.counts(), ranges)
}

/// What `check` answers: the line of a configuration, or the path of its first fault.
pub fn check(alloc: Global, text: &[u8]) -> Result<String, Refusal>
    ensures { Answers result (answer Check text.now) }
{
    match Config::read(alloc, text) {
        Ok(config) => match config_line(alloc, &config) {
            Ok(line) => Ok(line),
            Err(AllocError) => Err(Refusal::NoMemory),
        },
        Err(ConfigFault::Json) => Err(Refusal::Json),
        Err(ConfigFault::Field(path)) => Err(Refusal::Field(path)),
        Err(ConfigFault::NoMemory) => Err(Refusal::NoMemory),
    }
}
