ghost use Rattle.std.specs.Prelude.{◌≡◌, ◌<◌, ◌≤◌, ◌+◌, ◌*◌, ◌^◌, ◌++◌, OnOk, string_bytes};
ghost use Rattle.rand_pcg.specs.Pcg.{pcg32};
ghost use Rattle.generated_schedule.specs.Generated.{config_text, generated, line_at, lines_from, opening, time_after};

use crate::event::event_at;
use rand_core::utils::NextWord;
use rand_pcg::Lcg64Xsh32;
use schedule_text::write_event;
use std::alloc::Global;
use wire_core::NoMemory;

/// The configuration: five replicas, two muxes, two agents with a machine each, one VIP.
const CONFIG: &str =
    "{\"version\":1,\"router\":\"10.7.0.1:7000\",\"replicas\":[\"10.0.0.1:7000\",\"10.0.0.2:7000\",\"10.0.0.3:7000\",\"10.0.0.4:7000\",\"10.0.0.5:7000\"],\"muxes\":[\"10.9.0.1:7000\",\"10.9.0.2:7000\"],\"agents\":[{\"socket\":\"10.8.0.1:7000\",\"machines\":[{\"address\":\"10.1.0.4\",\"attach\":\"10.1.0.4:9000\"}]},{\"socket\":\"10.8.0.2:7000\",\"machines\":[{\"address\":\"10.1.0.5\",\"attach\":\"10.1.0.5:9000\"}]}],\"vips\":[{\"address\":\"192.0.2.10\",\"low\":1024,\"high\":1087,\"snat\":[\"10.1.0.4\",\"10.1.0.5\"],\"endpoints\":[]}],\"limit\":16,\"timers\":{\"lead_silent\":1000,\"mux_silent\":5000,\"ask_retry\":500,\"flow_idle\":60000,\"range_idle\":30000}}";

/// The text of the configuration.
#[tactic(auto, unfolding(crate::specs::Generated::config_text))]
fn config_text() -> &'static str
    ensures { result.now ≡ config_text }
{
    CONFIG
}

/// What stands before the lines of the words.
fn append_opening(out: &mut String) -> Result<(), NoMemory>
    ensures { OnOk result (string_bytes out.new ≡ string_bytes out.old ++ opening) }
{
    out.push_str(config_text())?;
    out.push_str("\n---\ntick mux 0 1000\ntick mux 1 1000\ntick replica 0 1000\nsettle 50\n")?;
    Ok(())
}

/// The time of a word's line.
fn time_after(time: u64, word: u32) -> u64
    requires { time < 2 ^ 32 }
    ensures value { result ≡ time_after time word }
    ensures within { result ≤ time + 100 }
{
    let kind = word % 16;
    if 10 <= kind && kind <= 12 {
        time + 100
    } else {
        time
    }
}

/// Appends the line of a word.
fn append_line(alloc: Global, out: &mut String, time: u64, word: u32) -> Result<(), NoMemory>
    ensures { OnOk result (string_bytes out.new ≡ string_bytes out.old ++ line_at time word) }
{
    let event = event_at(alloc, time, word)?;
    write_event(alloc, out, &event)?;
    out.push_str("\n")?;
    Ok(())
}

/// Appends the lines of the next words.
fn append_lines(
    alloc: Global,
    out: &mut String,
    start: Lcg64Xsh32,
    count: u64,
) -> Result<(), NoMemory>
    requires { count ≤ 99996 }
    ensures { OnOk result
        (string_bytes out.new ≡ string_bytes out.old ++ lines_from pcg32 count 1000 start) }
{
    let mut words = start;
    let mut time = 1000u64;
    let mut left = count;
    while left > 0 {
        let word = words.next_word();
        time = time_after(time, word);
        append_line(alloc, out, time, word)?;
        left -= 1;
    }
    Ok(())
}

/// Appends the configuration, the opening lines, and `count` lines by the words of the generator of `number`. The cost
/// is linear in `count`.
pub fn append_generated(
    alloc: Global,
    out: &mut String,
    number: u64,
    count: u64,
) -> Result<(), NoMemory>
    requires { count ≤ 99996 }
    ensures { OnOk result (string_bytes out.new ≡ string_bytes out.old ++ generated number count) }
{
    append_opening(out)?;
    append_lines(alloc, out, Lcg64Xsh32::new(number, 1), count)
}
