// Whole schedules: what they print, or why they are none.
use crate::{ScheduleFault, count_transcript, write_lines};
use outside_io::MemSink;
use std::alloc::{AllocError, Global};
use std::test::Fail;

/// One mux, one agent with one machine, and one VIP.
const SMALL: &str =
    r#"{"version":1,"router":"10.7.0.1:7000","replicas":["10.0.0.1:7000","10.0.0.2:7000",
"10.0.0.3:7000","10.0.0.4:7000","10.0.0.5:7000"],"muxes":["10.9.0.1:7000"],"agents":[{"socket":"10.8.0.1:7000",
"machines":[{"address":"10.1.0.4","attach":"10.1.0.4:9000"}]}],"vips":[{"address":"192.0.2.10","low":1024,
"high":65535,"snat":["10.1.0.4"],"endpoints":[]}],"limit":16,"timers":{"lead_silent":1000,"mux_silent":5000,
"ask_retry":500,"flow_idle":60000,"range_idle":30000}}"#;

/// The longest text of a test, in bytes.
const LONGEST: usize = 10_000;

/// Why a text has no transcript, as a line.
fn told_fault(alloc: Global, fault: ScheduleFault) -> Result<String, AllocError> {
    match fault {
        ScheduleFault::Json => String::from_str(alloc, "json"),
        ScheduleFault::Field(path) => Ok(path),
        ScheduleFault::Line(number) => format!(in alloc; "line {number}"),
        ScheduleFault::Full => String::from_str(alloc, "full"),
        ScheduleFault::Write => String::from_str(alloc, "write"),
        ScheduleFault::NoMemory => String::from_str(alloc, "no memory"),
    }
}

/// Bytes as text.
fn text_of(alloc: Global, bytes: &[u8]) -> Result<String, AllocError> {
    match str::from_utf8(bytes) {
        Ok(text) => String::from_str(alloc, text),
        Err(_) => String::from_str(alloc, "no text"),
    }
}

/// What a text is answered: its transcript, or a line that says why there is none.
fn told(alloc: Global, text: &[u8]) -> Result<String, AllocError> {
    if text.len() > LONGEST {
        return String::from_str(alloc, "too long for a test");
    }
    let mut out = MemSink::new(Vec::new(alloc), 4096, Vec::new(alloc));
    match write_lines(alloc, text, &mut out) {
        Ok(()) => text_of(alloc, out.bytes()),
        Err(fault) => told_fault(alloc, fault),
    }
}

/// The same of a configuration and what stands behind it.
fn told_of(alloc: Global, config: &str, rest: &str) -> Result<String, AllocError> {
    let mut text = String::from_str(alloc, config)?;
    text.push_str(rest)?;
    told(alloc, text.as_bytes())
}

/// The small configuration with the first of this text replaced.
fn small_with(alloc: Global, old: &str, new: &str, rest: &str) -> Result<String, AllocError> {
    match SMALL.split_once(old) {
        Some((front, back)) => {
            let text = format!(in alloc; "{front}{new}{back}{rest}")?;
            told(alloc, text.as_bytes())
        }
        None => String::from_str(alloc, "no such text"),
    }
}

#[test]
fn no_event_prints_nothing(rt: HostRuntime) -> Result<(), Fail> {
    let out = told_of(rt.alloc(), SMALL, "\n---\n")?;
    assert_eq!(rt; out.as_str(), "");
    Ok(())
}

#[test]
fn the_last_line_needs_no_end(rt: HostRuntime) -> Result<(), Fail> {
    let out = told_of(rt.alloc(), SMALL, "\n---")?;
    assert_eq!(rt; out.as_str(), "");
    Ok(())
}

#[test]
fn no_text_has_no_configuration(rt: HostRuntime) -> Result<(), Fail> {
    let out = told(rt.alloc(), b"")?;
    assert_eq!(rt; out.as_str(), "json");
    Ok(())
}

#[test]
fn dashes_in_the_first_line_leave_no_configuration(rt: HostRuntime) -> Result<(), Fail> {
    let out = told_of(rt.alloc(), "---\n", SMALL)?;
    assert_eq!(rt; out.as_str(), "json");
    Ok(())
}

#[test]
fn four_dashes_end_no_configuration(rt: HostRuntime) -> Result<(), Fail> {
    let out = told_of(rt.alloc(), SMALL, "\n----\n---\n")?;
    assert_eq!(rt; out.as_str(), "json");
    Ok(())
}

#[test]
fn without_dashes_line_0_is_bad(rt: HostRuntime) -> Result<(), Fail> {
    let out = told(rt.alloc(), SMALL.as_bytes())?;
    assert_eq!(rt; out.as_str(), "line 0");
    Ok(())
}

#[test]
fn the_configuration_is_tested_before_the_lines(rt: HostRuntime) -> Result<(), Fail> {
    let out = small_with(rt.alloc(), "1024", "1025", "\n---\nno event\n")?;
    assert_eq!(rt; out.as_str(), "vips[0].low");
    Ok(())
}

#[test]
fn the_configuration_is_tested_where_there_are_no_dashes(rt: HostRuntime) -> Result<(), Fail> {
    let out = small_with(rt.alloc(), "1024", "1025", "\n")?;
    assert_eq!(rt; out.as_str(), "vips[0].low");
    Ok(())
}

#[test]
fn the_first_bad_line_is_told_by_its_number(rt: HostRuntime) -> Result<(), Fail> {
    let out = told_of(
        rt.alloc(),
        SMALL,
        "\n---\ntick mux 0 1000\n# 2\ninject mux 0 10.0.0.1:7000 02\nno event\n",
    )?;
    assert_eq!(rt; out.as_str(), "line 3");
    Ok(())
}

#[test]
fn what_is_not_sent_does_not_arrive(rt: HostRuntime) -> Result<(), Fail> {
    let out = told_of(rt.alloc(), SMALL, "\n---\ndeliver 9\n")?;
    assert_eq!(rt; out.as_str(), "event deliver 9\nnone\n");
    Ok(())
}

#[test]
fn an_agent_that_goes_down_loses_what_it_held(rt: HostRuntime) -> Result<(), Fail> {
    let out = told_of(
        rt.alloc(),
        SMALL,
        "\n---\ncrash agent 0\ncrash agent 0\nrestart agent 0\ncrash agent 0 during restart agent 0 lose\n",
    )?;
    assert_eq!(rt;
        out.as_str(),
        "event crash agent 0\nact lose agent 0\nevent crash agent 0\ndown\n\
        event restart agent 0\nevent crash agent 0 during restart agent 0 lose\nup\n"
    );
    Ok(())
}

#[test]
fn five_managers_get_a_primary(rt: HostRuntime) -> Result<(), Fail> {
    let out = told_of(
        rt.alloc(),
        SMALL,
        "\n---\ntick mux 0 1000\nsettle 5\ntick replica 0 1000\nsettle 10\n",
    )?;
    assert_eq!(rt;
        out.as_str(),
        "event tick mux 0 1000\n\
        sent 1 mux 0 replica 0 01010f00000000000000010000000000000000\n\
        sent 2 mux 0 replica 1 01010f00000000000000010000000000000000\n\
        sent 3 mux 0 replica 2 01010f00000000000000010000000000000000\n\
        sent 4 mux 0 replica 3 01010f00000000000000010000000000000000\n\
        sent 5 mux 0 replica 4 01010f00000000000000010000000000000000\n\
        event settle 5\n\
        event deliver 1\n\
        event deliver 2\n\
        event deliver 3\n\
        event deliver 4\n\
        event deliver 5\n\
        event tick replica 0 1000\n\
        sent 6 replica 0 replica 0 0101010000000000000005\n\
        sent 7 replica 0 replica 1 0101010000000000000005\n\
        sent 8 replica 0 replica 2 0101010000000000000005\n\
        sent 9 replica 0 replica 3 0101010000000000000005\n\
        sent 10 replica 0 replica 4 0101010000000000000005\n\
        event settle 10\n\
        event deliver 6\n\
        sent 11 replica 0 replica 0 010102000000000000000500000000000000000000000000000000\n\
        event deliver 7\n\
        sent 12 replica 1 replica 0 010102000000000000000500000000000000000000000000000000\n\
        event deliver 8\n\
        sent 13 replica 2 replica 0 010102000000000000000500000000000000000000000000000000\n\
        event deliver 9\n\
        sent 14 replica 3 replica 0 010102000000000000000500000000000000000000000000000000\n\
        event deliver 10\n\
        sent 15 replica 4 replica 0 010102000000000000000500000000000000000000000000000000\n\
        event deliver 11\n\
        event deliver 12\n\
        event deliver 13\n\
        event deliver 14\n\
        drop Late\n\
        event deliver 15\n\
        drop Late\n"
    );
    Ok(())
}

#[test]
fn a_crash_within_a_step_says_nothing(rt: HostRuntime) -> Result<(), Fail> {
    let out = told_of(
        rt.alloc(),
        SMALL,
        "\n---\ntick replica 0 1000\ncrash replica 1 during deliver 2 keep\ncrash replica 2 during deliver 3 lose\n\
        deliver 3\nrestart replica 1\nrestart replica 2\ndeliver 2\ndeliver 3\n",
    )?;
    assert_eq!(rt;
        out.as_str(),
        "event tick replica 0 1000\n\
        sent 1 replica 0 replica 0 0101010000000000000005\n\
        sent 2 replica 0 replica 1 0101010000000000000005\n\
        sent 3 replica 0 replica 2 0101010000000000000005\n\
        sent 4 replica 0 replica 3 0101010000000000000005\n\
        sent 5 replica 0 replica 4 0101010000000000000005\n\
        event crash replica 1 during deliver 2 keep\n\
        event crash replica 2 during deliver 3 lose\n\
        event deliver 3\n\
        down\n\
        event restart replica 1\n\
        event restart replica 2\n\
        event deliver 2\n\
        sent 6 replica 1 replica 0 010102000000000000000500000000000000000000000000000000\n\
        event deliver 3\n\
        sent 7 replica 2 replica 0 010102000000000000000500000000000000000000000000000000\n"
    );
    Ok(())
}

/// How many lines of each kind a text's transcript has, or a line that says why there is none.
fn counted(alloc: Global, text: &[u8]) -> Result<String, AllocError> {
    if text.len() > LONGEST {
        return String::from_str(alloc, "too long for a test");
    }
    match count_transcript(alloc, text) {
        Ok(counts) => format!(in alloc; "{} {} {}", counts.events, counts.sent, counts.drops),
        Err(fault) => told_fault(alloc, fault),
    }
}

#[test]
fn a_transcript_is_counted(rt: HostRuntime) -> Result<(), Fail> {
    let alloc = rt.alloc();
    let mut text = String::from_str(alloc, SMALL)?;
    text.push_str("\n---\ntick mux 0 1000\nsettle 5\ntick replica 0 1000\nsettle 10\n")?;
    let out = counted(alloc, text.as_bytes())?;
    assert_eq!(rt; out.as_str(), "19 15 2");
    Ok(())
}
