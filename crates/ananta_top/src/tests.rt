// Whole runs over objects in memory.
ghost use Rattle.std.specs.Prelude.{None};

use crate::{Status, run};
use outside_io::{Failed, MemClock, MemSink, MemSource, NoHost, Source};
use std::alloc::{AllocError, Global};
use std::test::Fail;

/// The worked schedule, without its packets.
const LEASES: &[u8] = b"plain\n\
      vip 192.0.2.10 1024 1039\n\
      ask 192.0.2.10 10.1.0.4\n\
      ask 192.0.2.10 10.1.0.5\n\
      ask 192.0.2.10 10.1.0.6\n\
      return 17\n\
      return 17\n\
      ask 192.0.2.10 10.1.0.6\n";

const LEASED: &[u8] =
    b"leased 1 1024\nleased 17 1032\nexhausted 33\nfreed 17\nunknown 17\nleased 65 1032\n";

/// A configuration of one mux, one agent with one machine, and one VIP.
pub const SMALL: &str = r#"{"version":1,"router":"10.7.0.1:7000",
  "replicas":["10.0.0.1:7000","10.0.0.2:7000","10.0.0.3:7000","10.0.0.4:7000","10.0.0.5:7000"],
  "muxes":["10.9.0.1:7000"],
  "agents":[{"socket":"10.8.0.1:7000","machines":[{"address":"10.1.0.4","attach":"10.1.0.4:9000"}]}],
  "vips":[{"address":"192.0.2.10","low":1024,"high":65535,"snat":["10.1.0.4"],"endpoints":[]}],
  "limit":16,"timers":{"lead_silent":1000,"mux_silent":5000,"ask_retry":500,"flow_idle":60000,"range_idle":30000}}"#;

/// A configuration of two muxes, two agents with one machine each, and one VIP.
pub const TWO_MUXES: &str = r#"{"version":1,"router":"10.7.0.1:7000",
  "replicas":["10.0.0.1:7000","10.0.0.2:7000","10.0.0.3:7000","10.0.0.4:7000","10.0.0.5:7000"],
  "muxes":["10.9.0.1:7000","10.9.0.2:7000"],
  "agents":[{"socket":"10.8.0.1:7000","machines":[{"address":"10.1.0.4","attach":"10.1.0.4:9000"}]},
    {"socket":"10.8.0.2:7000","machines":[{"address":"10.1.0.5","attach":"10.1.0.5:9000"}]}],
  "vips":[{"address":"192.0.2.10","low":1024,"high":1087,"snat":["10.1.0.4","10.1.0.5"],"endpoints":[]}],
  "limit":16,"timers":{"lead_silent":1000,"mux_silent":5000,"ask_retry":500,"flow_idle":60000,"range_idle":30000}}"#;

/// How a run ended, and what stands on its two sinks.
#[derive(Drop)]
pub struct Ran {
    pub status: Status,
    pub out: MemSink,
    pub err: MemSink,
}

/// Runs over any source, with a sink that takes at most 16 bytes a call.
pub fn run_over<S: Source>(
    alloc: Global,
    line: &[&str],
    input: &mut S,
    write_fails: &[u64],
) -> Result<Ran, AllocError> {
    let mut words = Vec::new(alloc);
    for word in line {
        words.push(String::from_str(alloc, word)?)?;
    }
    let mut out = MemSink::new(Vec::new(alloc), 16, write_fails.to_vec(alloc)?);
    let mut err = MemSink::new(Vec::new(alloc), 16, Vec::new(alloc));
    let mut host = NoHost::new();
    let mut clock = MemClock::new(Vec::new(alloc));
    let status = run(
        alloc, &words, input, &mut out, &mut err, &mut host, &mut clock,
    );
    Ok(Ran { status, out, err })
}

/// Replays a text.
pub fn replay(alloc: Global, text: &[u8]) -> Result<Ran, AllocError> {
    let mut input = MemSource::new(text.to_vec(alloc)?, Vec::new(alloc));
    run_over(alloc, &["replay"], &mut input, &[])
}

fn check(alloc: Global, text: &[u8]) -> Result<Ran, AllocError> {
    let mut input = MemSource::new(text.to_vec(alloc)?, Vec::new(alloc));
    run_over(alloc, &["check"], &mut input, &[])
}

/// The small configuration with the first of this text replaced.
fn small_with(alloc: Global, old: &str, new: &str) -> Result<String, AllocError> {
    match SMALL.split_once(old) {
        Some((front, rest)) => format!(in alloc; "{front}{new}{rest}"),
        None => Ok(String::new(alloc)),
    }
}

/// A source that gives so many bytes, all of them `x`.
#[derive(Debug, Drop)]
struct LongSource {
    left: usize,
}

impl Source for LongSource {
    ghost left = { λ _. None };

    ghost faults = { λ _. 0 };

    fn read(&mut self, buf: &mut [u8]) -> Result<usize, Failed> {
        let count = buf.len().min(self.left);
        for byte in buf.iter_mut() {
            *byte = b'x';
        }
        self.left -= count;
        Ok(count)
    }
}

#[test]
fn the_worked_schedule(rt: HostRuntime) -> Result<(), Fail> {
    let ran = replay(rt.alloc(), LEASES)?;
    assert_eq!(rt; ran.status, Status::Done);
    assert_eq!(rt; ran.out.bytes(), LEASED);
    assert_eq!(rt; ran.err.bytes().len(), 0);
    Ok(())
}

#[test]
fn configurations(rt: HostRuntime) -> Result<(), Fail> {
    let alloc = rt.alloc();
    let served =
        "[{\"proto\":\"udp\",\"port\":1026,\"machines\":[{\"address\":\"10.1.0.4\",\"port\":53}]}]";
    let with_endpoint = small_with(alloc, "[]", served)?;
    for (text, line) in [
        (
            SMALL,
            "ok replicas 5 muxes 1 agents 1 machines 1 vips 1 ranges 8064\n",
        ),
        (
            TWO_MUXES,
            "ok replicas 5 muxes 2 agents 2 machines 2 vips 1 ranges 8\n",
        ),
        (
            with_endpoint.as_str(),
            "ok replicas 5 muxes 1 agents 1 machines 1 vips 1 ranges 8063\n",
        ),
    ] {
        let ran = check(alloc, text.as_bytes())?;
        assert_eq!(rt; ran.status, Status::Done, "{text}");
        assert_eq!(rt; ran.out.bytes(), line.as_bytes(), "{text}");
        assert_eq!(rt; ran.err.bytes().len(), 0);
    }
    Ok(())
}

#[test]
fn bad_configurations(rt: HostRuntime) -> Result<(), Fail> {
    let alloc = rt.alloc();
    for (old, new, line) in [
        ("{\"version\"", "\"version\"", "config json\n"),
        ("\"low\":1024", "\"low\":1025", "config vips[0].low\n"),
        ("10.9.0.1:7000", "10.0.0.5:7000", "config muxes[0]\n"),
        ("\"limit\":16", "\"limit\":0", "config limit\n"),
    ] {
        let text = small_with(alloc, old, new)?;
        let ran = check(alloc, text.as_bytes())?;
        assert_eq!(rt; ran.status, Status::BadConfig, "{new}");
        assert_eq!(rt; ran.err.bytes(), line.as_bytes(), "{new}");
        assert_eq!(rt; ran.out.bytes().len(), 0);
    }
    Ok(())
}

#[test]
fn words_of_no_form(rt: HostRuntime) -> Result<(), Fail> {
    let alloc = rt.alloc();
    for words in [
        ["Replay"].as_slice(),
        &[],
        &[""],
        &["replay "],
        &["--help"],
        &["checks"],
        &["replay", "replay"],
        &["check", "7", "0"],
        &["generate"],
        &["generate", "7"],
        &["generate", "7", "0", "0"],
        &["generate", "07", "0"],
        &["generate", "+7", "0"],
        &["generate", "", "0"],
        &["generate", "18446744073709551616", "0"],
        &["generate", "7", "99997"],
        &["generate", "7", "00"],
        &["node"],
        &["node", "mux", "0"],
        &["node", "mux", "0", "--turns"],
        &["node", "mux", "--turns=1", "0"],
        &["node", "mux", "--turns", "1", "0"],
        &["node", "mux", "0", "--turns", "1", "1"],
        &["node", "mux", "0", "--turns", "01"],
        &["node", "mux", "0", "--turns", "18446744073709551616"],
        &["node", "mux", "00", "--turns", "1"],
        &["node", "mux", "0", "--turns="],
        &["node", "Mux", "0", "--turns=1"],
        &["node", "router", "0", "--turns=1"],
        &["node", "--turns=1", "--turns=1", "mux", "0"],
        &["nodes", "mux", "0", "--turns=1"],
    ] {
        let mut input = MemSource::new(LEASES.to_vec(alloc)?, Vec::new(alloc));
        let ran = run_over(alloc, words, &mut input, &[])?;
        assert_eq!(rt; ran.status, Status::Usage);
        assert_eq!(rt; ran.err.bytes(), b"usage\n".as_slice());
    }
    Ok(())
}

#[test]
fn ranges_at_the_edges(rt: HostRuntime) -> Result<(), Fail> {
    let last =
        b"plain\nvip 192.0.2.10 65528 65535\nask 192.0.2.10 10.1.0.4\nask 192.0.2.10 10.1.0.4\n";
    let ran = replay(rt.alloc(), last)?;
    assert_eq!(rt; ran.status, Status::Done);
    assert_eq!(rt;
        ran.out.bytes(),
        b"leased 1 65528\nexhausted 17\n".as_slice()
    );
    let ran = replay(rt.alloc(), b"plain\nvip 192.0.2.10 1016 1023")?;
    assert_eq!(rt; ran.status, Status::BadSchedule);
    assert_eq!(rt; ran.err.bytes(), b"schedule line 2\n".as_slice());
    Ok(())
}

#[test]
fn bad_lines(rt: HostRuntime) -> Result<(), Fail> {
    for (text, wanted) in [
        ("plain\n\nvip 1.2.3.4 1025 1031", "schedule line 3\n"),
        ("plain\nask 1.2.3.4 1.2.3.5", "schedule line 2\n"),
        (
            "plain\nvip 1.2.3.4 1024 1031\nvip 1.2.3.4 1024 1031",
            "schedule line 3\n",
        ),
        (
            "plain\nvip 1.2.3.4 1024 1031\nask 1.2.3.4 1.2.3.4",
            "schedule line 3\n",
        ),
        (
            "plain\nvip 1.2.3.4 1024 1031\nvip 1.2.3.5 1024 1031\nask 1.2.3.4 1.2.3.6\nask 1.2.3.5 1.2.3.6",
            "schedule line 5\n",
        ),
        ("plain\nreturn 01", "schedule line 2\n"),
        ("plain\nseize 1", "schedule line 2\n"),
    ] {
        let ran = replay(rt.alloc(), text.as_bytes())?;
        assert_eq!(rt; ran.status, Status::BadSchedule, "{text:?}");
        assert_eq!(rt; ran.err.bytes(), wanted.as_bytes(), "{text:?}");
        assert_eq!(rt; ran.out.bytes().len(), 0);
    }
    Ok(())
}

#[test]
fn as_many_vips_as_allowed(rt: HostRuntime) -> Result<(), Fail> {
    let alloc = rt.alloc();
    let mut text = String::from_str(alloc, "plain\n")?;
    for number in 0..64 {
        writeln!(text, "vip 192.0.2.{number} 1024 1031")?;
    }
    assert_eq!(rt; replay(alloc, text.as_bytes())?.status, Status::Done);
    writeln!(text, "vip 192.0.2.64 1024 1031")?;
    let ran = replay(alloc, text.as_bytes())?;
    assert_eq!(rt; ran.status, Status::BadSchedule);
    assert_eq!(rt; ran.err.bytes(), b"schedule line 66\n".as_slice());
    Ok(())
}

#[test]
fn as_many_lines_as_allowed(rt: HostRuntime) -> Result<(), Fail> {
    let alloc = rt.alloc();
    let mut text = b"plain\n".to_vec(alloc)?;
    for _ in 1..100_000 {
        text.push(b'\n')?;
    }
    assert_eq!(rt; replay(alloc, &text)?.status, Status::Done);
    for more in [b"\n".as_slice(), b"# one more".as_slice()] {
        let mut longer = text.as_slice().to_vec(alloc)?;
        longer.extend_from_slice(more)?;
        let ran = replay(alloc, &longer)?;
        assert_eq!(rt; ran.status, Status::BadSchedule);
        assert_eq!(rt; ran.err.bytes(), b"schedule line 100001\n".as_slice());
    }
    Ok(())
}

#[test]
fn as_many_bytes_as_allowed(rt: HostRuntime) -> Result<(), Fail> {
    let alloc = rt.alloc();
    let mut input = LongSource { left: 67_108_864 };
    let ran = run_over(alloc, &["replay"], &mut input, &[])?;
    assert_eq!(rt; ran.status, Status::BadConfig);
    let mut input = LongSource { left: 67_108_865 };
    let ran = run_over(alloc, &["replay"], &mut input, &[])?;
    assert_eq!(rt; ran.status, Status::TooLong);
    assert_eq!(rt; ran.err.bytes(), b"input too long\n".as_slice());
    Ok(())
}

/// The lines behind the configuration of a generated schedule without lines of its own.
const OPENING: &[u8] = b"---\ntick mux 0 1000\ntick mux 1 1000\ntick replica 0 1000\nsettle 50\n";

#[test]
fn a_generated_schedule(rt: HostRuntime) -> Result<(), Fail> {
    let alloc = rt.alloc();
    for (words, lines) in [
        (["generate", "7", "0"], 0usize),
        (["generate", "18446744073709551615", "1"], 1),
        (["generate", "0", "300"], 300),
    ] {
        // A read would fail.
        let mut input = MemSource::new(LEASES.to_vec(alloc)?, [0].to_vec(alloc)?);
        let ran = run_over(alloc, &words, &mut input, &[])?;
        assert_eq!(rt; ran.status, Status::Done);
        assert_eq!(rt; ran.err.bytes().len(), 0);
        let ends = ran
            .out
            .bytes()
            .iter()
            .filter(|byte| **byte == b'\n')
            .count();
        assert_eq!(rt; ends, 6 + lines);
        let tail = &ran.out.bytes()[ran.out.bytes().len().min(576)..];
        assert!(rt; tail.starts_with(OPENING));
    }
    Ok(())
}

#[test]
fn a_generated_schedule_is_cut(rt: HostRuntime) -> Result<(), Fail> {
    let alloc = rt.alloc();
    let mut input = MemSource::new(Vec::new(alloc), Vec::new(alloc));
    let ran = run_over(alloc, &["generate", "7", "0"], &mut input, &[1])?;
    assert_eq!(rt; ran.status, Status::WriteFault);
    assert_eq!(rt; ran.out.bytes(), b"{\"version\":1,\"ro".as_slice());
    assert_eq!(rt; ran.err.bytes(), b"write fault\n".as_slice());
    Ok(())
}

#[test]
fn faults_of_the_streams(rt: HostRuntime) -> Result<(), Fail> {
    let alloc = rt.alloc();
    let mut input = MemSource::new(LEASES.to_vec(alloc)?, [0].to_vec(alloc)?);
    let ran = run_over(alloc, &["replay"], &mut input, &[])?;
    assert_eq!(rt; ran.status, Status::ReadFault);
    assert_eq!(rt; ran.err.bytes(), b"read fault\n".as_slice());
    let mut input = MemSource::new(LEASES.to_vec(alloc)?, Vec::new(alloc));
    let ran = run_over(alloc, &["replay"], &mut input, &[1])?;
    assert_eq!(rt; ran.status, Status::WriteFault);
    assert_eq!(rt; ran.out.bytes(), &LEASED[..16]);
    assert_eq!(rt; ran.err.bytes(), b"write fault\n".as_slice());
    Ok(())
}
