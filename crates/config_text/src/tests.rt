use crate::{ConfigFault, Settings};
use std::alloc::{AllocError, Global};
use std::test::Fail;
use wire_core::{Ip4, Socket};

/// A configuration of one mux, one agent and one VIP.
const SMALL: &str = r#"{"version":1,"router":"10.7.0.1:7000",
"replicas":["10.0.0.1:7000","10.0.0.2:7000","10.0.0.3:7000","10.0.0.4:7000","10.0.0.5:7000"],
"muxes":["10.9.0.1:7000"],
"agents":[{"socket":"10.8.0.1:7000","machines":[{"address":"10.1.0.4","attach":"10.1.0.4:9000"}]}],
"vips":[{"address":"192.0.2.10","low":1024,"high":65535,"snat":["10.1.0.4"],"endpoints":[]}],"limit":16,
"timers":{"lead_silent":1000,"mux_silent":5000,"ask_retry":500,"flow_idle":60000,"range_idle":30000}}"#;

/// The small configuration with the first of this text replaced.
fn with(alloc: Global, old: &str, new: &str) -> Result<String, AllocError> {
    match SMALL.split_once(old) {
        Some((front, rest)) => format!(in alloc; "{front}{new}{rest}"),
        None => Ok(String::new(alloc)),
    }
}

/// The path of the first fault: `json` where there is no value, and empty where there is no fault.
fn path_of(alloc: Global, text: &[u8]) -> Result<String, AllocError> {
    match Settings::read(alloc, text) {
        Ok(_) => Ok(String::new(alloc)),
        Err(ConfigFault::Field(path)) => Ok(path),
        Err(ConfigFault::Json) => String::from_str(alloc, "json"),
        Err(ConfigFault::NoMemory) => Err(AllocError),
    }
}

#[test]
fn the_small_configuration(rt: HostRuntime) -> Result<(), Fail> {
    let Ok(settings) = Settings::read(rt.alloc(), SMALL.as_bytes()) else {
        return Err(Fail::from(AllocError));
    };
    let attach = Socket {
        ip: Ip4(0x0a01_0004),
        port: 9000,
    };
    assert_eq!(rt; settings.router.ip, Ip4(0x0a07_0001));
    assert_eq!(rt; settings.replicas.len(), 5);
    assert_eq!(rt;
        settings.agents.as_slice()[0].machines.as_slice()[0].attach,
        attach
    );
    assert_eq!(rt; settings.vips.as_slice()[0].high, 65535);
    assert_eq!(rt; settings.limit, 16);
    assert_eq!(rt; settings.timers.range_idle, 30000);
    Ok(())
}

/// Whether the small configuration with the first `old` replaced has its first fault at this path.
fn is_told_with(alloc: Global, (old, new, path): (&str, &str, &str)) -> Result<bool, AllocError> {
    let text = with(alloc, old, new)?;
    let found = path_of(alloc, text.as_bytes())?;
    Ok(found.as_str() == path)
}

/// The number of the first row (old text, new text, path) whose path isn't the one that is told.
fn first_wrong(alloc: Global, rows: &[(&str, &str, &str)]) -> Result<Option<usize>, AllocError> {
    for (i, row) in rows.iter().enumerate() {
        if !is_told_with(alloc, *row)? {
            return Ok(Some(i));
        }
    }
    Ok(None)
}

#[test]
fn the_first_fault_in_nodes(rt: HostRuntime) -> Result<(), Fail> {
    let wrong = first_wrong(
        rt.alloc(),
        &[
            ("\"version\":1", "\"version\":2", "version"),
            ("\"version\":1", "\"version\":1.0", "version"),
            ("\"version\":1", "\"version\":1e0", "version"),
            ("\"version\":1", "\"Version\":1", "version"),
            ("\"10.0.0.3:7000\",", "", "replicas"),
            ("10.0.0.3:7000", "10.0.0.3:0", "replicas[2]"),
            ("\"10.9.0.1:7000\"", "", "muxes"),
            (
                "{\"address\":\"10.1.0.4\",\"attach\":\"10.1.0.4:9000\"}",
                "7",
                "agents[0].machines[0]",
            ),
            (
                "\"address\":\"10.1.0.4\",",
                "",
                "agents[0].machines[0].address",
            ),
            (
                "10.1.0.4:9000",
                "10.1.0.04:9000",
                "agents[0].machines[0].attach",
            ),
        ],
    )?;
    assert_eq!(rt; wrong, None);
    Ok(())
}

#[test]
fn the_first_fault_in_vips(rt: HostRuntime) -> Result<(), Fail> {
    let wrong = first_wrong(
        rt.alloc(),
        &[
            ("\"low\":1024", "\"low\":-0", "vips[0].low"),
            (
                "\"high\":65535",
                "\"high\":18446744073709551616",
                "vips[0].high",
            ),
            ("[\"10.1.0.4\"]", "[\"10.1.0.4\",null]", "vips[0].snat[1]"),
            (
                "\"endpoints\":[]",
                "\"endpoints\":[{\"proto\":\"TCP\"}]",
                "vips[0].endpoints[0].proto",
            ),
            (
                "\"endpoints\":[]",
                "\"endpoints\":[{\"proto\":\"udp\",\"port\":53,\"machines\":[]}]",
                "vips[0].endpoints[0].machines",
            ),
            (
                "\"endpoints\":[]",
                "\"endpoints\":[{\"proto\":\"udp\",\"port\":53,\"machines\":[{\"address\":\"10.1.0.4\",\"port\":65536}]}]",
                "vips[0].endpoints[0].machines[0].port",
            ),
        ],
    )?;
    assert_eq!(rt; wrong, None);
    Ok(())
}

#[test]
fn the_first_fault_in_limit_and_timers(rt: HostRuntime) -> Result<(), Fail> {
    let wrong = first_wrong(
        rt.alloc(),
        &[
            ("\"limit\":16", "\"limit\":1025", "limit"),
            ("\"limit\":16", "\"limit\":16,\"a\":1,\"Z\":2", "Z"),
            (
                "\"lead_silent\":1000",
                "\"lead_silent\":0",
                "timers.lead_silent",
            ),
            ("\"timers\":{", "\"timers\":{\"t.o\":1,", "timers.t.o"),
        ],
    )?;
    assert_eq!(rt; wrong, None);
    Ok(())
}

#[test]
fn whole_texts(rt: HostRuntime) -> Result<(), Fail> {
    let alloc = rt.alloc();
    for (text, path) in [
        (b"[]".as_slice(), "version"),
        (b"null", "version"),
        (b"{}", "version"),
        (b"{", "json"),
        (b"", "json"),
        (b"\"\xff\"", "json"),
        (b"{\"version\":1}", "router"),
        (b"{\"version\":2,\"version\":1}", "router"),
    ] {
        let found = path_of(alloc, text)?;
        assert_eq!(rt; found.as_str(), path, "{text:?}");
    }
    let wide = with(alloc, "\"low\":1024", "\"low\":18446744073709551615")?;
    let found = path_of(alloc, wide.as_bytes())?;
    assert_eq!(rt; found.as_str(), "");
    Ok(())
}
