use crate::Config;
use config_text::ConfigFault;
use std::alloc::{AllocError, Global};
use std::test::Fail;

/// Two muxes, two agents with two machines and one, two VIPs with two endpoints and one. It keeps every rule.
const WHOLE: &str = r#"{"version":1,"router":"10.7.0.1:7000",
"replicas":["10.0.0.1:7000","10.0.0.2:7000","10.0.0.3:7000","10.0.0.4:7000","10.0.0.5:7000"],
"muxes":["10.9.0.1:7000","10.9.0.2:7000"],
"agents":[{"socket":"10.8.0.1:7000","machines":[{"address":"10.1.0.4","attach":"10.1.0.4:9000"},
{"address":"10.1.0.5","attach":"10.1.0.5:9000"}]},
{"socket":"10.8.0.2:7000","machines":[{"address":"10.1.0.6","attach":"10.1.0.6:9000"}]}],
"vips":[{"address":"192.0.2.10","low":1024,"high":1087,
"snat":["10.1.0.4","10.1.0.5"],
"endpoints":[{"proto":"tcp","port":80,"machines":[{"address":"10.1.0.4","port":8080},
{"address":"10.1.0.5","port":8081}]},
{"proto":"udp","port":80,"machines":[{"address":"10.1.0.4","port":8080}]}]},
{"address":"192.0.2.11","low":2048,"high":65535,
"snat":["10.1.0.6"],"endpoints":[{"proto":"tcp","port":80,"machines":[{"address":"10.1.0.6","port":8082}]}]}],
"limit":16,"timers":{"lead_silent":1000,"mux_silent":5000,"ask_retry":500,"flow_idle":60000,"range_idle":30000}}"#;

/// The text with the first `old` replaced; empty, and so no JSON, where there is none.
fn with(alloc: Global, text: &str, old: &str, new: &str) -> Result<String, AllocError> {
    match text.split_once(old) {
        Some((front, rest)) => format!(in alloc; "{front}{new}{rest}"),
        None => Ok(String::new(alloc)),
    }
}

/// The path of the member that breaks a rule; empty where none does.
fn path_of(alloc: Global, text: &str) -> Result<String, AllocError> {
    match Config::read(alloc, text.as_bytes()) {
        Ok(_) => Ok(String::new(alloc)),
        Err(ConfigFault::Field(path)) => Ok(path),
        Err(_) => Err(AllocError),
    }
}

fn is_told(alloc: Global, text: &str, path: &str) -> Result<bool, AllocError> {
    let found = path_of(alloc, text)?;
    Ok(found.as_str() == path)
}

fn is_told_with(alloc: Global, (old, new, path): (&str, &str, &str)) -> Result<bool, AllocError> {
    let text = with(alloc, WHOLE, old, new)?;
    is_told(alloc, text.as_str(), path)
}

/// The number of the first row (old text, new text, path) whose path isn't the one that is told.
fn first_wrong(alloc: Global, rows: &[(&str, &str, &str)]) -> Result<Option<usize>, AllocError> {
    for (i, row) in rows.iter().enumerate() {
        if !is_told_with(alloc, *row)? {
            return Ok(Some(i));
        }
    }
    Ok(None)
}

#[test]
fn no_rule_is_broken(rt: HostRuntime) -> Result<(), Fail> {
    let wrong = first_wrong(
        rt.alloc(),
        &[
            ("", "", ""),
            // the one range of a VIP is its first, or the last that there is
            ("1087", "1031", ""),
            ("2048", "65528", ""),
            ("[\"10.1.0.6\"]", "[]", ""),
            // a machine serves two endpoints at two ports
            (
                "\"10.1.0.6\",\"port\":8082",
                "\"10.1.0.4\",\"port\":8082",
                "",
            ),
            ("\"udp\",\"port\":80", "\"udp\",\"port\":81", ""),
        ],
    )?;
    assert_eq!(rt; wrong, None);
    Ok(())
}

#[test]
fn sockets_are_shared(rt: HostRuntime) -> Result<(), Fail> {
    let wrong = first_wrong(
        rt.alloc(),
        &[
            ("10.0.0.2:7000", "10.7.0.1:7000", "replicas[1]"),
            ("10.0.0.5:7000", "10.0.0.1:7000", "replicas[4]"),
            ("10.9.0.1:7000", "10.7.0.1:7000", "muxes[0]"),
            ("10.9.0.1:7000", "10.0.0.3:7000", "muxes[0]"),
            ("10.9.0.2:7000", "10.9.0.1:7000", "muxes[1]"),
            ("10.8.0.1:7000", "10.0.0.5:7000", "agents[0].socket"),
            ("10.8.0.2:7000", "10.9.0.2:7000", "agents[1].socket"),
            ("10.8.0.2:7000", "10.8.0.1:7000", "agents[1].socket"),
            ("10.8.0.2:7000", "10.1.0.5:9000", "agents[1].socket"),
            // of two that clash the later one is told
            ("10.1.0.4:9000", "10.8.0.2:7000", "agents[1].socket"),
            (
                "10.1.0.4:9000",
                "10.8.0.1:7000",
                "agents[0].machines[0].attach",
            ),
            (
                "10.1.0.5:9000",
                "10.1.0.4:9000",
                "agents[0].machines[1].attach",
            ),
            (
                "10.1.0.6:9000",
                "10.7.0.1:7000",
                "agents[1].machines[0].attach",
            ),
        ],
    )?;
    assert_eq!(rt; wrong, None);
    Ok(())
}

#[test]
fn machines_and_vips_share_addresses(rt: HostRuntime) -> Result<(), Fail> {
    let wrong = first_wrong(
        rt.alloc(),
        &[
            (
                "\"10.1.0.5\",\"attach\"",
                "\"10.1.0.4\",\"attach\"",
                "agents[0].machines[1].address",
            ),
            (
                "\"10.1.0.6\",\"attach\"",
                "\"10.1.0.5\",\"attach\"",
                "agents[1].machines[0].address",
            ),
            ("192.0.2.11", "192.0.2.10", "vips[1].address"),
            ("192.0.2.10", "10.1.0.6", "vips[0].address"),
            ("192.0.2.11", "10.1.0.4", "vips[1].address"),
        ],
    )?;
    assert_eq!(rt; wrong, None);
    Ok(())
}

#[test]
fn ports_of_vips(rt: HostRuntime) -> Result<(), Fail> {
    let wrong = first_wrong(
        rt.alloc(),
        &[
            ("1024", "0", "vips[0].low"),
            ("1024", "1016", "vips[0].low"),
            ("1024", "1028", "vips[0].low"),
            ("2048", "65536", "vips[1].low"),
            ("2048", "18446744073709551608", "vips[1].low"),
            ("1087", "1086", "vips[0].high"),
            ("1087", "1023", "vips[0].high"),
            ("65535", "2047", "vips[1].high"),
            ("65535", "65543", "vips[1].high"),
            ("65535", "18446744073709551615", "vips[1].high"),
            ("1024,\"high\":1087", "1025,\"high\":1086", "vips[0].low"),
        ],
    )?;
    assert_eq!(rt; wrong, None);
    Ok(())
}

#[test]
fn machines_in_snat(rt: HostRuntime) -> Result<(), Fail> {
    let wrong = first_wrong(
        rt.alloc(),
        &[
            ("[\"10.1.0.6\"]", "[\"10.1.0.7\"]", "vips[1].snat[0]"),
            ("[\"10.1.0.6\"]", "[\"192.0.2.10\"]", "vips[1].snat[0]"),
            ("[\"10.1.0.6\"]", "[\"10.1.0.5\"]", "vips[1].snat[0]"),
            (
                "[\"10.1.0.6\"]",
                "[\"10.1.0.6\",\"10.1.0.4\"]",
                "vips[1].snat[1]",
            ),
            (
                "\"10.1.0.4\",\"10.1.0.5\"]",
                "\"10.1.0.4\",\"10.1.0.4\"]",
                "vips[0].snat[1]",
            ),
        ],
    )?;
    assert_eq!(rt; wrong, None);
    Ok(())
}

#[test]
fn endpoints_and_their_machines(rt: HostRuntime) -> Result<(), Fail> {
    let wrong = first_wrong(
        rt.alloc(),
        &[
            ("\"udp\"", "\"tcp\"", "vips[0].endpoints[1]"),
            (
                "\"udp\",\"port\":80",
                "\"tcp\",\"port\":81",
                "vips[0].endpoints[1].machines[0]",
            ),
            (
                "\"10.1.0.6\",\"port\":8082",
                "\"10.1.0.4\",\"port\":8080",
                "vips[1].endpoints[0].machines[0]",
            ),
            (
                "\"10.1.0.6\",\"port\":8082",
                "\"192.0.2.10\",\"port\":8082",
                "vips[1].endpoints[0].machines[0].address",
            ),
            (
                "\"10.1.0.5\",\"port\":8081",
                "\"10.1.0.7\",\"port\":8081",
                "vips[0].endpoints[0].machines[1].address",
            ),
            (
                "\"10.1.0.5\",\"port\":8081",
                "\"10.1.0.4\",\"port\":8081",
                "vips[0].endpoints[0].machines[1].address",
            ),
            // the object clashes and its address too
            (
                "\"10.1.0.5\",\"port\":8081",
                "\"10.1.0.4\",\"port\":8080",
                "vips[0].endpoints[0].machines[1]",
            ),
        ],
    )?;
    assert_eq!(rt; wrong, None);
    Ok(())
}

/// Two faults, each an old text and a new one, and the path that is told.
type TwoFaults<'a> = ((&'a str, &'a str), (&'a str, &'a str), &'a str);

fn is_told_with_two(
    alloc: Global,
    ((old, new), (other, by), path): TwoFaults,
) -> Result<bool, AllocError> {
    let text = with(alloc, WHOLE, old, new)?;
    let text = with(alloc, text.as_str(), other, by)?;
    is_told(alloc, text.as_str(), path)
}

fn first_wrong_of_two(alloc: Global, rows: &[TwoFaults]) -> Result<Option<usize>, AllocError> {
    for (i, row) in rows.iter().enumerate() {
        if !is_told_with_two(alloc, *row)? {
            return Ok(Some(i));
        }
    }
    Ok(None)
}

/// The first fault of each row breaks a later rule than the second, or the same rule at a later member.
#[test]
fn an_earlier_rule_is_told_first(rt: HostRuntime) -> Result<(), Fail> {
    let wrong = first_wrong_of_two(
        rt.alloc(),
        &[
            (
                ("10.9.0.2:7000", "10.9.0.1:7000"),
                ("\"limit\":16", "\"limit\":0"),
                "limit",
            ),
            (
                ("\"10.1.0.5\",\"attach\"", "\"10.1.0.4\",\"attach\""),
                ("10.8.0.2:7000", "10.8.0.1:7000"),
                "agents[1].socket",
            ),
            (
                ("192.0.2.10", "10.1.0.4"),
                ("\"10.1.0.6\",\"attach\"", "\"10.1.0.5\",\"attach\""),
                "agents[1].machines[0].address",
            ),
            (
                ("1024", "1028"),
                ("192.0.2.11", "192.0.2.10"),
                "vips[1].address",
            ),
            (
                ("\"10.1.0.4\",\"10.1.0.5\"]", "\"10.1.0.4\",\"10.1.0.4\"]"),
                ("65535", "65534"),
                "vips[1].high",
            ),
            (
                ("\"udp\"", "\"tcp\""),
                ("[\"10.1.0.6\"]", "[\"10.1.0.5\"]"),
                "vips[1].snat[0]",
            ),
            (("2048", "2049"), ("1087", "1086"), "vips[0].high"),
        ],
    )?;
    assert_eq!(rt; wrong, None);
    Ok(())
}
