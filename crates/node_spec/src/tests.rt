use crate::{entry_bytes, say, say_each};
use control_msg::Message;
use std::alloc::{AllocError, Global};
use std::test::Fail;
use vip_config::Config;
use wire_core::{Entry, Ip4, NodeId, Socket, Step};

/// One mux, one agent with one machine, and one VIP.
const SMALL: &str = r#"{"version":1,"router":"10.7.0.1:7000",
        "replicas":["10.0.0.1:7000","10.0.0.2:7000","10.0.0.3:7000","10.0.0.4:7000","10.0.0.5:7000"],
        "muxes":["10.9.0.1:7000"],
        "agents":[{"socket":"10.8.0.1:7000","machines":[{"address":"10.1.0.4","attach":"10.1.0.4:9000"}]}],
        "vips":[{"address":"192.0.2.10","low":1024,"high":65535,"snat":["10.1.0.4"],"endpoints":[]}],
        "limit":16,
        "timers":{"lead_silent":1000,"mux_silent":5000,"ask_retry":500,"flow_idle":60000,"range_idle":30000}}"#;

fn small(alloc: Global) -> Result<Config, AllocError> {
    match Config::read(alloc, SMALL.as_bytes()) {
        Ok(config) => Ok(config),
        Err(_) => Err(AllocError),
    }
}

/// A Program to the mux, one to a mux that isn't configured, and a Prepare to replicas 0 and 4.
fn told(alloc: Global) -> Result<Step, AllocError> {
    let config = small(alloc)?;
    let mut step = Step::new(alloc);
    let program = Message::Program {
        epoch: 5,
        boot: 1,
        n: 1,
        vip: Ip4(0xc000_020a),
        start: 1024,
        machine: Ip4(0x0a01_0004),
    };
    say(alloc, &config, &mut step, NodeId::Mux(0), &program)?;
    say(alloc, &config, &mut step, NodeId::Mux(1), &program)?;
    let prepare = Message::Prepare { ballot: 5 };
    say_each(alloc, &config, &mut step, &[0, 4], &prepare)?;
    Ok(step)
}

#[test]
fn messages_leave_in_frames(rt: HostRuntime) -> Result<(), Fail> {
    let step = told(rt.alloc())?;
    match step.sends.as_slice() {
        [program, first, last] => {
            assert_eq!(rt;
                program.to,
                Socket {
                    ip: Ip4(0x0a09_0001),
                    port: 7000
                }
            );
            assert_eq!(rt;
                program.bytes.as_slice(),
                b"\x01\x01\x10\0\0\0\0\0\0\0\x05\0\0\0\0\0\0\0\x01\0\0\0\0\0\0\0\x01\
                    \xc0\0\x02\x0a\x04\0\x0a\x01\0\x04"
                    .as_slice()
            );
            assert_eq!(rt;
                first.to,
                Socket {
                    ip: Ip4(0x0a00_0001),
                    port: 7000
                }
            );
            assert_eq!(rt;
                last.to,
                Socket {
                    ip: Ip4(0x0a00_0005),
                    port: 7000
                }
            );
            assert_eq!(rt;
                last.bytes.as_slice(),
                b"\x01\x01\x01\0\0\0\0\0\0\0\x05".as_slice()
            );
        }
        sends => assert_eq!(rt; sends.len(), 3),
    }
    Ok(())
}

#[test]
fn entries_in_bytes(rt: HostRuntime) -> Result<(), Fail> {
    let body = entry_bytes(rt.alloc(), &Entry::Epoch { epoch: 5 })?;
    assert_eq!(rt; body.as_slice(), b"\x05\0\0\0\0\0\0\0\x05".as_slice());
    Ok(())
}
