use crate::{Config, Counts, Who};
use std::alloc::{AllocError, Global};
use std::test::Fail;
use wire_core::{Ip4, LeaseRules, MachineRule, NodeId, Range, Socket};

/// One mux, one agent with one machine, and one VIP.
const SMALL: &str = r#"{"version":1,"router":"10.7.0.1:7000",
"replicas":["10.0.0.1:7000","10.0.0.2:7000","10.0.0.3:7000","10.0.0.4:7000","10.0.0.5:7000"],
"muxes":["10.9.0.1:7000"],
"agents":[{"socket":"10.8.0.1:7000","machines":[{"address":"10.1.0.4","attach":"10.1.0.4:9000"}]}],
"vips":[{"address":"192.0.2.10","low":1024,"high":65535,"snat":["10.1.0.4"],"endpoints":[]}],"limit":16,
"timers":{"lead_silent":1000,"mux_silent":5000,"ask_retry":500,"flow_idle":60000,"range_idle":30000}}"#;

/// Two muxes, and two agents with a machine each.
const TWO: &str = r#"{"version":1,"router":"10.7.0.1:7000",
"replicas":["10.0.0.1:7000","10.0.0.2:7000","10.0.0.3:7000","10.0.0.4:7000","10.0.0.5:7000"],
"muxes":["10.9.0.1:7000","10.9.0.2:7000"],
"agents":[{"socket":"10.8.0.1:7000","machines":[{"address":"10.1.0.4","attach":"10.1.0.4:9000"}]},
{"socket":"10.8.0.2:7000","machines":[{"address":"10.1.0.5","attach":"10.1.0.5:9000"}]}],
"vips":[{"address":"192.0.2.10","low":1024,"high":1087,"snat":["10.1.0.4","10.1.0.5"],"endpoints":[]}],"limit":16,
"timers":{"lead_silent":1000,"mux_silent":5000,"ask_retry":500,"flow_idle":60000,"range_idle":30000}}"#;

/// The small one with an endpoint on port 1026.
const SERVED: &str = r#"{"version":1,"router":"10.7.0.1:7000",
"replicas":["10.0.0.1:7000","10.0.0.2:7000","10.0.0.3:7000","10.0.0.4:7000","10.0.0.5:7000"],
"muxes":["10.9.0.1:7000"],
"agents":[{"socket":"10.8.0.1:7000","machines":[{"address":"10.1.0.4","attach":"10.1.0.4:9000"}]}],
"vips":[{"address":"192.0.2.10","low":1024,"high":65535,"snat":["10.1.0.4"],
"endpoints":[{"proto":"udp","port":1026,"machines":[{"address":"10.1.0.4","port":53}]}]}],"limit":16,
"timers":{"lead_silent":1000,"mux_silent":5000,"ask_retry":500,"flow_idle":60000,"range_idle":30000}}"#;

const MACHINE: Ip4 = Ip4(0x0a01_0004);

const VIP: Ip4 = Ip4(0xc000_020a);

fn socket(ip: u32, port: u16) -> Socket {
    Socket { ip: Ip4(ip), port }
}

fn read(alloc: Global, text: &str) -> Result<Config, AllocError> {
    match Config::read(alloc, text.as_bytes()) {
        Ok(config) => Ok(config),
        Err(_) => Err(AllocError),
    }
}

fn owners(config: &Config) -> [Who; 7] {
    [
        config.who(&socket(0x0a07_0001, 7000)),
        config.who(&socket(0x0a00_0001, 7000)),
        config.who(&socket(0x0a00_0005, 7000)),
        config.who(&socket(0x0a09_0001, 7000)),
        config.who(&socket(0x0a08_0001, 7000)),
        config.who(&socket(0x0a01_0004, 9000)),
        config.who(&socket(0x0a01_0004, 7000)),
    ]
}

fn sockets(config: &Config) -> [Option<Socket>; 6] {
    [
        config.socket(&NodeId::Replica(4)),
        config.socket(&NodeId::Replica(5)),
        config.socket(&NodeId::Mux(1)),
        config.socket(&NodeId::Mux(2)),
        config.socket(&NodeId::Agent(1)),
        config.socket(&NodeId::Agent(2)),
    ]
}

fn agents(config: &Config) -> [Option<u16>; 3] {
    [
        config.agent_of(MACHINE),
        config.agent_of(Ip4(0x0a01_0005)),
        config.agent_of(VIP),
    ]
}

/// Where the machines of the configuration with two agents are reached; no VIP is a machine.
fn attached(config: &Config) -> [Option<Socket>; 3] {
    [
        config.attach_of(MACHINE),
        config.attach_of(Ip4(0x0a01_0005)),
        config.attach_of(VIP),
    ]
}

/// From which VIP its second machine leaves; no VIP leaves from one.
fn leaving(config: &Config) -> [Option<Ip4>; 2] {
    [config.snat_vip(Ip4(0x0a01_0005)), config.snat_vip(VIP)]
}

fn has_snat(config: &Config) -> [bool; 3] {
    [
        config.has_snat(VIP, MACHINE),
        config.has_snat(MACHINE, MACHINE),
        config.has_snat(VIP, VIP),
    ]
}

#[test]
fn the_small_configuration(rt: HostRuntime) -> Result<(), Fail> {
    let config = read(rt.alloc(), SMALL)?;
    let counts = config.counts();
    let owners = owners(&config);
    let ranges = config.ranges(rt.alloc())?;
    drop(config);
    assert_eq!(rt;
        counts,
        Counts {
            muxes: 1,
            agents: 1,
            machines: 1,
            vips: 1
        }
    );
    assert_eq!(rt; ranges, 8064);
    assert_eq!(rt;
        owners,
        [
            Who::Outside,
            Who::Replica(0),
            Who::Replica(4),
            Who::Mux(0),
            Who::Agent(0),
            Who::Machine(MACHINE),
            Who::Outside
        ]
    );
    Ok(())
}

/// A copy of the configuration with two muxes.
fn two(alloc: Global) -> Result<Config, AllocError> {
    let config = read(alloc, TWO)?;
    config.copy(alloc)
}

#[test]
fn nodes_and_machines(rt: HostRuntime) -> Result<(), Fail> {
    let config = two(rt.alloc())?;
    let sockets = sockets(&config);
    let agents = agents(&config);
    drop(config);
    assert_eq!(rt;
        sockets,
        [
            Some(socket(0x0a00_0005, 7000)),
            None,
            Some(socket(0x0a09_0002, 7000)),
            None,
            Some(socket(0x0a08_0002, 7000)),
            None
        ]
    );
    assert_eq!(rt; agents, [Some(0), Some(1), None]);
    Ok(())
}

#[test]
fn ways_to_and_from_machines(rt: HostRuntime) -> Result<(), Fail> {
    let config = two(rt.alloc())?;
    let attached = attached(&config);
    let leaving = leaving(&config);
    let has_snat = has_snat(&config);
    drop(config);
    assert_eq!(rt;
        attached,
        [
            Some(socket(0x0a01_0004, 9000)),
            Some(socket(0x0a01_0005, 9000)),
            None
        ]
    );
    assert_eq!(rt; leaving, [Some(VIP), None]);
    assert_eq!(rt; has_snat, [true, false, false]);
    Ok(())
}

fn rules(alloc: Global) -> Result<LeaseRules, AllocError> {
    let config = read(alloc, SERVED)?;
    config.lease_rules(alloc)
}

/// The rule of the one machine that there is.
fn only_machine(rules: &LeaseRules) -> Option<MachineRule> {
    match rules.machines.as_slice() {
        [rule] => Some(*rule),
        _ => None,
    }
}

#[test]
fn an_endpoint_takes_its_range(rt: HostRuntime) -> Result<(), Fail> {
    let rules = rules(rt.alloc())?;
    let count = rules.count(VIP);
    let leasable = [
        rules.leasable(&Range {
            vip: VIP,
            start: 1024,
        }),
        rules.leasable(&Range {
            vip: VIP,
            start: 1032,
        }),
    ];
    let machine = only_machine(&rules);
    drop(rules);
    assert_eq!(rt; count, 8063);
    assert_eq!(rt; leasable, [false, true]);
    assert_eq!(rt;
        machine,
        Some(MachineRule {
            machine: MACHINE,
            agent: 0,
            vip: VIP
        })
    );
    Ok(())
}
