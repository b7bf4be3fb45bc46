use crate::{Endpoints, Leaving, Ranges, Vips};
use mux_spec::{Kept, Programmed, Service};
use std::alloc::{AllocError, Global};
use std::test::Fail;
use vip_config::Config;
use wire_core::{Ip4, NoMemory, Proto, Range};

/// Two machines and two VIPs. The first VIP has all ports and serves tcp 1026 by both machines, the second has two ranges.
const CONFIG: &str =
    r#"{"version":1,"router":"10.7.0.1:7000","replicas":["10.0.0.1:7000","10.0.0.2:7000",
"10.0.0.3:7000","10.0.0.4:7000","10.0.0.5:7000"],"muxes":["10.9.0.1:7000"],"agents":[{"socket":"10.8.0.1:7000",
"machines":[{"address":"10.1.0.4","attach":"10.1.0.4:9000"},{"address":"10.1.0.5","attach":"10.1.0.5:9000"}]}],
"vips":[{"address":"192.0.2.10","low":1024,"high":65535,"snat":["10.1.0.4"],"endpoints":[{"proto":"tcp","port":1026,
"machines":[{"address":"10.1.0.5","port":8080},{"address":"10.1.0.4","port":8080}]}]},{"address":"192.0.2.11",
"low":1024,"high":1039,"snat":["10.1.0.5"],"endpoints":[]}],"limit":16,"timers":{"lead_silent":1000,
"mux_silent":5000,"ask_retry":500,"flow_idle":60000,"range_idle":30000}}"#;

const VIP: Ip4 = Ip4(0xc000_020a);

const OTHER_VIP: Ip4 = Ip4(0xc000_020b);

/// 198.51.100.7, which is no VIP.
const OUTSIDE: Ip4 = Ip4(0xc633_6407);

const MACHINE: Ip4 = Ip4(0x0a01_0004);

const OTHER_MACHINE: Ip4 = Ip4(0x0a01_0005);

fn config(alloc: Global) -> Result<Config, AllocError> {
    match Config::read(alloc, CONFIG.as_bytes()) {
        Ok(config) => Ok(config),
        Err(_) => Err(AllocError),
    }
}

fn ranges_of(alloc: Global, config: &Config) -> Result<Ranges, NoMemory> {
    let rules = config.lease_rules(alloc)?;
    Ranges::new(alloc, &rules)
}

fn ranges(alloc: Global) -> Result<Ranges, AllocError> {
    let config = config(alloc)?;
    ranges_of(alloc, &config)
}

// ---- ranges

fn at(vip: Ip4, start: u16) -> Range {
    Range { vip, start }
}

/// How many ranges of a VIP have an entry, and the first start of those.
fn entries(ranges: &Ranges, vip: Ip4) -> (u64, Option<u16>) {
    let mut count = 0u64;
    let mut first = None;
    for i in 0..8192u16 {
        if ranges.row(&at(vip, 8 * i)).is_some() {
            count = count.saturating_add(1);
            first = first.or(Some(8 * i));
        }
    }
    (count, first)
}

fn all_entries(alloc: Global) -> Result<[(u64, Option<u16>); 3], NoMemory> {
    let ranges = ranges(alloc)?;
    let vip = entries(&ranges, VIP);
    let other = entries(&ranges, OTHER_VIP);
    let outside = entries(&ranges, OUTSIDE);
    Ok([vip, other, outside])
}

#[test]
fn the_range_of_an_endpoint_is_not_leased(rt: HostRuntime) -> Result<(), Fail> {
    let wanted = [(8063, Some(1032)), (2, Some(1024)), (0, None)];
    assert_eq!(rt; all_entries(rt.alloc())?, wanted);
    Ok(())
}

/// What a range is told: a Program for a machine, or an Unprogram.
#[derive(Clone, Copy)]
enum Order {
    Goes(u64, Ip4),
    Ends(u64),
}

/// The answer of a Program, if it is one, and what is kept of the range then.
fn take(ranges: &mut Ranges, r: &Range, order: Order) -> (Option<Programmed>, Kept) {
    let programmed = match order {
        Order::Goes(n, machine) => Some(ranges.program(n, r, machine)),
        Order::Ends(n) => {
            ranges.unprogram(n, r);
            None
        }
    };
    (programmed, ranges.kept(r))
}

fn take_each(
    ranges: &mut Ranges,
    r: &Range,
    orders: &[Order],
    out: &mut [(Option<Programmed>, Kept)],
) {
    for (place, order) in out.iter_mut().zip(orders) {
        *place = take(ranges, r, *order);
    }
}

const NOTHING: Kept = Kept {
    n: 0,
    machine: None,
};

/// A row with a machine, and one without.
fn row(n: u64, machine: Ip4) -> Kept {
    Kept {
        n,
        machine: Some(machine),
    }
}

fn no_row(n: u64) -> Kept {
    Kept { n, machine: None }
}

/// What one range of the first VIP is told, one order after the other.
fn told(
    alloc: Global,
    r: &Range,
    orders: &[Order],
) -> Result<[(Option<Programmed>, Kept); 7], NoMemory> {
    let mut ranges = ranges(alloc)?;
    let mut out = [(None, NOTHING); 7];
    take_each(&mut ranges, r, orders, &mut out);
    Ok(out)
}

#[test]
fn a_row_goes_by_the_greatest_number(rt: HostRuntime) -> Result<(), Fail> {
    let orders = [
        Order::Goes(17, MACHINE),
        Order::Goes(17, OTHER_MACHINE),
        Order::Goes(1, OTHER_MACHINE),
        Order::Ends(16),
        Order::Ends(17),
        Order::Goes(17, MACHINE),
        Order::Goes(33, OTHER_MACHINE),
    ];
    let out = told(rt.alloc(), &at(VIP, 65528), &orders)?;
    let old = Some(Programmed::Old { kept: 17 });
    let wanted = [
        (Some(Programmed::Set), row(17, MACHINE)),
        (Some(Programmed::Same), row(17, MACHINE)),
        (old, row(17, MACHINE)),
        (None, row(17, MACHINE)),
        (None, no_row(17)),
        (old, no_row(17)),
        (Some(Programmed::Set), row(33, OTHER_MACHINE)),
    ];
    assert_eq!(rt; out, wanted);
    Ok(())
}

/// The rows of one start in both VIPs and outside, and of the endpoint's range, once each was told to have one but the
/// first VIP's.
fn others(alloc: Global) -> Result<[Option<Kept>; 4], NoMemory> {
    let mut ranges = ranges(alloc)?;
    ranges.program(17, &at(OTHER_VIP, 1032), OTHER_MACHINE);
    ranges.program(17, &at(OUTSIDE, 1032), MACHINE);
    ranges.program(17, &at(VIP, 1024), MACHINE);
    let vip = ranges.row(&at(VIP, 1032));
    let other = ranges.row(&at(OTHER_VIP, 1032));
    let outside = ranges.row(&at(OUTSIDE, 1032));
    let endpoint = ranges.row(&at(VIP, 1024));
    Ok([vip, other, outside, endpoint])
}

#[test]
fn a_row_is_of_its_vip_alone(rt: HostRuntime) -> Result<(), Fail> {
    let wanted = [Some(NOTHING), Some(row(17, OTHER_MACHINE)), None, None];
    assert_eq!(rt; others(rt.alloc())?, wanted);
    Ok(())
}

// ---- endpoints, VIPs, and machines that leave from them

fn service(vip: Ip4, proto: Proto, port: u16) -> Service {
    Service { vip, proto, port }
}

/// The machines of the endpoint by the hashes 0, 1 and 4294967295, of the same port by UDP, of another port, and of the
/// other VIP.
fn machines_of(alloc: Global, config: &Config) -> Result<[Option<Ip4>; 6], NoMemory> {
    let endpoints = Endpoints::new(alloc, config.vips())?;
    let served = service(VIP, Proto::Tcp, 1026);
    let first = endpoints.machine(&served, 0);
    let second = endpoints.machine(&served, 1);
    let last = endpoints.machine(&served, u32::MAX);
    let udp = endpoints.machine(&service(VIP, Proto::Udp, 1026), 0);
    let port = endpoints.machine(&service(VIP, Proto::Tcp, 1027), 0);
    let vip = endpoints.machine(&service(OTHER_VIP, Proto::Tcp, 1026), 0);
    Ok([first, second, last, udp, port, vip])
}

fn machines(alloc: Global) -> Result<[Option<Ip4>; 6], NoMemory> {
    let config = config(alloc)?;
    machines_of(alloc, &config)
}

#[test]
fn a_hash_chooses_among_an_endpoints_machines(rt: HostRuntime) -> Result<(), Fail> {
    let wanted = [
        Some(OTHER_MACHINE),
        Some(MACHINE),
        Some(MACHINE),
        None,
        None,
        None,
    ];
    assert_eq!(rt; machines(rt.alloc())?, wanted);
    Ok(())
}

/// Whether each address is a VIP, and whether each machine leaves from each VIP.
fn ways_of(alloc: Global, config: &Config) -> Result<([bool; 3], [bool; 4]), NoMemory> {
    let vips = Vips::new(alloc, config.vips())?;
    let are = [vips.has(VIP), vips.has(OTHER_VIP), vips.has(OUTSIDE)];
    drop(vips);
    let leaving = Leaving::new(alloc, config.vips())?;
    let leave = [
        leaving.has(VIP, MACHINE),
        leaving.has(VIP, OTHER_MACHINE),
        leaving.has(OTHER_VIP, OTHER_MACHINE),
        leaving.has(OTHER_VIP, MACHINE),
    ];
    Ok((are, leave))
}

fn ways(alloc: Global) -> Result<([bool; 3], [bool; 4]), NoMemory> {
    let config = config(alloc)?;
    ways_of(alloc, &config)
}

#[test]
fn a_machine_leaves_from_its_own_vip(rt: HostRuntime) -> Result<(), Fail> {
    let (are, leave) = ways(rt.alloc())?;
    assert_eq!(rt; are, [true, true, false]);
    assert_eq!(rt; leave, [true, false, true, false]);
    Ok(())
}
