// The views of worlds that schedules lead to.
ghost use Rattle.std.specs.Prelude.{OnOk};
ghost use Rattle.world_model.specs.Sound.{IsSound};

use crate::{book, entries, held, live};
use address_text::write_address;
use agent_spec::Connection;
use node_core::Core;
use node_roles::Role;
use port_leases::{Phase, Row};
use schedule_text::{Event, EventList, read_schedule};
use std::alloc::{AllocError, Global};
use std::test::Fail;
use vip_config::Config;
use wire_core::{NoMemory, Proto};
use world_model::World;
use world_spec::{Held, MuxRow};

/// One mux, one agent with one machine, and one VIP.
const SMALL: &str =
    r#"{"version":1,"router":"10.7.0.1:7000","replicas":["10.0.0.1:7000","10.0.0.2:7000",
"10.0.0.3:7000","10.0.0.4:7000","10.0.0.5:7000"],"muxes":["10.9.0.1:7000"],"agents":[{"socket":"10.8.0.1:7000",
"machines":[{"address":"10.1.0.4","attach":"10.1.0.4:9000"}]}],"vips":[{"address":"192.0.2.10","low":1024,
"high":65535,"snat":["10.1.0.4"],"endpoints":[]}],"limit":16,"timers":{"lead_silent":1000,"mux_silent":5000,
"ask_retry":500,"flow_idle":60000,"range_idle":30000}}"#;

/// Replica 0 becomes primary, and the machine's first packet asks for a range.
const ASKED: &str = "tick mux 0 1000\nsettle 5\ntick replica 0 1000\nsettle 10\n\
    inject agent 0 10.1.0.4:9000 024500001e000100004011468f0a010004c633640713880035000a4f746869\n";

// ---- as lines

fn write_held(out: &mut String, h: &Held) -> Result<(), NoMemory> {
    write!(out, "held {} {} ", h.range.start, h.n)?;
    write_address(out, h.machine)?;
    writeln!(out)?;
    Ok(())
}

fn proto_name(proto: Proto) -> &'static str {
    match proto {
        Proto::Tcp => "tcp",
        Proto::Udp => "udp",
    }
}

fn write_connection(out: &mut String, c: &Connection) -> Result<(), NoMemory> {
    write!(out, "live {} {} ", proto_name(c.proto), c.port)?;
    write_address(out, c.remote)?;
    write!(out, " {} {} n {} last {} ", c.rport, c.sport, c.n, c.last)?;
    match c.peer {
        Some(peer) => write_address(out, peer)?,
        None => write!(out, "no peer")?,
    }
    writeln!(out)?;
    Ok(())
}

fn write_entry(out: &mut String, row: &MuxRow) -> Result<(), NoMemory> {
    write!(
        out,
        "entry {} {} {} {} ",
        row.mux, row.boot, row.range.start, row.n
    )?;
    write_address(out, row.machine)?;
    writeln!(out)?;
    Ok(())
}

fn phase_name(phase: Phase) -> &'static str {
    match phase {
        Phase::BeingLeased => "being leased",
        Phase::Leased => "leased",
        Phase::Freeing => "freeing",
    }
}

fn write_row(out: &mut String, row: &Row) -> Result<(), NoMemory> {
    writeln!(
        out,
        "row {} {} {}",
        row.n,
        row.range.start,
        phase_name(row.phase)
    )?;
    Ok(())
}

fn write_all_held(alloc: Global, out: &mut String, world: &World<Role>) -> Result<(), NoMemory>
    requires { IsSound ⟦<Role as Core>⟧.may_open world.now }
{
    let list = held(alloc, world)?;
    for h in list.as_slice() {
        write_held(out, h)?;
    }
    Ok(())
}

fn write_connections(alloc: Global, out: &mut String, world: &World<Role>) -> Result<(), NoMemory>
    requires { IsSound ⟦<Role as Core>⟧.may_open world.now }
{
    let list = live(alloc, world)?;
    for c in list.as_slice() {
        write_connection(out, c)?;
    }
    Ok(())
}

fn write_entries(alloc: Global, out: &mut String, world: &World<Role>) -> Result<(), NoMemory>
    requires { IsSound ⟦<Role as Core>⟧.may_open world.now }
{
    let list = entries(alloc, world)?;
    for row in list.as_slice() {
        write_entry(out, row)?;
    }
    Ok(())
}

fn write_book(alloc: Global, out: &mut String, world: &World<Role>) -> Result<(), NoMemory>
    requires { IsSound ⟦<Role as Core>⟧.may_open world.now }
{
    let list = book(alloc, world)?;
    for row in list.as_slice() {
        write_row(out, row)?;
    }
    Ok(())
}

/// Each view of the world, line by line.
fn write_views(alloc: Global, out: &mut String, world: &World<Role>) -> Result<(), NoMemory>
    requires { IsSound ⟦<Role as Core>⟧.may_open world.now }
{
    write_all_held(alloc, out, world)?;
    write_connections(alloc, out, world)?;
    write_entries(alloc, out, world)?;
    write_book(alloc, out, world)
}

// ---- worlds

fn small(alloc: Global) -> Result<Config, AllocError> {
    match Config::read(alloc, SMALL.as_bytes()) {
        Ok(cfg) => Ok(cfg),
        Err(_) => Err(AllocError),
    }
}

fn read(alloc: Global, cfg: &Config, lines: &str) -> Result<EventList, AllocError> {
    if lines.len() > 10_000 {
        return Err(AllocError);
    }
    match read_schedule(alloc, lines.as_bytes(), cfg) {
        Ok(events) => Ok(events),
        Err(_) => Err(AllocError),
    }
}

fn play(world: &mut World<Role>, events: &[Event]) -> Result<(), AllocError>
    requires { IsSound ⟦<Role as Core>⟧.may_open world.old }
    ensures { OnOk result (IsSound ⟦<Role as Core>⟧.may_open world.new) }
{
    for event in events {
        if world.apply(event).is_err() {
            return Err(AllocError);
        }
    }
    Ok(())
}

fn play_and_write(
    alloc: Global,
    world: &mut World<Role>,
    events: &[Event],
    out: &mut String,
) -> Result<(), AllocError>
    requires { IsSound ⟦<Role as Core>⟧.may_open world.old }
{
    play(world, events)?;
    write_views(alloc, out, world)
}

fn play_on(
    alloc: Global,
    cfg: Config,
    events: &[Event],
    out: &mut String,
) -> Result<(), AllocError> {
    match World::new(alloc, cfg) {
        Ok(world) => {
            let mut world = world;
            play_and_write(alloc, &mut world, events, out)
        }
        Err(_) => Err(AllocError),
    }
}

fn run(alloc: Global, lines: &str, out: &mut String) -> Result<(), AllocError> {
    let cfg = small(alloc)?;
    let events = read(alloc, &cfg, lines)?;
    play_on(alloc, cfg, events.as_slice(), out)
}

/// The views of the world that these lines lead to.
fn seen(alloc: Global, lines: &str) -> Result<String, AllocError> {
    let mut out = String::new(alloc);
    run(alloc, lines, &mut out)?;
    Ok(out)
}

/// The same, after the machine asked.
fn seen_after(alloc: Global, lines: &str) -> Result<String, AllocError> {
    let mut all = String::from_str(alloc, ASKED)?;
    all.push_str(lines)?;
    seen(alloc, all.as_str())
}

#[test]
fn at_first_nothing_is_seen(rt: HostRuntime) -> Result<(), Fail> {
    let out = seen(rt.alloc(), "")?;
    assert_eq!(rt; out.as_str(), "");
    Ok(())
}

#[test]
fn a_lease_is_seen_everywhere(rt: HostRuntime) -> Result<(), Fail> {
    let out = seen_after(rt.alloc(), "settle 32\n")?;
    assert_eq!(rt;
        out.as_str(),
        "held 1024 1 10.1.0.4\n\
        live udp 1024 198.51.100.7 53 5000 n 1 last 0 no peer\n\
        entry 0 1 1024 1 10.1.0.4\n\
        row 1 1024 leased\n"
    );
    Ok(())
}

#[test]
fn an_agent_that_is_down_holds_nothing(rt: HostRuntime) -> Result<(), Fail> {
    let out = seen_after(rt.alloc(), "settle 32\ncrash agent 0\n")?;
    assert_eq!(rt;
        out.as_str(),
        "entry 0 1 1024 1 10.1.0.4\nrow 1 1024 leased\n"
    );
    Ok(())
}

#[test]
fn a_mux_that_is_down_has_no_rows(rt: HostRuntime) -> Result<(), Fail> {
    let out = seen_after(rt.alloc(), "settle 32\ncrash mux 0\n")?;
    assert_eq!(rt;
        out.as_str(),
        "held 1024 1 10.1.0.4\n\
        live udp 1024 198.51.100.7 53 5000 n 1 last 0 no peer\n\
        row 1 1024 leased\n"
    );
    Ok(())
}

#[test]
fn the_longest_log_alone_has_the_grant(rt: HostRuntime) -> Result<(), Fail> {
    let out = seen_after(rt.alloc(), "settle 25\n")?;
    assert_eq!(rt;
        out.as_str(),
        "entry 0 1 1024 1 10.1.0.4\nrow 1 1024 leased\n"
    );
    Ok(())
}

#[test]
fn the_book_outlives_its_replica(rt: HostRuntime) -> Result<(), Fail> {
    let out = seen_after(rt.alloc(), "settle 25\ncrash replica 0\n")?;
    assert_eq!(rt;
        out.as_str(),
        "entry 0 1 1024 1 10.1.0.4\nrow 1 1024 leased\n"
    );
    Ok(())
}
