//! How an agent opens.
use host_agent::Agent;
use std::alloc::{AllocError, Global};
use vip_config::Config;
use wire_core::{BodyList, EntryBytes, Ip4, NoMemory, Socket};

/// Boot 1 and boot 2 of agent 0, as entries.
pub const BOOT_1: [u8; 13] = [1, 1, 3, 0, 0, 0, 0, 0, 0, 0, 0, 0, 1];

pub const BOOT_2: [u8; 13] = [1, 1, 3, 0, 0, 0, 0, 0, 0, 0, 0, 0, 2];

fn bodies_of(alloc: Global, entries: &[[u8; 13]]) -> Result<BodyList, NoMemory> {
    let mut bodies = BodyList::new(alloc);
    for entry in entries {
        bodies.push(EntryBytes::from_vec(entry.to_vec(alloc)?))?;
    }
    Ok(bodies)
}

fn recover(alloc: Global, config: &Config, entries: &[[u8; 13]]) -> Result<Agent, NoMemory> {
    let bodies = bodies_of(alloc, entries)?;
    Agent::recover(alloc, config, 0, &bodies)
}

/// Agent 0 of the configuration, as it opens from these entries.
pub fn open(alloc: Global, config: &str, entries: &[[u8; 13]]) -> Result<Agent, NoMemory> {
    match Config::read(alloc, config.as_bytes()) {
        Ok(config) => recover(alloc, &config, entries),
        Err(_) => Err(AllocError),
    }
}

/// A socket with the port of all nodes.
fn at(ip: u32) -> Socket {
    let ip = Ip4(ip);
    Socket { ip, port: 7000 }
}

pub fn replica() -> Socket {
    at(0x0a00_0001)
}

pub fn mux() -> Socket {
    at(0x0a09_0001)
}

pub fn agent() -> Socket {
    at(0x0a08_0001)
}

/// Where the machine's packets come from.
pub fn attach() -> Socket {
    Socket {
        ip: Ip4(0x0a01_0004),
        port: 9000,
    }
}
