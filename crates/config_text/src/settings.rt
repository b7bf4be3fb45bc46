ghost use Rattle.std.specs.Prelude.{IfOk, Some};
ghost use Rattle.serde_json.specs.View.{view};
ghost use Rattle.config_text.specs.Bounds.{IsBounded};
ghost use Rattle.config_text.specs.Faults.{Gives, GivesSeen};
ghost use Rattle.config_text.specs.Form.{json_of, or_json, settings_of, timers_at, timers_of, whole_of};
ghost use Rattle.config_text.specs.Members.{at};
ghost use Rattle.config_text.specs.Sizes.{IsSized};

use crate::agents::AgentList;
use crate::fault::ConfigFault;
use crate::place::{Path, Place};
use crate::vips::VipTextList;
use serde_json::Value;
use std::alloc::Global;
use wire_core::{Items, Socket};

pub type SocketList = Items<Socket>;

/// The longest span of a timer: a day in milliseconds.
const MAX_SPAN: u64 = 86_400_000;

/// Five spans of time in milliseconds, each from 1 to 86,400,000.
#[derive(Clone, Copy, Debug, PartialEq, Eq)]
pub struct Timers {
    pub lead_silent: u64,
    pub mux_silent: u64,
    pub ask_retry: u64,
    pub flow_idle: u64,
    pub range_idle: u64,
}

/// A configuration as it is written, each value of its form and each list of its length.
#[derive(Debug, Drop)]
pub struct Settings {
    /// 1.
    pub version: u8,
    /// Where all packets go that leave for outside.
    pub router: Socket,
    /// Exactly 5.
    pub replicas: SocketList,
    /// 1 to 16.
    pub muxes: SocketList,
    /// 1 to 256.
    pub agents: AgentList,
    /// 1 to 64.
    pub vips: VipTextList,
    /// The most rows of a machine, 1 to 1,024.
    pub limit: u32,
    pub timers: Timers,
}

/// The timers that the value at this path is.
#[tactic(auto, unfolding(crate::specs::Form::timers_of))]
fn read_timers(alloc: Global, path: &str, value: &Value) -> Result<Timers, ConfigFault>
    ensures { Gives result (timers_of (record { path = Some path.now; value = view value.now })) }
{
    let place = Place {
        alloc,
        path: Path::Named(path),
        value,
    };
    place.is_object()?;
    let lead_silent = place.number("lead_silent", 1, MAX_SPAN)?;
    let mux_silent = place.number("mux_silent", 1, MAX_SPAN)?;
    let ask_retry = place.number("ask_retry", 1, MAX_SPAN)?;
    let flow_idle = place.number("flow_idle", 1, MAX_SPAN)?;
    let range_idle = place.number("range_idle", 1, MAX_SPAN)?;
    place.nothing_but(&[
        "lead_silent",
        "mux_silent",
        "ask_retry",
        "flow_idle",
        "range_idle",
    ])?;
    Ok(Timers {
        lead_silent,
        mux_silent,
        ask_retry,
        flow_idle,
        range_idle,
    })
}

/// The timers at a key.
fn timers_at(place: &Place<'_>, key: &str) -> Result<Timers, ConfigFault>
    ensures { Gives result (timers_at (at place.now) key.now) }
{
    let value = place.found_at(key, place.value.get(key))?;
    let path = place.key_path(key)?;
    read_timers(place.alloc, &path, value)
}

/// The settings that the whole text is.
#[tactic(auto, unfolding(crate::specs::Form::whole_of))]
fn read_whole(place: &Place<'_>) -> Result<Settings, ConfigFault>
    ensures { Gives result (whole_of (at place.now)) }
{
    let version = place.number("version", 1, 1)? as u8;
    let router = place.socket("router")?;
    let replicas = place.list("replicas", 5, 5)?;
    let muxes = place.list("muxes", 1, 16)?;
    let agents = place.list("agents", 1, 256)?;
    let vips = place.list("vips", 1, 64)?;
    let limit = place.number("limit", 1, 1024)? as u32;
    let timers = timers_at(place, "timers")?;
    place.nothing_but(&[
        "version", "router", "replicas", "muxes", "agents", "vips", "limit", "timers",
    ])?;
    Ok(Settings {
        version,
        router,
        replicas,
        muxes,
        agents,
        vips,
        limit,
        timers,
    })
}

/// The JSON value that the bytes are.
fn read_json(alloc: Global, bytes: &[u8]) -> Result<Value, ConfigFault>
    ensures { GivesSeen view result (or_json (json_of bytes.now)) }
{
    match Value::from_slice(alloc, bytes) {
        Ok(value) => Ok(value),
        Err(fault) => {
            if fault.is_memory() {
                Err(ConfigFault::NoMemory)
            } else {
                Err(ConfigFault::Json)
            }
        }
    }
}

/// The settings that the bytes are.
#[tactic(auto, unfolding(crate::specs::Form::settings_of))]
fn read_text(alloc: Global, bytes: &[u8]) -> Result<Settings, ConfigFault>
    ensures { Gives result (settings_of bytes.now) }
{
    let value = read_json(alloc, bytes)?;
    read_whole(&Place {
        alloc,
        path: Path::Whole,
        value: &value,
    })
}

impl Settings {
    /// Reads a configuration. `Json` comes exactly where the bytes are no JSON, and `Field` exactly at the first fault:
    /// the keys of each object in their order, depth first, a list's length before its members, and then the least key
    /// in byte order that the object may not have. What is read has lists of their lengths, and version, ports, limit
    /// and timers within their bounds. The cost is linear in the text.
    pub fn read(alloc: Global, bytes: &[u8]) -> Result<Settings, ConfigFault>
        ensures exact { Gives result (settings_of bytes.now) }
        ensures sized { IfOk result IsSized }
        ensures bounded { IfOk result IsBounded }
    {
        read_text(alloc, bytes)
    }
}
