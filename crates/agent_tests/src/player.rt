//! How a list of steps is played.
use crate::agents::open;
use crate::lines::{write_connection, write_held, write_step};
use hex::decode;
use host_agent::Agent;
use std::alloc::Global;
use std::test::Fail;
use wire_core::{Input, Socket};

/// What a test gives to an agent, or asks of it.
#[derive(Clone, Copy)]
pub enum Play<'a> {
    Tick(u64),
    /// A datagram from this socket, in hexadecimal digits.
    Hear(Socket, &'a str),
    /// The same in bytes.
    HearBytes(Socket, &'a [u8]),
    /// The i-th held range.
    Held(usize),
    /// The i-th connection.
    Connection(usize),
    /// This was written since the last such step, and nothing else.
    Told(&'a str),
}

/// Writes what the agent makes of an input.
fn take(alloc: Global, agent: &mut Agent, out: &mut String, input: &Input<'_>) -> Result<(), Fail> {
    let step = agent.handle(alloc, input)?;
    write_step(alloc, out, &step)
}

fn hear_bytes(
    alloc: Global,
    agent: &mut Agent,
    out: &mut String,
    from: Socket,
    bytes: &[u8],
) -> Result<(), Fail> {
    take(alloc, agent, out, &Input::Datagram { from, bytes })
}

fn hear(
    alloc: Global,
    agent: &mut Agent,
    out: &mut String,
    from: Socket,
    text: &str,
) -> Result<(), Fail> {
    match decode(alloc, text) {
        Ok(bytes) => hear_bytes(alloc, agent, out, from, &bytes),
        Err(_) => Err(Fail::new("no hexadecimal digits")),
    }
}

/// Whether this was written, and nothing else. What was written is the failure's text.
fn told(alloc: Global, out: &mut String, wanted: &str) -> Result<(), Fail> {
    if out.as_str() != wanted {
        return Err(Fail::new(out.as_str()));
    }
    *out = String::new(alloc);
    Ok(())
}

fn play_one(
    alloc: Global,
    agent: &mut Agent,
    out: &mut String,
    next: Play<'_>,
) -> Result<(), Fail> {
    match next {
        Play::Tick(now) => take(alloc, agent, out, &Input::Tick { now }),
        Play::Hear(from, text) => hear(alloc, agent, out, from, text),
        Play::HearBytes(from, bytes) => hear_bytes(alloc, agent, out, from, bytes),
        Play::Held(i) => write_held(agent, out, i),
        Play::Connection(i) => write_connection(agent, out, i),
        Play::Told(wanted) => told(alloc, out, wanted),
    }
}

/// Plays the steps one after the other.
pub fn play_all(
    alloc: Global,
    agent: &mut Agent,
    out: &mut String,
    plays: &[Play<'_>],
) -> Result<(), Fail> {
    for next in plays {
        play_one(alloc, agent, out, *next)?;
    }
    Ok(())
}

fn play_with(alloc: Global, agent: &mut Agent, plays: &[Play<'_>]) -> Result<(), Fail> {
    let mut out = String::new(alloc);
    play_all(alloc, agent, &mut out, plays)
}

/// Plays a run of agent 0 of the configuration from where it opens from these entries.
pub fn play_run(
    alloc: Global,
    config: &str,
    entries: &[[u8; 13]],
    plays: &[Play<'_>],
) -> Result<(), Fail> {
    let mut agent = open(alloc, config, entries)?;
    play_with(alloc, &mut agent, plays)
}
