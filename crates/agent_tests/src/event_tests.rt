//! A long run of packets, resets, Grants, denials, ticks and answered returns, against plain lists.
use crate::agents::{BOOT_1, open};
use crate::events::event;
use crate::plain::{PlainLists, nothing, nothing_kept, nth_held};
use host_agent::Agent;
use std::alloc::{AllocError, Global};
use std::test::Fail;

/// One agent with one machine; the VIP has two ranges, and what is idle leaves soon.
const CONFIG: &str = "\
    {\"version\":1,\"router\":\"10.7.0.1:7000\",\"replicas\":[\"10.0.0.1:7000\",\"10.0.0.2:7000\",\"10\
    .0.0.3:7000\",\"10.0.0.4:7000\",\"10.0.0.5:7000\"],\"muxes\":[\"10.9.0.1:7000\"],\"agents\":[{\"so\
    cket\":\"10.8.0.1:7000\",\"machines\":[{\"address\":\"10.1.0.4\",\"attach\":\"10.1.0.4:9000\"}]}],\
    \"vips\":[{\"address\":\"192.0.2.10\",\"low\":1024,\"high\":1039,\"snat\":[\"10.1.0.4\"],\"endpoin\
    ts\":[]}],\"limit\":16,\"timers\":{\"lead_silent\":1000,\"mux_silent\":5000,\"ask_retry\":50,\"flo\
    w_idle\":400,\"range_idle\":200}}";

const EVENTS: u32 = 100_000;

/// Whether the i-th range and the i-th connection are the same in both.
fn is_same(agent: &Agent, lists: &PlainLists, i: u32) -> bool {
    let held = nth_held(&lists.held, i).map(|h| (h.n, h.range, h.machine));
    agent.held(i as usize) == held
        && agent.connection(i as usize) == lists.conns.get(i as usize).copied()
}

/// The next word of a linear congruential generator (Numerical Recipes).
fn next_word(word: u32) -> u32 {
    word.wrapping_mul(1_664_525).wrapping_add(1_013_904_223)
}

/// Whether one event does and leaves the same in both.
fn agree(
    alloc: Global,
    agent: &mut Agent,
    lists: &mut PlainLists,
    word: u32,
    quiet: bool,
) -> Result<bool, AllocError> {
    let mut told = nothing();
    let came = event(alloc, agent, lists, &mut told, word, quiet)?;
    Ok(
        came == told
            && is_same(agent, lists, word / 64 % 8)
            && is_same(agent, lists, word / 64 % 64),
    )
}

/// So many events from this seed, of each 4,000 the last 1,000 quiet: how many differ.
fn count_differing(
    alloc: Global,
    agent: &mut Agent,
    lists: &mut PlainLists,
    seed: u32,
) -> Result<u64, AllocError> {
    let mut word = seed;
    let mut differing = 0u64;
    for i in 0..EVENTS {
        word = next_word(word);
        if !agree(alloc, agent, lists, word, i / 1000 % 4 == 3)? {
            differing = differing.saturating_add(1);
        }
    }
    Ok(differing)
}

fn play(alloc: Global, agent: &mut Agent, seed: u32) -> Result<u64, AllocError> {
    let mut lists = nothing_kept(alloc);
    count_differing(alloc, agent, &mut lists, seed)
}

fn differing(alloc: Global, seed: u32) -> Result<u64, AllocError> {
    let mut agent = open(alloc, CONFIG, &[BOOT_1])?;
    play(alloc, &mut agent, seed)
}

#[test]
fn as_plain_lists(rt: HostRuntime) -> Result<(), Fail> {
    assert_eq!(rt; differing(rt.alloc(), 7)?, 0);
    Ok(())
}
