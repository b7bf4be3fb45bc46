ghost use Rattle.std.specs.Prelude.{◌≡◌, ◌<◌, ◌≤◌, ◌^◌, IfOk};
ghost use Rattle.generated_schedule.specs.Generated.{attach_of, event_at, event_by, frame_of, header_of};
ghost use Rattle.generated_schedule.specs.Generated.{machine_of, node_of, remote_of, tick_node, udp_of};

use ip_codec::write_header;
use packet_spec::{Ip4Header, word_bytes};
use schedule_text::{Event, Single};
use std::alloc::Global;
use wire_core::{FrameBytes, Ip4, Items, NoMemory, NodeId, Socket};

/// Replicas 0 to 4, muxes 0 and 1, agents 0 and 1.
fn node_of(i: u32) -> NodeId
    requires { i < 9 }
    ensures { result ≡ node_of i }
{
    if i < 5 {
        NodeId::Replica(i as u8)
    } else if i < 7 {
        NodeId::Mux((i - 5) as u16)
    } else {
        NodeId::Agent((i - 7) as u16)
    }
}

/// The machine of an agent.
fn machine_of(agent: u32) -> Ip4
    requires { agent < 2 }
    ensures { result ≡ machine_of agent }
{
    Ip4(0x0a01_0004 + agent)
}

/// A remote end: 198.51.100.1 to 198.51.100.8.
fn remote_of(q: u32) -> Ip4
    ensures { result ≡ remote_of q }
{
    Ip4(0xc633_6401 + q / 64 % 8)
}

fn header_of(q: u32) -> Ip4Header
    ensures { result ≡ header_of q }
{
    Ip4Header {
        tos: 0,
        total: 30,
        id: 0,
        df: false,
        ttl: 64,
        proto: 17,
        src: machine_of(q % 2),
        dst: remote_of(q),
    }
}

fn udp_of(q: u32) -> [u8; 10]
    ensures { result ≡ udp_of q }
{
    let [high, low] = word_bytes((5000 + q % 64) as u16);
    [high, low, 0, 53, 0, 10, 0, 0, b'h', b'i']
}

/// The frame of a UDP packet of the machine.
#[tactic(auto, unfolding(crate::specs::Generated::frame_of))]
fn frame_of(alloc: Global, q: u32) -> Result<FrameBytes, NoMemory>
    ensures { IfOk result (λ frame. frame ≡ frame_of q) }
{
    let mut header = [0u8; 20];
    write_header(&header_of(q), &mut header);
    let udp = udp_of(q);
    let mut frame = Vec::with_capacity(alloc, 31)?;
    frame.push(2u8)?;
    frame.extend_from_slice(&header)?;
    frame.extend_from_slice(&udp)?;
    Ok(Items::from_vec(frame))
}

fn attach_of(agent: u32) -> Socket
    requires { agent < 2 }
    ensures { result ≡ attach_of agent }
{
    Socket {
        ip: machine_of(agent),
        port: 9000,
    }
}

fn tick_node(c: u32, q: u32) -> NodeId
    ensures { result ≡ tick_node c q }
{
    if c == 10 {
        NodeId::Replica((q % 5) as u8)
    } else if c == 11 {
        NodeId::Mux((q % 2) as u16)
    } else {
        NodeId::Agent((q % 2) as u16)
    }
}

fn event_by(alloc: Global, time: u64, c: u32, q: u32) -> Result<Event, NoMemory>
    ensures { IfOk result (λ event. event ≡ event_by time c q) }
{
    let event = if c <= 6 {
        Event::Settle {
            n: (1 + q % 8) as u64,
        }
    } else if c <= 8 {
        Event::Single(Single::Inject {
            node: NodeId::Agent((q % 2) as u16),
            from: attach_of(q % 2),
            bytes: frame_of(alloc, q)?,
        })
    } else if c == 9 {
        Event::Single(Single::Deliver {
            k: (1 + q % 1000) as u64,
        })
    } else if c <= 12 {
        Event::Single(Single::Tick {
            node: tick_node(c, q),
            now: time,
        })
    } else if c == 13 {
        Event::Crash {
            node: node_of(q % 9),
        }
    } else {
        Event::Single(Single::Restart {
            node: node_of(q % 9),
        })
    };
    Ok(event)
}

/// The event of a word, at the time that it sets.
#[tactic(auto, unfolding(crate::specs::Generated::event_at))]
pub fn event_at(alloc: Global, time: u64, word: u32) -> Result<Event, NoMemory>
    ensures { IfOk result (λ event. event ≡ event_at time word) }
{
    event_by(alloc, time, word % 16, word / 16)
}
