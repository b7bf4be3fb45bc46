//! What the documents tell of a mux, in their bytes.
use crate::Mux;
use hex::{decode, encode};
use ipip::Buf;
use mux_spec::Verdict;
use packet_spec::cause_name;
use std::alloc::Global;
use std::test::Fail;
use vip_config::Config;
use wire_core::{BodyList, DropCause, Input, Ip4, Items, Note, Range, Socket, Step};

/// The run's configuration: one mux, one agent with one machine, one VIP.
const RUN: &str = "\
    {\"version\":1,\"router\":\"10.7.0.1:7000\",\"replicas\":[\"10.0.0.1:7000\",\"10.0.0.2:7000\",\"\
    10.0.0.3:7000\",\"10.0.0.4:7000\",\"10.0.0.5:7000\"],\"muxes\":[\"10.9.0.1:7000\"],\"agents\":[{\
    \"socket\":\"10.8.0.1:7000\",\"machines\":[{\"address\":\"10.1.0.4\",\"attach\":\"10.1.0.4:9000\
    \"}]}],\"vips\":[{\"address\":\"192.0.2.10\",\"low\":1024,\"high\":65535,\"snat\":[\"10.1.0.4\"]\
    ,\"endpoints\":[]}],\"limit\":16,\"timers\":{\"lead_silent\":1000,\"mux_silent\":5000,\"ask_retr\
    y\":500,\"flow_idle\":60000,\"range_idle\":30000}}";

/// Two muxes, two agents with a machine each, and tcp 80 of the VIP, which both machines serve.
const SERVING: &str = "\
    {\"version\":1,\"router\":\"10.7.0.1:7000\",\"replicas\":[\"10.0.0.1:7000\",\"10.0.0.2:7000\",\"\
    10.0.0.3:7000\",\"10.0.0.4:7000\",\"10.0.0.5:7000\"],\"muxes\":[\"10.9.0.1:7000\",\"10.9.0.2:700\
    0\"],\"agents\":[{\"socket\":\"10.8.0.1:7000\",\"machines\":[{\"address\":\"10.1.0.4\",\"attach\
    \":\"10.1.0.4:9000\"}]},{\"socket\":\"10.8.0.2:7000\",\"machines\":[{\"address\":\"10.1.0.5\",\"\
    attach\":\"10.1.0.5:9000\"}]}],\"vips\":[{\"address\":\"192.0.2.10\",\"low\":1024,\"high\":1087,\
    \"snat\":[\"10.1.0.4\",\"10.1.0.5\"],\"endpoints\":[{\"proto\":\"tcp\",\"port\":80,\"machines\":\
    [{\"address\":\"10.1.0.4\",\"port\":8080},{\"address\":\"10.1.0.5\",\"port\":8080}]}]}],\"limit\
    \":16,\"timers\":{\"lead_silent\":1000,\"mux_silent\":5000,\"ask_retry\":500,\"flow_idle\":60000\
    ,\"range_idle\":30000}}";

/// Lease 1, 192.0.2.10:1024, for 10.1.0.4, at epoch 5 for boot 1.
const PROGRAM: &str = "010110000000000000000500000000000000010000000000000001c000020a04000a010004";

/// Lease 1 at epoch 8 for boot 1.
const PROGRAM_8: &str =
    "010110000000000000000800000000000000010000000000000001c000020a04000a010004";

/// Lease 1 for 10.1.0.5.
const PROGRAM_OTHER: &str =
    "010110000000000000000500000000000000010000000000000001c000020a04000a010005";

/// Lease 17 for 10.1.0.5.
const PROGRAM_17: &str =
    "010110000000000000000500000000000000010000000000000011c000020a04000a010005";

/// Lease 1 goes to no machine.
const UNPROGRAM: &str = "010112000000000000000500000000000000010000000000000001c000020a0400";

/// Lease 17 goes to no machine.
const UNPROGRAM_17: &str = "010112000000000000000500000000000000010000000000000011c000020a0400";

/// Another mux asks for a redirect.
const REDIRECT_ASKED: &str = "010116c000020a0400c000021400500a010005";

/// A reply to 192.0.2.10:1024, as it comes from outside.
const REPLY_IN: &str = "024500001e0002000038119688c6336407c000020a00350400000a9ff46f6b";

/// A reply to another address.
const REPLY_NO_VIP: &str = "024500001e0000000040118e89c6336407c000020b00350400000a9ff36f6b";

/// A reply to port 80 by UDP.
const REPLY_NO_ENDPOINT: &str = "024500001e0000000040118e8ac6336407c000020a00350050000aa3a46f6b";

/// A reply with a wrong checksum.
const REPLY_BAD_SUM: &str = "024500001e0002000038119688c6336407c000020a00350400000a9ff56f6b";

/// A client opens from port 5000, whose hash is even.
const SYN_EVEN: &str =
    "02450000280000000040068e8bc6336407c000020a138800500000000100000000500220008fc40000";

/// A client opens from port 5001, whose hash is odd.
const SYN_ODD: &str =
    "02450000280000000040068e8bc6336407c000020a138900500000000100000000500220008fc30000";

/// The opening packet with its last hop.
const SYN_LAST_HOP: &str =
    "0245000028000000000106cd8bc6336407c000020a138800500000000100000000500220008fc40000";

/// A later segment from port 5000.
const SEGMENT_EVEN: &str =
    "02450000280000000040068e8bc6336407c000020a138800500000000200000009501020008fac0000";

/// Boot 1 and boot 2 of mux 0, and epoch 7, as entries.
const BOOT_1: &str = "01010200000000000000000001";

const BOOT_2: &str = "01010200000000000000000002";

const EPOCH_7: &str = "050000000000000007";

/// What the run writes.
const RUN_LINES: &str = "\
    replica 0 01010f00000000000000010000000000000000\n\
    replica 1 01010f00000000000000010000000000000000\n\
    replica 2 01010f00000000000000010000000000000000\n\
    replica 3 01010f00000000000000010000000000000000\n\
    replica 4 01010f00000000000000010000000000000000\n\
    entry 050000000000000005\n\
    replica 0 010111000000000000000500000000000000010000000000000001\n\
    agent 0 024500003200004000400426ba0a0900010a0100044500001e0002000037119788c6336407c000020a0035040000\
    0a9ff46f6b\n\
    row 1024 1 167837700\n\
    row 1032 none\n";

/// What the older epoch comes to, and the earlier boot with a reply behind it.
const OLD_EPOCH: &str = "\
    drop OldEpoch 7\n\
    replica 0 010114000000000000000500000000000000010000000000000007\n\
    boot 1\n";

const OLD_BOOT: &str = "\
    drop WrongBoot 2\n\
    replica 0 010114000000000000000800000000000000020000000000000007\n\
    drop NoLease\n\
    boot 2\n";

/// What the rows write.
const ROW_LINES: &str = "\
    entry 050000000000000005\n\
    replica 0 010111000000000000000500000000000000010000000000000001\n\
    replica 0 010111000000000000000500000000000000010000000000000001\n\
    agent 0 024500003200004000400426ba0a0900010a0100044500001e0002000037119788c6336407c000020a0035040000\
    0a9ff46f6b\n\
    replica 0 010111000000000000000500000000000000010000000000000011\n\
    drop OldNumber 17\n\
    agent 1 024500003200004000400426b90a0900010a0100054500001e0002000037119788c6336407c000020a0035040000\
    0a9ff46f6b\n\
    replica 0 010113000000000000000500000000000000010000000000000001\n\
    row 1024 17 167837701\n\
    drop WrongRole\n\
    drop WrongRole\n\
    drop NotNode\n\
    drop BadFrame\n\
    drop BadMessage\n\
    replica 0 010113000000000000000500000000000000010000000000000011\n\
    row 1024 none\n\
    drop NoLease\n\
    drop OldNumber 17\n";

/// What the two flows and the dropped packets write.
const FLOW_LINES: &str = "\
    agent 0\n\
    holds 4500003c00004000400426b00a0900010a01000445000028000000003f068f8bc6336407c000020a13880050000000\
    0100000000500220008fc40000\n\
    agent 1\n\
    holds 4500003c00004000400426af0a0900010a01000545000028000000003f068f8bc6336407c000020a13890050000000\
    0100000000500220008fc30000\n\
    agent 0\n\
    holds 4500003c00004000400426b00a0900010a01000445000028000000003f068f8bc6336407c000020a13880050000000\
    0200000009501020008fac0000\n\
    drop TtlOut\n\
    holds 4500003c00004000400426b00a0900010a01000445000028000000003f068f8bc6336407c000020a13880050000000\
    0200000009501020008fac0000\n\
    drop NotVip\n\
    holds 4500003c00004000400426b00a0900010a01000445000028000000003f068f8bc6336407c000020a13880050000000\
    0200000009501020008fac0000\n\
    drop NoEndpoint\n\
    holds 4500003c00004000400426b00a0900010a01000445000028000000003f068f8bc6336407c000020a13880050000000\
    0200000009501020008fac0000\n\
    drop BadSum\n\
    holds 4500003c00004000400426b00a0900010a01000445000028000000003f068f8bc6336407c000020a13880050000000\
    0200000009501020008fac0000\n\
    drop NoLease\n\
    holds 4500003c00004000400426b00a0900010a01000445000028000000003f068f8bc6336407c000020a13880050000000\
    0200000009501020008fac0000\n";

/// A socket with the port of all nodes.
fn at(ip: u32) -> Socket {
    Socket {
        ip: Ip4(ip),
        port: 7000,
    }
}

fn replica(i: u32) -> Socket {
    at(0x0a00_0001u32.wrapping_add(i))
}

fn router() -> Socket {
    at(0x0a07_0001)
}

fn other_mux() -> Socket {
    at(0x0a09_0002)
}

/// What a test gives to a mux, or asks of it.
#[derive(Clone, Copy)]
enum Act<'a> {
    Tick(u64),
    /// A datagram from this socket, in hexadecimal digits.
    Hear(Socket, &'a str),
    /// A packet of the router for [`Mux::packet`], in its frame.
    Pass(&'a str),
    /// The row of the VIP's range with this start.
    Row(u16),
    Boot,
}

/// A mux as it opens, and what is done with it.
#[derive(Clone, Copy)]
struct Story<'a> {
    config: &'a str,
    entries: &'a [&'a str],
    acts: &'a [Act<'a>],
}

fn bytes_of(alloc: Global, text: &str) -> Result<Vec<u8>, Fail> {
    match decode(alloc, text) {
        Ok(bytes) => Ok(bytes),
        Err(_) => Err(Fail::from("no hexadecimal digits")),
    }
}

fn config_of(alloc: Global, text: &str) -> Result<Config, Fail> {
    match Config::read(alloc, text.as_bytes()) {
        Ok(config) => Ok(config),
        Err(_) => Err(Fail::from("no configuration")),
    }
}

fn push_entries(alloc: Global, bodies: &mut BodyList, entries: &[&str]) -> Result<(), Fail> {
    for entry in entries {
        bodies.push(Items::from_vec(bytes_of(alloc, entry)?))?;
    }
    Ok(())
}

fn bodies_of(alloc: Global, entries: &[&str]) -> Result<BodyList, Fail> {
    let mut bodies: BodyList = Items::new(alloc);
    push_entries(alloc, &mut bodies, entries)?;
    Ok(bodies)
}

fn recover(alloc: Global, config: &Config, entries: &[&str]) -> Result<Mux, Fail> {
    let bodies = bodies_of(alloc, entries)?;
    Ok(Mux::recover(alloc, config, 0, &bodies)?)
}

/// Mux 0 of the configuration, as it opens from these entries.
fn open(alloc: Global, story: Story<'_>) -> Result<Mux, Fail> {
    let config = config_of(alloc, story.config)?;
    recover(alloc, &config, story.entries)
}

/// One line: what it is of, and bytes.
fn write_bytes(alloc: Global, out: &mut String, name: &str, bytes: &[u8]) -> Result<(), Fail> {
    let text = encode(alloc, bytes)?;
    writeln!(out, "{name} {text}")?;
    Ok(())
}

/// One line: the cause, and the number that it carries.
fn write_drop(out: &mut String, cause: DropCause) -> Result<(), Fail> {
    let name = cause_name(cause);
    match cause {
        DropCause::WrongBoot(n) | DropCause::OldEpoch(n) | DropCause::OldNumber(n) => {
            writeln!(out, "drop {name} {n}")?;
        }
        _ => writeln!(out, "drop {name}")?,
    }
    Ok(())
}

/// Whose socket it is.
fn name_of(to: Socket) -> &'static str {
    match to.ip.0 {
        0x0a00_0001 => "replica 0",
        0x0a00_0002 => "replica 1",
        0x0a00_0003 => "replica 2",
        0x0a00_0004 => "replica 3",
        0x0a00_0005 => "replica 4",
        0x0a08_0001 => "agent 0",
        0x0a08_0002 => "agent 1",
        _ => "another",
    }
}

/// The entry, the drops and the datagrams, each on a line.
fn write_step(alloc: Global, out: &mut String, step: &Step) -> Result<(), Fail> {
    if let Some(entry) = &step.entry {
        write_bytes(alloc, out, "entry", entry.as_slice())?;
    }
    for note in step.notes.as_slice() {
        if let Note::Dropped { cause } = *note {
            write_drop(out, cause)?;
        }
    }
    for send in step.sends.as_slice() {
        write_bytes(alloc, out, name_of(send.to), send.bytes.as_slice())?;
    }
    Ok(())
}

/// Writes what the mux makes of an input.
fn take(alloc: Global, mux: &mut Mux, out: &mut String, input: &Input<'_>) -> Result<(), Fail> {
    let step = mux.handle(alloc, input)?;
    write_step(alloc, out, &step)
}

fn hear(
    alloc: Global,
    mux: &mut Mux,
    out: &mut String,
    from: Socket,
    text: &str,
) -> Result<(), Fail> {
    let vec = bytes_of(alloc, text)?;
    let bytes = vec.as_slice();
    take(alloc, mux, out, &Input::Datagram { from, bytes })
}

/// What [`Mux::packet`] answers to a packet of the router in this frame.
fn answer(mux: &mut Mux, frame: &[u8], buffer: &mut Buf) -> Result<Verdict, Fail> {
    let Some((_, packet)) = frame.split_first() else {
        return Err(Fail::from("no frame"));
    };
    Ok(mux.packet(&router(), packet, buffer)?)
}

fn answer_text(
    alloc: Global,
    mux: &mut Mux,
    text: &str,
    buffer: &mut Buf,
) -> Result<Verdict, Fail> {
    let frame = bytes_of(alloc, text)?;
    answer(mux, frame.as_slice(), buffer)
}

fn write_verdict(out: &mut String, verdict: Verdict) -> Result<(), Fail> {
    match verdict {
        Verdict::Forward { agent, .. } => writeln!(out, "agent {agent}")?,
        Verdict::Drop(cause) => write_drop(out, cause)?,
    }
    Ok(())
}

/// Writes the answer, and what the buffer holds then.
fn pass(
    alloc: Global,
    mux: &mut Mux,
    out: &mut String,
    buffer: &mut Buf,
    text: &str,
) -> Result<(), Fail> {
    let verdict = answer_text(alloc, mux, text, buffer)?;
    write_verdict(out, verdict)?;
    write_bytes(alloc, out, "holds", buffer.bytes())
}

fn write_row(mux: &Mux, out: &mut String, start: u16) -> Result<(), Fail> {
    let vip = Ip4(0xc000_020a);
    match mux.snat(&Range { vip, start }) {
        Some((n, machine)) => writeln!(out, "row {start} {n} {}", machine.0)?,
        None => writeln!(out, "row {start} none")?,
    }
    Ok(())
}

fn write_boot(mux: &Mux, out: &mut String) -> Result<(), Fail> {
    writeln!(out, "boot {}", mux.boot())?;
    Ok(())
}

fn play(
    alloc: Global,
    mux: &mut Mux,
    out: &mut String,
    buffer: &mut Buf,
    act: Act<'_>,
) -> Result<(), Fail> {
    match act {
        Act::Tick(now) => take(alloc, mux, out, &Input::Tick { now }),
        Act::Hear(from, text) => hear(alloc, mux, out, from, text),
        Act::Pass(text) => pass(alloc, mux, out, buffer, text),
        Act::Row(start) => write_row(mux, out, start),
        Act::Boot => write_boot(mux, out),
    }
}

fn play_all(
    alloc: Global,
    mux: &mut Mux,
    out: &mut String,
    buffer: &mut Buf,
    acts: &[Act<'_>],
) -> Result<(), Fail> {
    for act in acts {
        play(alloc, mux, out, buffer, *act)?;
    }
    Ok(())
}

fn play_with(alloc: Global, mux: &mut Mux, out: &mut String, acts: &[Act<'_>]) -> Result<(), Fail> {
    let mut buffer = Buf::new(alloc)?;
    play_all(alloc, mux, out, &mut buffer, acts)
}

fn tell(alloc: Global, out: &mut String, story: Story<'_>) -> Result<(), Fail> {
    let mut mux = open(alloc, story)?;
    play_with(alloc, &mut mux, out, story.acts)
}

/// Whether this is all that the mux writes.
fn tells(alloc: Global, story: Story<'_>, wanted: &str) -> Result<bool, Fail> {
    let mut out = String::new(alloc);
    tell(alloc, &mut out, story)?;
    Ok(out.as_str() == wanted)
}

/// The run: a tick, a Program, a reply.
#[test]
fn the_run(rt: HostRuntime) -> Result<(), Fail> {
    let story = Story {
        config: RUN,
        entries: &[BOOT_1],
        acts: &[
            Act::Tick(1000),
            Act::Hear(replica(0), PROGRAM),
            Act::Hear(router(), REPLY_IN),
            Act::Row(1024),
            Act::Row(1032),
        ],
    };
    let held = tells(rt.alloc(), story, RUN_LINES)?;
    assert!(rt; held);
    Ok(())
}

#[test]
fn a_command_of_an_older_epoch_is_refused(rt: HostRuntime) -> Result<(), Fail> {
    let story = Story {
        config: RUN,
        entries: &[BOOT_1, EPOCH_7],
        acts: &[Act::Hear(replica(0), PROGRAM), Act::Boot],
    };
    let held = tells(rt.alloc(), story, OLD_EPOCH)?;
    assert!(rt; held);
    Ok(())
}

#[test]
fn a_command_for_another_boot_is_refused(rt: HostRuntime) -> Result<(), Fail> {
    let story = Story {
        config: RUN,
        entries: &[BOOT_1, EPOCH_7, BOOT_2],
        acts: &[
            Act::Hear(replica(0), PROGRAM_8),
            Act::Hear(router(), REPLY_IN),
            Act::Boot,
        ],
    };
    let held = tells(rt.alloc(), story, OLD_BOOT)?;
    assert!(rt; held);
    Ok(())
}

/// The same number with another machine, a greater one, a lesser one, none; who may not command; and a cleared row,
/// whose number stays.
#[test]
fn a_row_is_of_the_greatest_number(rt: HostRuntime) -> Result<(), Fail> {
    let story = Story {
        config: SERVING,
        entries: &[BOOT_1],
        acts: &[
            Act::Hear(replica(0), PROGRAM),
            Act::Hear(replica(0), PROGRAM_OTHER),
            Act::Hear(router(), REPLY_IN),
            Act::Hear(replica(0), PROGRAM_17),
            Act::Hear(replica(0), PROGRAM),
            Act::Hear(router(), REPLY_IN),
            Act::Hear(replica(0), UNPROGRAM),
            Act::Row(1024),
            Act::Hear(other_mux(), REDIRECT_ASKED),
            Act::Hear(other_mux(), PROGRAM),
            Act::Hear(router(), PROGRAM),
            Act::Hear(router(), "03"),
            Act::Hear(router(), "0101"),
            Act::Hear(replica(0), UNPROGRAM_17),
            Act::Row(1024),
            Act::Hear(router(), REPLY_IN),
            Act::Hear(replica(0), PROGRAM_17),
        ],
    };
    let held = tells(rt.alloc(), story, ROW_LINES)?;
    assert!(rt; held);
    Ok(())
}

/// Two flows to two machines; packets that are dropped leave the buffer.
#[test]
fn two_flows_to_two_machines(rt: HostRuntime) -> Result<(), Fail> {
    let story = Story {
        config: SERVING,
        entries: &[BOOT_1],
        acts: &[
            Act::Pass(SYN_EVEN),
            Act::Pass(SYN_ODD),
            Act::Pass(SEGMENT_EVEN),
            Act::Pass(SYN_LAST_HOP),
            Act::Pass(REPLY_NO_VIP),
            Act::Pass(REPLY_NO_ENDPOINT),
            Act::Pass(REPLY_BAD_SUM),
            Act::Pass(REPLY_IN),
        ],
    };
    let held = tells(rt.alloc(), story, FLOW_LINES)?;
    assert!(rt; held);
    Ok(())
}
