//! What the documents tell of a host's agent, in their bytes.
use crate::agents::{BOOT_1, BOOT_2, agent, attach, mux, replica};
use crate::player::{Play, play_run};
use std::test::Fail;

/// The run's configuration: one mux, one agent with one machine, one VIP.
pub const RUN: &str = "\
    {\"version\":1,\"router\":\"10.7.0.1:7000\",\"replicas\":[\"10.0.0.1:7000\",\"10.0.0.2:7000\",\"10\
    .0.0.3:7000\",\"10.0.0.4:7000\",\"10.0.0.5:7000\"],\"muxes\":[\"10.9.0.1:7000\"],\"agents\":[{\"so\
    cket\":\"10.8.0.1:7000\",\"machines\":[{\"address\":\"10.1.0.4\",\"attach\":\"10.1.0.4:9000\"}]}],\
    \"vips\":[{\"address\":\"192.0.2.10\",\"low\":1024,\"high\":65535,\"snat\":[\"10.1.0.4\"],\"endpoi\
    nts\":[]}],\"limit\":16,\"timers\":{\"lead_silent\":1000,\"mux_silent\":5000,\"ask_retry\":500,\"f\
    low_idle\":60000,\"range_idle\":30000}}";

/// The same with tcp 80 of the VIP, which the machine serves at its port 8080.
const SERVING: &str = "\
    {\"version\":1,\"router\":\"10.7.0.1:7000\",\"replicas\":[\"10.0.0.1:7000\",\"10.0.0.2:7000\",\"10\
    .0.0.3:7000\",\"10.0.0.4:7000\",\"10.0.0.5:7000\"],\"muxes\":[\"10.9.0.1:7000\"],\"agents\":[{\"so\
    cket\":\"10.8.0.1:7000\",\"machines\":[{\"address\":\"10.1.0.4\",\"attach\":\"10.1.0.4:9000\"}]}],\
    \"vips\":[{\"address\":\"192.0.2.10\",\"low\":1024,\"high\":65535,\"snat\":[\"10.1.0.4\"],\"endpoi\
    nts\":[{\"proto\":\"tcp\",\"port\":80,\"machines\":[{\"address\":\"10.1.0.4\",\"port\":8080}]}]}],\
    \"limit\":16,\"timers\":{\"lead_silent\":1000,\"mux_silent\":5000,\"ask_retry\":500,\"flow_idle\":\
    60000,\"range_idle\":30000}}";

/// The machine's packet from port 5000 to 198.51.100.7, port 53.
const PACKET: &str = "024500001e000100004011468f0a010004c633640713880035000a4f746869";

/// The reply to it, wrapped by the mux.
const REPLY: &str =
    "024500003200004000400426ba0a0900010a0100044500001e0002000037119788c6336407c000020a00350400000a9ff46f6b";

/// The same to 198.51.100.8, and from port 5001.
const TO_OTHER: &str = "024500001e000100004011468e0a010004c633640813880035000a4f736869";

const FROM_OTHER: &str = "024500001e000100004011468f0a010004c633640713890035000a4f736869";

/// The packet with a wrong checksum.
const WRONG_SUM: &str = "024500001e000100004011468f0a010004c633640713880035000a4f756869";

/// A client opens to the VIP's port 80, wrapped by the mux; and the machine answers.
const SYN: &str = "\
    024500003c00004000400426b00a0900010a01000445000028000000003f068f8bc6336407c000020a1388005000000001\
    00000000500220008fc40000";

const ANSWER: &str =
    "024500002800000000400646910a010004c63364071f90138800000100000000025012200027790000";

/// The machine opens to port 80 of 198.51.100.7, and resets.
const OPENING: &str =
    "024500002800000000400646910a010004c63364071388005000000001000000005002200047ca0000";

const RESET: &str =
    "024500002800000000400646910a010004c63364071388005000000002000000005004200047c70000";

/// The machine opens from the port at which it serves to the client's port.
const OWN_OPENING: &str =
    "024500002800000000400646910a010004c63364071f901388000000010000000050022000288a0000";

/// Lease 1, 192.0.2.10:1024, for the first ask; and lease 17, the range after it, for the second.
pub const GRANT: &str =
    "01010900000000000000010a01000400000000000000010000000000000001c000020a0400";

const GRANT_2: &str = "01010900000000000000010a01000400000000000000020000000000000011c000020a0408";

/// The ask is denied; the return of lease 1 is answered; the boot is known.
const DENIED: &str = "01010a00000000000000010a0100040000000000000001010000000000000021";

const RETURNED: &str = "01010c00000000000000010000000000000001";

const KNOWN: &str = "01010e0000000000000001";

/// What the run writes, a Grant that comes again, and what is held then.
const RUN_LINES: &str = "\
    queued 10.1.0.4 1\n\
    replica 0 01010800000000000000010a0100040000000000000001\n\
    act hold 1\n\
    act open udp 192.0.2.10 1024 198.51.100.7 53 10.1.0.4 5000\n\
    10.7.0.1:7000 024500001e0001000040118e89c000020ac633640704000035000aa6f66869\n\
    act hand 10.1.0.4 4500001e0002000037114f8ec63364070a01000400351388000a48726f6b\n\
    10.1.0.4:9000 024500001e0002000037114f8ec63364070a01000400351388000a48726f6b\n\
    drop OldGrant 1\n\
    held 1 1024 10.1.0.4\n\
    held none\n\
    connection udp 192.0.2.10 1024 198.51.100.7 53 10.1.0.4 5000\n\
    connection none\n";

/// What is idle leaves, and what isn't answered is said again.
const CLOCK_LINES: &str = "\
    queued 10.1.0.4 1\n\
    replica 0 01010800000000000000010a0100040000000000000001\n\
    act hold 1\n\
    act open udp 192.0.2.10 1024 198.51.100.7 53 10.1.0.4 5000\n\
    10.7.0.1:7000 024500001e0001000040118e89c000020ac633640704000035000aa6f66869\n\
    act close udp 192.0.2.10 1024 198.51.100.7 53 10.1.0.4 5000\n\
    replica 0 01010d0000000000000001\n\
    replica 1 01010d0000000000000001\n\
    replica 2 01010d0000000000000001\n\
    replica 3 01010d0000000000000001\n\
    replica 4 01010d0000000000000001\n\
    act drop 1\n\
    replica 0 01010d0000000000000001\n\
    replica 1 01010d0000000000000001\n\
    replica 2 01010d0000000000000001\n\
    replica 3 01010d0000000000000001\n\
    replica 4 01010d0000000000000001\n\
    replica 0 01010b00000000000000010000000000000001\n\
    replica 1 01010b00000000000000010000000000000001\n\
    replica 2 01010b00000000000000010000000000000001\n\
    replica 3 01010b00000000000000010000000000000001\n\
    replica 4 01010b00000000000000010000000000000001\n\
    replica 0 01010d0000000000000001\n\
    replica 1 01010d0000000000000001\n\
    replica 2 01010d0000000000000001\n\
    replica 3 01010d0000000000000001\n\
    replica 4 01010d0000000000000001\n\
    drop Late\n";

/// After a restart neither the Grant nor the reply is taken.
const BOOT_LINES: &str = "\
    drop WrongBoot 2\n\
    drop NoConnection\n";

/// A port for each remote end, the next one where it is taken; and the wrong checksum.
const PORT_LINES: &str = "\
    queued 10.1.0.4 1\n\
    replica 0 01010800000000000000010a0100040000000000000001\n\
    act hold 1\n\
    act open udp 192.0.2.10 1024 198.51.100.7 53 10.1.0.4 5000\n\
    10.7.0.1:7000 024500001e0001000040118e89c000020ac633640704000035000aa6f66869\n\
    act open udp 192.0.2.10 1024 198.51.100.8 53 10.1.0.4 5000\n\
    10.7.0.1:7000 024500001e0001000040118e88c000020ac633640804000035000aa6f56869\n\
    act open udp 192.0.2.10 1025 198.51.100.7 53 10.1.0.4 5001\n\
    10.7.0.1:7000 024500001e0001000040118e89c000020ac633640704010035000aa6f56869\n\
    drop BadSum\n";

/// A denied ask, a Grant that an agent may not send, the next ask with its Grant, and a reset that closes.
const RESET_LINES: &str = "\
    queued 10.1.0.4 1\n\
    replica 0 01010800000000000000010a0100040000000000000001\n\
    drop Denied\n\
    queued 10.1.0.4 1\n\
    replica 0 01010800000000000000010a0100040000000000000002\n\
    drop WrongRole\n\
    act hold 17\n\
    act open tcp 192.0.2.10 1032 198.51.100.7 80 10.1.0.4 5000\n\
    10.7.0.1:7000 02450000280000000040068e8bc000020ac6336407040800500000000100000000500220009f440000\n\
    act close tcp 192.0.2.10 1032 198.51.100.7 80 10.1.0.4 5000\n\
    10.7.0.1:7000 02450000280000000040068e8bc000020ac6336407040800500000000200000000500420009f410000\n\
    connection none\n";

/// The client's packet is handed to the port at which the machine serves, and the answer leaves from the endpoint.
const SERVED_LINES: &str = "\
    act hand 10.1.0.4 45000028000000003f064791c63364070a01000413881f90000000010000000050022000288a0000\
    \n\
    10.1.0.4:9000 0245000028000000003f064791c63364070a01000413881f90000000010000000050022000288a0000\n\
    10.7.0.1:7000 02450000280000000040068e8bc000020ac6336407005013880000010000000002501220008eb30000\n\
    connection none\n";

/// A connection of the machine's has the packets of the entry that would be made.
const USED_LINES: &str = "\
    queued 10.1.0.4 1\n\
    replica 0 01010800000000000000010a0100040000000000000001\n\
    act hold 1\n\
    act open tcp 192.0.2.10 1024 198.51.100.7 5000 10.1.0.4 8080\n\
    10.7.0.1:7000 02450000280000000040068e8bc000020ac6336407040013880000000100000000500220008c140000\n\
    drop KeyInUse\n";

/// The run: a packet that waits, its Grant, the reply.
#[test]
fn the_run(rt: HostRuntime) -> Result<(), Fail> {
    play_run(
        rt.alloc(),
        RUN,
        &[BOOT_1],
        &[
            Play::Hear(attach(), PACKET),
            Play::Hear(replica(), GRANT),
            Play::Hear(mux(), REPLY),
            Play::Hear(replica(), GRANT),
            Play::Held(0),
            Play::Held(1),
            Play::Connection(0),
            Play::Connection(1),
            Play::Told(RUN_LINES),
        ],
    )
}

#[test]
fn the_clock(rt: HostRuntime) -> Result<(), Fail> {
    play_run(
        rt.alloc(),
        RUN,
        &[BOOT_1],
        &[
            Play::Hear(attach(), PACKET),
            Play::Hear(replica(), GRANT),
            Play::Tick(70_000),
            Play::Tick(100_000),
            Play::Hear(replica(), RETURNED),
            Play::Tick(100_500),
            Play::Hear(replica(), KNOWN),
            Play::Hear(replica(), RETURNED),
            Play::Tick(101_000),
            Play::Told(CLOCK_LINES),
        ],
    )
}

#[test]
fn a_restarted_agent_takes_no_old_grant(rt: HostRuntime) -> Result<(), Fail> {
    play_run(
        rt.alloc(),
        RUN,
        &[BOOT_1, BOOT_2],
        &[
            Play::Hear(replica(), GRANT),
            Play::Hear(mux(), REPLY),
            Play::Told(BOOT_LINES),
        ],
    )
}

#[test]
fn a_port_serves_each_remote_end_once(rt: HostRuntime) -> Result<(), Fail> {
    play_run(
        rt.alloc(),
        RUN,
        &[BOOT_1],
        &[
            Play::Hear(attach(), PACKET),
            Play::Hear(replica(), GRANT),
            Play::Hear(attach(), TO_OTHER),
            Play::Hear(attach(), FROM_OTHER),
            Play::Hear(attach(), WRONG_SUM),
            Play::Told(PORT_LINES),
        ],
    )
}

#[test]
fn a_reset_closes(rt: HostRuntime) -> Result<(), Fail> {
    play_run(
        rt.alloc(),
        RUN,
        &[BOOT_1],
        &[
            Play::Hear(attach(), OPENING),
            Play::Hear(replica(), DENIED),
            Play::Hear(attach(), OPENING),
            Play::Hear(agent(), GRANT_2),
            Play::Hear(replica(), GRANT_2),
            Play::Hear(attach(), RESET),
            Play::Connection(0),
            Play::Told(RESET_LINES),
        ],
    )
}

#[test]
fn a_client_is_served(rt: HostRuntime) -> Result<(), Fail> {
    play_run(
        rt.alloc(),
        SERVING,
        &[BOOT_1],
        &[
            Play::Hear(mux(), SYN),
            Play::Hear(attach(), ANSWER),
            Play::Connection(0),
            Play::Told(SERVED_LINES),
        ],
    )
}

#[test]
fn no_client_has_a_connections_packets(rt: HostRuntime) -> Result<(), Fail> {
    play_run(
        rt.alloc(),
        SERVING,
        &[BOOT_1],
        &[
            Play::Hear(attach(), OWN_OPENING),
            Play::Hear(replica(), GRANT),
            Play::Hear(mux(), SYN),
            Play::Told(USED_LINES),
        ],
    )
}
