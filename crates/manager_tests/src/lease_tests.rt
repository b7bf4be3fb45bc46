use crate::cluster::{Act, agent, mux, play, replica, router};
use crate::configs::{ONE_LEASE, ONE_RANGE, RUN, TWO_AGENTS};
use std::test::Fail;

/// A lease of the only range is given back while one of two muxes is down: its number is freed once that is back and
/// has acknowledged too. Till then the other machine is denied.
#[test]
fn one_range_for_two_machines(rt: HostRuntime) -> Result<(), Fail> {
    let sent = play(
        rt.alloc(),
        ONE_RANGE,
        &[
            Act::Send(mux(0), 0, "01010f00000000000000010000000000000000"),
            Act::Tick(0, 1000),
            Act::Settle,
            Act::Unread,
            // Slot 0, place 1.
            Act::Send(
                agent(0),
                0,
                "01010800000000000000010a0100040000000000000001",
            ),
            Act::Deliver(12, 12),
            Act::Deliver(13, 19),
            Act::Unread,
            Act::Deliver(20, 20),
            Act::Told(
                "\
                replica 0 entry 0400000000000000050101000000000000000000010a0100040000000000000001\n\
                replica 0 reserve 1 1024 10.1.0.4\n\
                sent 23-26 replica 0 to replica 1-4 010106000000000000000000000000000000050101000000000000000000\
                010a0100040000000000000001\n\
                sent 27 replica 0 to mux 0 010110000000000000000500000000000000010000000000000001c000020a04000a0\
                10004\n",
            ),
            Act::Settle,
            Act::Unread,
            // Slot 1: the mux that is there has the row.
            Act::Send(
                mux(0),
                0,
                "010111000000000000000500000000000000010000000000000001",
            ),
            Act::Deliver(28, 28),
            Act::Deliver(29, 35),
            Act::Unread,
            Act::Deliver(36, 36),
            Act::Told(
                "\
                replica 0 entry 040000000000000005010200000000000000010100000000000000000001\n\
                replica 0 grant 1\n\
                sent 39-42 replica 0 to replica 1-4 010106000000000000000100000000000000050102000000000000000101\
                00000000000000000001\n\
                sent 43 replica 0 to agent 0 01010900000000000000010a01000400000000000000010000000000000001c0000\
                20a0400\n",
            ),
            Act::Settle,
            Act::Unread,
            // Slot 2: the lease is given back. The other mux was never heard of, so nothing is freed.
            Act::Send(agent(0), 0, "01010b00000000000000010000000000000001"),
            Act::Deliver(44, 44),
            Act::Deliver(45, 51),
            Act::Unread,
            Act::Deliver(52, 52),
            Act::Told(
                "\
                replica 0 entry 04000000000000000501030000000000000001\n\
                replica 0 free 1\n\
                sent 55-58 replica 0 to replica 1-4 0101060000000000000002000000000000000501030000000000000001\n\
                sent 59 replica 0 to agent 0 01010c00000000000000010000000000000001\n\
                sent 60 replica 0 to mux 0 010112000000000000000500000000000000010000000000000001c000020a0400\n",
            ),
            Act::Settle,
            Act::Unread,
            Act::Send(
                mux(0),
                0,
                "010113000000000000000500000000000000010000000000000001",
            ),
            Act::Settle,
            Act::Told(""),
            // Slot 3, place 49: no range is free.
            Act::Send(
                agent(1),
                0,
                "01010800000000000000010a0100050000000000000001",
            ),
            Act::Deliver(62, 62),
            Act::Deliver(63, 69),
            Act::Unread,
            Act::Deliver(70, 70),
            Act::Told(
                "\
                replica 0 entry 0400000000000000050101000100000000000000010a0100050000000000000001\n\
                sent 73-76 replica 0 to replica 1-4 010106000000000000000300000000000000050101000100000000000000\
                010a0100050000000000000001\n\
                sent 77 replica 0 to agent 1 01010a00000000000000010a0100050000000000000001010000000000000031\n",
            ),
            Act::Settle,
            Act::Unread,
            // The other mux comes, is told, and acknowledges: slot 4.
            Act::Tick(0, 1500),
            Act::Settle,
            Act::Told(
                "\
                sent 78-81 replica 0 to replica 1-4 01011500000000000000050000000000000004\n",
            ),
            Act::Send(mux(1), 0, "01010f00000000000000010000000000000000"),
            Act::Settle,
            Act::Told(""),
            Act::Tick(0, 2000),
            Act::Settle,
            Act::Told(
                "\
                sent 83-86 replica 0 to replica 1-4 01011500000000000000050000000000000004\n\
                sent 87 replica 0 to mux 1 010112000000000000000500000000000000010000000000000001c000020a0400\n",
            ),
            Act::Send(
                mux(1),
                0,
                "010113000000000000000500000000000000010000000000000001",
            ),
            Act::Deliver(88, 88),
            Act::Told(
                "\
                sent 89-93 replica 0 to replica 0-4 0101030000000000000005000000000000000401040000000000000001\n",
            ),
            Act::Deliver(89, 95),
            Act::Unread,
            Act::Deliver(96, 96),
            Act::Told(
                "\
                replica 0 entry 04000000000000000501040000000000000001\n\
                replica 0 freed 1\n\
                sent 99-102 replica 0 to replica 1-4 0101060000000000000004000000000000000501040000000000000001\n",
            ),
            Act::Settle,
            Act::Unread,
            // Slot 5, place 81.
            Act::Send(
                agent(1),
                0,
                "01010800000000000000010a0100050000000000000002",
            ),
            Act::Deliver(103, 103),
            Act::Deliver(104, 110),
            Act::Unread,
            Act::Deliver(111, 111),
            Act::Told(
                "\
                replica 0 entry 0400000000000000050101000100000000000000010a0100050000000000000002\n\
                replica 0 reserve 81 1024 10.1.0.5\n\
                sent 114-117 replica 0 to replica 1-4 0101060000000000000005000000000000000501010001000000000000\
                00010a0100050000000000000002\n\
                sent 118-119 replica 0 to mux 0-1 010110000000000000000500000000000000010000000000000051c000020a\
                04000a010005\n",
            ),
            Act::Settle,
            Act::Unread,
            Act::Rows(0),
            Act::Told(
                "\
                replica 0 length 6\n\
                row 81 1024 10.1.0.5 being leased\n",
            ),
        ],
    )?;
    assert_eq!(rt; sent, 119);
    Ok(())
}

/// A machine that may have one lease asks for a second one.
#[test]
fn a_machine_at_its_limit_is_denied(rt: HostRuntime) -> Result<(), Fail> {
    let sent = play(
        rt.alloc(),
        ONE_LEASE,
        &[
            Act::Send(mux(0), 0, "01010f00000000000000010000000000000000"),
            Act::Tick(0, 1000),
            Act::Settle,
            Act::Unread,
            Act::Send(
                agent(0),
                0,
                "01010800000000000000010a0100040000000000000001",
            ),
            Act::Settle,
            Act::Unread,
            Act::Rows(0),
            Act::Told(
                "\
                replica 0 length 1\n\
                row 1 1024 10.1.0.4 being leased\n",
            ),
            Act::Send(
                agent(0),
                0,
                "01010800000000000000010a0100040000000000000002",
            ),
            Act::Deliver(28, 28),
            Act::Deliver(29, 35),
            Act::Unread,
            Act::Deliver(36, 36),
            Act::Told(
                "\
                replica 0 entry 0400000000000000050101000000000000000000010a0100040000000000000002\n\
                sent 39-42 replica 0 to replica 1-4 010106000000000000000100000000000000050101000000000000000000\
                010a0100040000000000000002\n\
                sent 43 replica 0 to agent 0 01010a00000000000000010a0100040000000000000002020000000000000001\n",
            ),
            Act::Settle,
            Act::Unread,
            Act::Deliver(28, 28),
            Act::Rows(0),
            Act::Told(
                "\
                sent 44 replica 0 to agent 0 01010a00000000000000010a0100040000000000000002020000000000000001\n\
                replica 0 length 2\n\
                row 1 1024 10.1.0.4 being leased\n",
            ),
        ],
    )?;
    assert_eq!(rt; sent, 44);
    Ok(())
}

/// A lease of the boot before ends, and is freed once the mux has no row.
#[test]
fn an_agent_in_a_later_boot_lost_its_leases(rt: HostRuntime) -> Result<(), Fail> {
    let sent = play(
        rt.alloc(),
        RUN,
        &[
            Act::Send(mux(0), 0, "01010f00000000000000010000000000000000"),
            Act::Tick(0, 1000),
            Act::Settle,
            Act::Unread,
            Act::Send(
                agent(0),
                0,
                "01010800000000000000010a0100040000000000000001",
            ),
            Act::Settle,
            Act::Send(
                mux(0),
                0,
                "010111000000000000000500000000000000010000000000000001",
            ),
            Act::Settle,
            Act::Unread,
            // Its boot is known; then it is there in the next one.
            Act::Send(agent(0), 0, "01010d0000000000000001"),
            Act::Settle,
            Act::Told(
                "\
                sent 45 replica 0 to agent 0 01010e0000000000000001\n",
            ),
            Act::Send(agent(0), 0, "01010d0000000000000002"),
            Act::Deliver(46, 46),
            Act::Deliver(47, 53),
            Act::Unread,
            Act::Deliver(54, 54),
            Act::Told(
                "\
                replica 0 entry 040000000000000005010500000000000000000002\n\
                replica 0 free 1\n\
                sent 57-60 replica 0 to replica 1-4 010106000000000000000200000000000000050105000000000000000000\
                02\n\
                sent 61 replica 0 to agent 0 01010e0000000000000002\n",
            ),
            Act::Settle,
            Act::Unread,
            // A request of the boot before comes late. The mux is told at the next tick.
            Act::Send(
                agent(0),
                0,
                "01010800000000000000010a0100040000000000000001",
            ),
            Act::Settle,
            Act::Told(
                "\
                replica 0 drop Late\n",
            ),
            Act::Tick(0, 1500),
            Act::Settle,
            Act::Told(
                "\
                sent 63-66 replica 0 to replica 1-4 01011500000000000000050000000000000003\n\
                sent 67 replica 0 to mux 0 010112000000000000000500000000000000010000000000000001c000020a0400\n",
            ),
            Act::Send(
                mux(0),
                0,
                "010113000000000000000500000000000000010000000000000001",
            ),
            Act::Deliver(68, 68),
            Act::Told(
                "\
                sent 69-73 replica 0 to replica 0-4 0101030000000000000005000000000000000301040000000000000001\n",
            ),
            Act::Deliver(69, 75),
            Act::Unread,
            Act::Deliver(76, 76),
            Act::Told(
                "\
                replica 0 entry 04000000000000000501040000000000000001\n\
                replica 0 freed 1\n\
                sent 79-82 replica 0 to replica 1-4 0101060000000000000003000000000000000501040000000000000001\n",
            ),
            Act::Settle,
            Act::Unread,
            Act::Send(agent(0), 0, "01010b00000000000000020000000000000001"),
            Act::Settle,
            Act::Told(
                "\
                sent 84 replica 0 to agent 0 01010c00000000000000020000000000000001\n",
            ),
        ],
    )?;
    assert_eq!(rt; sent, 84);
    Ok(())
}

/// Datagrams that change nothing, each with its cause.
#[test]
fn what_is_not_taken(rt: HostRuntime) -> Result<(), Fail> {
    let sent = play(
        rt.alloc(),
        TWO_AGENTS,
        &[
            // No primary; no frame, no message, not of a mux, not of a node, and four of a wrong role.
            Act::Send(
                agent(0),
                0,
                "01010800000000000000010a0100040000000000000001",
            ),
            Act::Send(router(), 0, "03"),
            Act::Send(router(), 0, "0101"),
            Act::Send(
                agent(0),
                0,
                "0101170000000000000000010a01000404000a01000400500a0100040a010005",
            ),
            Act::Send(router(), 0, "0101010000000000000005"),
            Act::Send(
                replica(1),
                0,
                "01010800000000000000010a0100040000000000000001",
            ),
            Act::Send(mux(0), 0, "0101010000000000000005"),
            Act::Send(agent(0), 0, "01010f00000000000000010000000000000000"),
            Act::Send(agent(0), 0, "02"),
            Act::Settle,
            Act::Told(
                "\
                replica 0 drop NotPrimary\n\
                replica 0 drop BadFrame\n\
                replica 0 drop BadMessage\n\
                replica 0 drop NotFromMux\n\
                replica 0 drop NotNode\n\
                replica 0 drop WrongRole\n\
                replica 0 drop WrongRole\n\
                replica 0 drop WrongRole\n\
                replica 0 drop WrongRole\n",
            ),
            Act::Tick(0, 1000),
            Act::Settle,
            Act::Unread,
            // Of another agent, no lease, a number above each place, no row; the second request waits.
            Act::Send(
                agent(0),
                0,
                "01010800000000000000010a0100050000000000000001",
            ),
            Act::Send(agent(0), 0, "01010b00000000000000010000000000000000"),
            Act::Send(agent(0), 0, "01010b00000000000000010000000000000001"),
            Act::Send(
                mux(0),
                0,
                "010111000000000000000500000000000000010000000000000001",
            ),
            Act::Send(
                agent(0),
                0,
                "01010800000000000000010a0100040000000000000002",
            ),
            Act::Send(
                agent(0),
                0,
                "01010800000000000000010a0100040000000000000002",
            ),
            Act::Deliver(20, 25),
            Act::Told(
                "\
                replica 0 drop NotMine\n\
                replica 0 drop Unknown\n\
                replica 0 drop Unknown\n\
                replica 0 drop Late\n\
                sent 26-30 replica 0 to replica 0-4 010103000000000000000500000000000000000101000000000000000000\
                010a0100040000000000000002\n\
                replica 0 drop Waiting\n",
            ),
            Act::Settle,
            Act::Unread,
            // An earlier request, one that waits, a lease of another agent, another epoch, an earlier boot.
            Act::Send(
                agent(0),
                0,
                "01010800000000000000010a0100040000000000000001",
            ),
            Act::Send(
                agent(0),
                0,
                "01010800000000000000010a0100040000000000000002",
            ),
            Act::Send(agent(1), 0, "01010b00000000000000010000000000000001"),
            Act::Send(
                mux(0),
                0,
                "010111000000000000000600000000000000010000000000000001",
            ),
            Act::Send(mux(0), 0, "01010f00000000000000020000000000000000"),
            Act::Send(mux(0), 0, "01010f00000000000000010000000000000000"),
            Act::Settle,
            Act::Told(
                "\
                replica 0 drop Late\n\
                replica 0 drop Waiting\n\
                replica 0 drop NotMine\n\
                replica 0 drop Late\n\
                replica 0 drop Late\n",
            ),
            Act::Rows(0),
            Act::Told(
                "\
                replica 0 length 1\n\
                row 1 1024 10.1.0.4 being leased\n",
            ),
        ],
    )?;
    assert_eq!(rt; sent, 45);
    Ok(())
}
