use crate::cluster::{Act, agent, mux, play};
use crate::configs::TWO_AGENTS;
use std::test::Fail;

/// A range is leased; the primary is deposed while two replicas voted for a second one; the heir finds that value, and
/// leases the second range.
#[test]
fn an_heir_finishes_what_was_begun(rt: HostRuntime) -> Result<(), Fail> {
    let sent = play(
        rt.alloc(),
        TWO_AGENTS,
        &[
            Act::Send(mux(0), 0, "01010f00000000000000010000000000000000"),
            Act::Tick(0, 1000),
            Act::Settle,
            Act::Unread,
            Act::Send(
                agent(0),
                0,
                "01010800000000000000010a0100040000000000000001",
            ),
            Act::Settle,
            Act::Send(
                mux(0),
                0,
                "010111000000000000000500000000000000010000000000000001",
            ),
            Act::Settle,
            Act::Unread,
            Act::Rows(0),
            Act::Rows(1),
            Act::Told(
                "\
                replica 0 length 2\n\
                row 1 1024 10.1.0.4 leased\n\
                replica 1 length 2\n\
                row 1 1024 10.1.0.4 leased\n",
            ),
            // Two replicas vote for a Reserve, and the primary is deposed.
            Act::Send(
                agent(1),
                0,
                "01010800000000000000010a0100050000000000000001",
            ),
            Act::Deliver(44, 44),
            Act::Deliver(45, 46),
            Act::Told(
                "\
                sent 45-49 replica 0 to replica 0-4 010103000000000000000500000000000000020101000100000000000000\
                010a0100050000000000000001\n\
                replica 0 entry 0300000000000000050101000100000000000000010a0100050000000000000001\n\
                sent 50 replica 0 to replica 0 01010400000000000000050000000000000002\n\
                replica 1 entry 0300000000000000050101000100000000000000010a0100050000000000000001\n\
                sent 51 replica 1 to replica 0 01010400000000000000050000000000000002\n",
            ),
            Act::Send(
                mux(0),
                0,
                "010114000000000000000500000000000000010000000000000007",
            ),
            Act::Deliver(52, 52),
            Act::Told(""),
            Act::Deliver(50, 51),
            Act::Told(
                "\
                replica 0 drop Late\n\
                replica 0 drop Late\n",
            ),
            Act::Send(mux(0), 1, "01010f00000000000000010000000000000007"),
            Act::Deliver(53, 53),
            Act::Told(""),
            // Replica 1 runs. The third promise brings the value that was voted for.
            Act::Tick(1, 3000),
            Act::Deliver(54, 58),
            Act::Told(
                "\
                replica 1 entry 02000000000000000b\n\
                sent 54-58 replica 1 to replica 0-4 010101000000000000000b\n\
                replica 0 entry 02000000000000000b\n\
                sent 59 replica 0 to replica 1 010102000000000000000b0000000000000002000000000000000501010001000\
                00000000000010a0100050000000000000001\n\
                sent 60 replica 1 to replica 1 010102000000000000000b0000000000000002000000000000000501010001000\
                00000000000010a0100050000000000000001\n\
                replica 2 entry 02000000000000000b\n\
                sent 61 replica 2 to replica 1 010102000000000000000b00000000000000020000000000000000\n\
                replica 3 entry 02000000000000000b\n\
                sent 62 replica 3 to replica 1 010102000000000000000b00000000000000020000000000000000\n\
                replica 4 entry 02000000000000000b\n\
                sent 63 replica 4 to replica 1 010102000000000000000b00000000000000020000000000000000\n",
            ),
            Act::Deliver(61, 62),
            Act::Told(""),
            Act::Deliver(59, 59),
            Act::Told(
                "\
                sent 64-68 replica 1 to replica 0-4 010103000000000000000b00000000000000020101000100000000000000\
                010a0100050000000000000001\n",
            ),
            Act::Deliver(60, 60),
            Act::Deliver(63, 63),
            Act::Told(
                "\
                replica 1 drop Late\n\
                replica 1 drop Late\n",
            ),
            // It is learned, and replica 1 is primary.
            Act::Deliver(64, 68),
            Act::Told(
                "\
                replica 0 entry 03000000000000000b0101000100000000000000010a0100050000000000000001\n\
                sent 69 replica 0 to replica 1 010104000000000000000b0000000000000002\n\
                replica 1 entry 03000000000000000b0101000100000000000000010a0100050000000000000001\n\
                sent 70 replica 1 to replica 1 010104000000000000000b0000000000000002\n\
                replica 2 entry 03000000000000000b0101000100000000000000010a0100050000000000000001\n\
                sent 71 replica 2 to replica 1 010104000000000000000b0000000000000002\n\
                replica 3 entry 03000000000000000b0101000100000000000000010a0100050000000000000001\n\
                sent 72 replica 3 to replica 1 010104000000000000000b0000000000000002\n\
                replica 4 entry 03000000000000000b0101000100000000000000010a0100050000000000000001\n\
                sent 73 replica 4 to replica 1 010104000000000000000b0000000000000002\n",
            ),
            Act::Deliver(69, 71),
            Act::Told(
                "\
                replica 1 entry 04000000000000000b0101000100000000000000010a0100050000000000000001\n\
                replica 1 reserve 33 1032 10.1.0.5\n\
                sent 74 replica 1 to replica 0 0101060000000000000002000000000000000b0101000100000000000000010a0\
                100050000000000000001\n\
                sent 75-77 replica 1 to replica 2-4 0101060000000000000002000000000000000b0101000100000000000000\
                010a0100050000000000000001\n\
                sent 78 replica 1 to mux 0 010110000000000000000b00000000000000010000000000000021c000020a04080a0\
                10005\n",
            ),
            Act::Settle,
            Act::Told(
                "\
                replica 1 drop Late\n\
                replica 1 drop Late\n\
                replica 0 entry 04000000000000000b0101000100000000000000010a0100050000000000000001\n\
                replica 0 reserve 33 1032 10.1.0.5\n\
                replica 2 entry 04000000000000000b0101000100000000000000010a0100050000000000000001\n\
                replica 2 reserve 33 1032 10.1.0.5\n\
                replica 3 entry 04000000000000000b0101000100000000000000010a0100050000000000000001\n\
                replica 3 reserve 33 1032 10.1.0.5\n\
                replica 4 entry 04000000000000000b0101000100000000000000010a0100050000000000000001\n\
                replica 4 reserve 33 1032 10.1.0.5\n",
            ),
            // An Accept of the deposed primary comes late.
            Act::Deliver(48, 48),
            Act::Deliver(79, 79),
            Act::Told(
                "\
                sent 79 replica 3 to replica 0 0101050000000000000005000000000000000b\n\
                replica 0 drop Late\n",
            ),
            // The second range is leased.
            Act::Send(
                mux(0),
                1,
                "010111000000000000000b00000000000000010000000000000021",
            ),
            Act::Settle,
            Act::Told(
                "\
                sent 81-85 replica 1 to replica 0-4 010103000000000000000b00000000000000030102000000000000002101\
                00000000000000000001\n\
                replica 0 entry 03000000000000000b010200000000000000210100000000000000000001\n\
                sent 86 replica 0 to replica 1 010104000000000000000b0000000000000003\n\
                replica 1 entry 03000000000000000b010200000000000000210100000000000000000001\n\
                sent 87 replica 1 to replica 1 010104000000000000000b0000000000000003\n\
                replica 2 entry 03000000000000000b010200000000000000210100000000000000000001\n\
                sent 88 replica 2 to replica 1 010104000000000000000b0000000000000003\n\
                replica 3 entry 03000000000000000b010200000000000000210100000000000000000001\n\
                sent 89 replica 3 to replica 1 010104000000000000000b0000000000000003\n\
                replica 4 entry 03000000000000000b010200000000000000210100000000000000000001\n\
                sent 90 replica 4 to replica 1 010104000000000000000b0000000000000003\n\
                replica 1 entry 04000000000000000b010200000000000000210100000000000000000001\n\
                replica 1 grant 33\n\
                sent 91 replica 1 to replica 0 0101060000000000000003000000000000000b010200000000000000210100000\
                000000000000001\n\
                sent 92-94 replica 1 to replica 2-4 0101060000000000000003000000000000000b0102000000000000002101\
                00000000000000000001\n\
                sent 95 replica 1 to agent 1 01010900000000000000010a01000500000000000000010000000000000021c0000\
                20a0408\n\
                replica 1 drop Late\n\
                replica 1 drop Late\n\
                replica 0 entry 04000000000000000b010200000000000000210100000000000000000001\n\
                replica 0 grant 33\n\
                replica 2 entry 04000000000000000b010200000000000000210100000000000000000001\n\
                replica 2 grant 33\n\
                replica 3 entry 04000000000000000b010200000000000000210100000000000000000001\n\
                replica 3 grant 33\n\
                replica 4 entry 04000000000000000b010200000000000000210100000000000000000001\n\
                replica 4 grant 33\n",
            ),
            // From its journal replica 0 has what it promised and learned: it refuses the first candidacy.
            Act::Reopen(0, 2),
            Act::Told(
                "\
                replica 0 length 4\n\
                row 1 1024 10.1.0.4 leased\n\
                row 33 1032 10.1.0.5 leased\n\
                sent 96 replica 0 to replica 0 0101050000000000000005000000000000000b\n",
            ),
        ],
    )?;
    assert_eq!(rt; sent, 96);
    Ok(())
}
