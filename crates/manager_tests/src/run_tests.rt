use crate::cluster::{Act, agent, mux, play};
use crate::configs::RUN;
use std::test::Fail;

/// The run that the documents tell, and the request once more after it, twice: each time it is the same Grant.
#[test]
fn the_run(rt: HostRuntime) -> Result<(), Fail> {
    let sent = play(
        rt.alloc(),
        RUN,
        &[
            // Replica 0 is elected.
            Act::Send(mux(0), 0, "01010f00000000000000010000000000000000"),
            Act::Send(mux(0), 1, "01010f00000000000000010000000000000000"),
            Act::Send(mux(0), 2, "01010f00000000000000010000000000000000"),
            Act::Send(mux(0), 3, "01010f00000000000000010000000000000000"),
            Act::Send(mux(0), 4, "01010f00000000000000010000000000000000"),
            Act::Deliver(1, 5),
            Act::Told(""),
            Act::Tick(0, 1000),
            Act::Told(
                "\
                replica 0 entry 020000000000000005\n\
                sent 6-10 replica 0 to replica 0-4 0101010000000000000005\n",
            ),
            Act::Deliver(6, 10),
            Act::Told(
                "\
                sent 11 replica 0 to replica 0 010102000000000000000500000000000000000000000000000000\n\
                replica 1 entry 020000000000000005\n\
                sent 12 replica 1 to replica 0 010102000000000000000500000000000000000000000000000000\n\
                replica 2 entry 020000000000000005\n\
                sent 13 replica 2 to replica 0 010102000000000000000500000000000000000000000000000000\n\
                replica 3 entry 020000000000000005\n\
                sent 14 replica 3 to replica 0 010102000000000000000500000000000000000000000000000000\n\
                replica 4 entry 020000000000000005\n\
                sent 15 replica 4 to replica 0 010102000000000000000500000000000000000000000000000000\n",
            ),
            Act::Deliver(11, 15),
            Act::Told(
                "\
                replica 0 drop Late\n\
                replica 0 drop Late\n",
            ),
            // A range is asked for.
            Act::Send(
                agent(0),
                0,
                "01010800000000000000010a0100040000000000000001",
            ),
            Act::Deliver(16, 16),
            Act::Told(
                "\
                sent 17-21 replica 0 to replica 0-4 010103000000000000000500000000000000000101000000000000000000\
                010a0100040000000000000001\n",
            ),
            Act::Deliver(17, 21),
            Act::Told(
                "\
                replica 0 entry 0300000000000000050101000000000000000000010a0100040000000000000001\n\
                sent 22 replica 0 to replica 0 01010400000000000000050000000000000000\n\
                replica 1 entry 0300000000000000050101000000000000000000010a0100040000000000000001\n\
                sent 23 replica 1 to replica 0 01010400000000000000050000000000000000\n\
                replica 2 entry 0300000000000000050101000000000000000000010a0100040000000000000001\n\
                sent 24 replica 2 to replica 0 01010400000000000000050000000000000000\n\
                replica 3 entry 0300000000000000050101000000000000000000010a0100040000000000000001\n\
                sent 25 replica 3 to replica 0 01010400000000000000050000000000000000\n\
                replica 4 entry 0300000000000000050101000000000000000000010a0100040000000000000001\n\
                sent 26 replica 4 to replica 0 01010400000000000000050000000000000000\n",
            ),
            Act::Deliver(22, 24),
            Act::Told(
                "\
                replica 0 entry 0400000000000000050101000000000000000000010a0100040000000000000001\n\
                replica 0 reserve 1 1024 10.1.0.4\n\
                sent 27-30 replica 0 to replica 1-4 010106000000000000000000000000000000050101000000000000000000\
                010a0100040000000000000001\n\
                sent 31 replica 0 to mux 0 010110000000000000000500000000000000010000000000000001c000020a04000a0\
                10004\n",
            ),
            Act::Deliver(25, 26),
            Act::Told(
                "\
                replica 0 drop Late\n\
                replica 0 drop Late\n",
            ),
            Act::Deliver(27, 30),
            Act::Told(
                "\
                replica 1 entry 0400000000000000050101000000000000000000010a0100040000000000000001\n\
                replica 1 reserve 1 1024 10.1.0.4\n\
                replica 2 entry 0400000000000000050101000000000000000000010a0100040000000000000001\n\
                replica 2 reserve 1 1024 10.1.0.4\n\
                replica 3 entry 0400000000000000050101000000000000000000010a0100040000000000000001\n\
                replica 3 reserve 1 1024 10.1.0.4\n\
                replica 4 entry 0400000000000000050101000000000000000000010a0100040000000000000001\n\
                replica 4 reserve 1 1024 10.1.0.4\n",
            ),
            // The mux has the row.
            Act::Send(
                mux(0),
                0,
                "010111000000000000000500000000000000010000000000000001",
            ),
            Act::Deliver(32, 32),
            Act::Told(
                "\
                sent 33-37 replica 0 to replica 0-4 010103000000000000000500000000000000010102000000000000000101\
                00000000000000000001\n",
            ),
            Act::Deliver(33, 37),
            Act::Told(
                "\
                replica 0 entry 030000000000000005010200000000000000010100000000000000000001\n\
                sent 38 replica 0 to replica 0 01010400000000000000050000000000000001\n\
                replica 1 entry 030000000000000005010200000000000000010100000000000000000001\n\
                sent 39 replica 1 to replica 0 01010400000000000000050000000000000001\n\
                replica 2 entry 030000000000000005010200000000000000010100000000000000000001\n\
                sent 40 replica 2 to replica 0 01010400000000000000050000000000000001\n\
                replica 3 entry 030000000000000005010200000000000000010100000000000000000001\n\
                sent 41 replica 3 to replica 0 01010400000000000000050000000000000001\n\
                replica 4 entry 030000000000000005010200000000000000010100000000000000000001\n\
                sent 42 replica 4 to replica 0 01010400000000000000050000000000000001\n",
            ),
            Act::Deliver(38, 40),
            Act::Told(
                "\
                replica 0 entry 040000000000000005010200000000000000010100000000000000000001\n\
                replica 0 grant 1\n\
                sent 43-46 replica 0 to replica 1-4 010106000000000000000100000000000000050102000000000000000101\
                00000000000000000001\n\
                sent 47 replica 0 to agent 0 01010900000000000000010a01000400000000000000010000000000000001c0000\
                20a0400\n",
            ),
            Act::Deliver(41, 42),
            Act::Told(
                "\
                replica 0 drop Late\n\
                replica 0 drop Late\n",
            ),
            Act::Deliver(43, 46),
            Act::Told(
                "\
                replica 1 entry 040000000000000005010200000000000000010100000000000000000001\n\
                replica 1 grant 1\n\
                replica 2 entry 040000000000000005010200000000000000010100000000000000000001\n\
                replica 2 grant 1\n\
                replica 3 entry 040000000000000005010200000000000000010100000000000000000001\n\
                replica 3 grant 1\n\
                replica 4 entry 040000000000000005010200000000000000010100000000000000000001\n\
                replica 4 grant 1\n",
            ),
            // The request comes twice more.
            Act::Deliver(16, 16),
            Act::Deliver(16, 16),
            Act::Told(
                "\
                sent 48 replica 0 to agent 0 01010900000000000000010a01000400000000000000010000000000000001c0000\
                20a0400\n\
                sent 49 replica 0 to agent 0 01010900000000000000010a01000400000000000000010000000000000001c0000\
                20a0400\n",
            ),
            Act::Rows(4),
            Act::Told(
                "\
                replica 4 length 2\n\
                row 1 1024 10.1.0.4 leased\n",
            ),
        ],
    )?;
    assert_eq!(rt; sent, 49);
    Ok(())
}

/// A mux refuses the primary of ballot 5, since it knows of 7: then that follows, and next it runs with 10.
#[test]
fn a_mux_of_a_later_epoch_deposes_the_primary(rt: HostRuntime) -> Result<(), Fail> {
    let sent = play(
        rt.alloc(),
        RUN,
        &[
            Act::Send(mux(0), 0, "01010f00000000000000010000000000000000"),
            Act::Tick(0, 1000),
            Act::Settle,
            Act::Unread,
            Act::Send(
                mux(0),
                0,
                "010114000000000000000500000000000000010000000000000007",
            ),
            Act::Settle,
            Act::Told(""),
            Act::Send(
                agent(0),
                0,
                "01010800000000000000010a0100040000000000000001",
            ),
            Act::Settle,
            Act::Told(
                "\
                replica 0 drop NotPrimary\n",
            ),
            Act::Tick(0, 1999),
            Act::Told(""),
            Act::Tick(0, 2000),
            Act::Told(
                "\
                replica 0 entry 02000000000000000a\n\
                sent 14-18 replica 0 to replica 0-4 010101000000000000000a\n",
            ),
        ],
    )?;
    assert_eq!(rt; sent, 18);
    Ok(())
}

/// Replica 4 hears nothing while two values are learned, and then runs for election.
#[test]
fn who_was_away_learns_the_log_before_it_leads(rt: HostRuntime) -> Result<(), Fail> {
    let sent = play(
        rt.alloc(),
        RUN,
        &[
            Act::Send(mux(0), 0, "01010f00000000000000010000000000000000"),
            Act::Deliver(1, 1),
            Act::Tick(0, 1000),
            Act::Deliver(2, 5),
            Act::Deliver(7, 10),
            Act::Unread,
            Act::Send(
                agent(0),
                0,
                "01010800000000000000010a0100040000000000000001",
            ),
            Act::Deliver(11, 11),
            Act::Deliver(12, 15),
            Act::Deliver(17, 20),
            Act::Told(
                "\
                sent 12-16 replica 0 to replica 0-4 010103000000000000000500000000000000000101000000000000000000\
                010a0100040000000000000001\n\
                replica 0 entry 0300000000000000050101000000000000000000010a0100040000000000000001\n\
                sent 17 replica 0 to replica 0 01010400000000000000050000000000000000\n\
                replica 1 entry 0300000000000000050101000000000000000000010a0100040000000000000001\n\
                sent 18 replica 1 to replica 0 01010400000000000000050000000000000000\n\
                replica 2 entry 0300000000000000050101000000000000000000010a0100040000000000000001\n\
                sent 19 replica 2 to replica 0 01010400000000000000050000000000000000\n\
                replica 3 entry 0300000000000000050101000000000000000000010a0100040000000000000001\n\
                sent 20 replica 3 to replica 0 01010400000000000000050000000000000000\n\
                replica 0 entry 0400000000000000050101000000000000000000010a0100040000000000000001\n\
                replica 0 reserve 1 1024 10.1.0.4\n\
                sent 21-24 replica 0 to replica 1-4 010106000000000000000000000000000000050101000000000000000000\
                010a0100040000000000000001\n\
                sent 25 replica 0 to mux 0 010110000000000000000500000000000000010000000000000001c000020a04000a0\
                10004\n\
                replica 0 drop Late\n",
            ),
            Act::Deliver(21, 23),
            Act::Unread,
            Act::Send(
                mux(0),
                0,
                "010111000000000000000500000000000000010000000000000001",
            ),
            Act::Deliver(26, 26),
            Act::Deliver(27, 30),
            Act::Deliver(32, 35),
            Act::Unread,
            Act::Deliver(36, 38),
            Act::Rows(3),
            Act::Rows(4),
            Act::Told(
                "\
                replica 1 entry 040000000000000005010200000000000000010100000000000000000001\n\
                replica 1 grant 1\n\
                replica 2 entry 040000000000000005010200000000000000010100000000000000000001\n\
                replica 2 grant 1\n\
                replica 3 entry 040000000000000005010200000000000000010100000000000000000001\n\
                replica 3 grant 1\n\
                replica 3 length 2\n\
                row 1 1024 10.1.0.4 leased\n\
                replica 4 length 0\n",
            ),
            // It runs, is promised logs of length 2, and fetches them.
            Act::Tick(4, 2000),
            Act::Told(
                "\
                replica 4 entry 020000000000000009\n\
                sent 41-45 replica 4 to replica 0-4 0101010000000000000009\n",
            ),
            Act::Settle,
            Act::Told(
                "\
                sent 46 replica 4 to replica 0 0101070000000000000000\n\
                replica 0 entry 020000000000000009\n\
                sent 47 replica 0 to replica 4 010102000000000000000900000000000000020000000000000000\n\
                replica 1 entry 020000000000000009\n\
                sent 48 replica 1 to replica 4 010102000000000000000900000000000000020000000000000000\n\
                replica 2 entry 020000000000000009\n\
                sent 49 replica 2 to replica 4 010102000000000000000900000000000000020000000000000000\n\
                replica 3 entry 020000000000000009\n\
                sent 50 replica 3 to replica 4 010102000000000000000900000000000000020000000000000000\n\
                sent 51 replica 4 to replica 4 010102000000000000000900000000000000000000000000000000\n\
                sent 52 replica 0 to replica 4 010106000000000000000000000000000000050101000000000000000000010a0\
                100040000000000000001\n\
                sent 53 replica 4 to replica 0 0101070000000000000000\n\
                replica 4 drop Late\n\
                replica 4 drop Late\n\
                replica 4 entry 0400000000000000050101000000000000000000010a0100040000000000000001\n\
                replica 4 reserve 1 1024 10.1.0.4\n\
                sent 54 replica 4 to replica 0 0101070000000000000001\n\
                sent 55 replica 0 to replica 4 010106000000000000000000000000000000050101000000000000000000010a0\
                100040000000000000001\n\
                sent 56 replica 0 to replica 4 01010600000000000000010000000000000005010200000000000000010100000\
                000000000000001\n\
                replica 4 drop Late\n\
                replica 4 entry 040000000000000005010200000000000000010100000000000000000001\n\
                replica 4 grant 1\n",
            ),
            Act::Rows(4),
            Act::Tick(4, 2500),
            Act::Told(
                "\
                replica 4 length 2\n\
                row 1 1024 10.1.0.4 leased\n\
                sent 57-60 replica 4 to replica 0-3 01011500000000000000090000000000000002\n",
            ),
        ],
    )?;
    assert_eq!(rt; sent, 60);
    Ok(())
}
