// Schedules of nodes, and how many lines of each kind a schedule prints.
use crate::Status;
use crate::tests::{Ran, SMALL, TWO_MUXES, replay, run_over};
use outside_io::MemSource;
use std::alloc::{AllocError, Global};
use std::test::Fail;

/// Replays these lines under the small configuration.
fn replay_small(alloc: Global, lines: &str) -> Result<Ran, AllocError> {
    let text = format!(in alloc; "{SMALL}\n---\n{lines}")?;
    replay(alloc, text.as_bytes())
}

#[test]
fn schedules_of_nodes(rt: HostRuntime) -> Result<(), Fail> {
    for (lines, status, out, err) in [
        ("", Status::Done, "", ""),
        ("deliver 9", Status::Done, "event deliver 9\nnone\n", ""),
        (
            "deliver 9\n\ninject mux 0 10.0.0.1:7000 02\nno event\n",
            Status::BadSchedule,
            "",
            "schedule line 3\n",
        ),
    ] {
        let ran = replay_small(rt.alloc(), lines)?;
        assert_eq!(rt; ran.status, status, "{lines:?}");
        assert_eq!(rt; ran.out.bytes(), out.as_bytes(), "{lines:?}");
        assert_eq!(rt; ran.err.bytes(), err.as_bytes(), "{lines:?}");
    }
    Ok(())
}

#[test]
fn texts_that_are_no_schedule(rt: HostRuntime) -> Result<(), Fail> {
    for (text, status, err) in [
        ("", Status::BadConfig, "config json\n"),
        ("plain \n", Status::BadConfig, "config json\n"),
        ("---\n", Status::BadConfig, "config json\n"),
        ("{}\n---\nno event\n", Status::BadConfig, "config version\n"),
        (SMALL, Status::BadSchedule, "schedule line 0\n"),
    ] {
        let ran = replay(rt.alloc(), text.as_bytes())?;
        assert_eq!(rt; ran.status, status, "{text:?}");
        assert_eq!(rt; ran.err.bytes(), err.as_bytes(), "{text:?}");
        assert_eq!(rt; ran.out.bytes().len(), 0);
    }
    Ok(())
}

/// Counts what a schedule prints.
fn summarize(alloc: Global, text: &[u8]) -> Result<Ran, AllocError> {
    let mut input = MemSource::new(text.to_vec(alloc)?, Vec::new(alloc));
    run_over(alloc, &["replay", "--summary"], &mut input, &[])
}

#[test]
fn a_summary_of_nodes(rt: HostRuntime) -> Result<(), Fail> {
    let alloc = rt.alloc();
    let text = format!(in alloc;
        "{TWO_MUXES}\n---\ntick mux 0 1000\ntick mux 1 1000\ntick replica 0 1000\nsettle 50\n"
    )?;
    let ran = summarize(alloc, text.as_bytes())?;
    assert_eq!(rt; ran.status, Status::Done);
    assert_eq!(rt;
        ran.out.bytes(),
        b"events 24\nsent 20\n\
        acts reserve 0 grant 0 hold 0 drop 0 free 0 freed 0 open 0 close 0 lose 0 hand 0\ndrops 2\n"
            .as_slice()
    );
    Ok(())
}

#[test]
fn a_summary_of_a_plain_schedule(rt: HostRuntime) -> Result<(), Fail> {
    let ran = summarize(
        rt.alloc(),
        b"plain\nvip 192.0.2.10 1024 1031\nask 192.0.2.10 10.1.0.4\npacket 45\n",
    )?;
    assert_eq!(rt; ran.status, Status::Done);
    assert_eq!(rt;
        ran.out.bytes(),
        b"events 0\nsent 0\n\
        acts reserve 0 grant 0 hold 0 drop 0 free 0 freed 0 open 0 close 0 lose 0 hand 0\ndrops 1\n"
            .as_slice()
    );
    Ok(())
}

#[test]
fn a_transcript_is_cut(rt: HostRuntime) -> Result<(), Fail> {
    let alloc = rt.alloc();
    let text = format!(in alloc; "{SMALL}\n---\ndeliver 9\n")?;
    let mut input = MemSource::new(text.as_bytes().to_vec(alloc)?, Vec::new(alloc));
    let ran = run_over(alloc, &["replay"], &mut input, &[1])?;
    assert_eq!(rt; ran.status, Status::WriteFault);
    assert_eq!(rt; ran.out.bytes(), b"event deliver 9\n".as_slice());
    assert_eq!(rt; ran.err.bytes(), b"write fault\n".as_slice());
    Ok(())
}
