// Counts of small transcripts, and of lines that are no kind's.
use crate::{Counts, append_counts, append_summary};
use std::alloc::{AllocError, Global};
use std::test::Fail;

fn summary(alloc: Global, text: &[u8]) -> Result<String, AllocError> {
    let mut out = String::new(alloc);
    append_summary(&mut out, text)?;
    Ok(out)
}

#[test]
fn nothing_has_no_lines(rt: HostRuntime) -> Result<(), Fail> {
    let out = summary(rt.alloc(), b"")?;
    assert_eq!(rt;
        out.as_str(),
        "events 0\nsent 0\n\
        acts reserve 0 grant 0 hold 0 drop 0 free 0 freed 0 open 0 close 0 lose 0 hand 0\ndrops 0\n"
    );
    Ok(())
}

#[test]
fn each_line_counts_as_its_kind(rt: HostRuntime) -> Result<(), Fail> {
    let out = summary(
        rt.alloc(),
        b"event deliver 47\nact hold 1\n\
        act open udp 192.0.2.10 1024 198.51.100.7 53 10.1.0.4 5000\n\
        sent 48 agent 0 10.7.0.1:7000 02\nevent crash agent 0\nact lose agent 0\nevent deliver 48\noutside\n\
        event tick agent 0 1\ndown\nevent deliver 26\ndrop Late\nact free 1\nact freed 1\nact drop 1\n\
        queued 10.1.0.4 1\n",
    )?;
    assert_eq!(rt;
        out.as_str(),
        "events 5\nsent 1\n\
        acts reserve 0 grant 0 hold 1 drop 1 free 1 freed 1 open 1 close 0 lose 1 hand 0\ndrops 1\n"
    );
    Ok(())
}

#[test]
fn texts_of_whole_lines_add_up(rt: HostRuntime) -> Result<(), Fail> {
    let first = Counts::of(
        b"event deliver 47\nact hold 1\nsent 48 agent 0 10.7.0.1:7000 02\n".as_slice(),
    );
    let second = Counts::of(
        b"event crash agent 0\nact lose agent 0\ndrop Late\nact hold 2\n".as_slice(),
    );
    let mut out = String::new(rt.alloc());
    append_counts(&mut out, &first.with(&second)?)?;
    assert_eq!(rt;
        out.as_str(),
        "events 2\nsent 1\n\
        acts reserve 0 grant 0 hold 2 drop 0 free 0 freed 0 open 0 close 0 lose 1 hand 0\ndrops 1\n"
    );
    Ok(())
}
