use crate::{Counted, LeadStep, Leader, Stage};
use std::alloc::Global;
use std::test::Fail;
use wire_core::Value;

/// The value with the one command Release 1, and that with Release 2.
const RELEASE_1: &[u8] = b"\x01\x03\0\0\0\0\0\0\0\x01";

const RELEASE_2: &[u8] = b"\x01\x03\0\0\0\0\0\0\0\x02";

fn value(bytes: &[u8]) -> Result<Value<'_>, Fail> {
    match Value::read(bytes) {
        Ok((value, _)) => Ok(value),
        Err(_) => Err(Fail::from("no value")),
    }
}

/// Whether the value of these bytes is outstanding.
fn is_out(leader: &Leader, bytes: &[u8]) -> bool {
    match leader.outstanding() {
        Some(value) => value.as_bytes() == bytes,
        None => false,
    }
}

#[test]
fn ballots(rt: HostRuntime) -> Result<(), Fail> {
    let mut leader = Leader::new(rt.alloc());
    assert_eq!(rt; leader.campaign(0, 1), Some(6));
    assert_eq!(rt; leader.stage(), Stage::Candidate);
    assert_eq!(rt; leader.campaign(6, 1), Some(11));
    assert_eq!(rt; leader.campaign(9, 0), Some(10));
    // 2 ^ 64 - 1 is a multiple of five
    assert_eq!(rt; leader.campaign(u64::MAX - 1, 0), Some(u64::MAX));
    assert_eq!(rt; leader.campaign(u64::MAX - 1, 1), None);
    assert_eq!(rt; leader.ballot(), u64::MAX);
    leader.step_down();
    assert_eq!(rt; leader.stage(), Stage::Follower);
    assert_eq!(rt; leader.ballot(), u64::MAX);
    Ok(())
}

/// A candidate at ballot 6 with three Promises, of which one told a vote of ballot 5.
fn inheriting(alloc: Global, leader: &mut Leader) -> Result<LeadStep, Fail> {
    let v = value(RELEASE_1)?;
    *leader = Leader::new(alloc);
    if leader.campaign(0, 1) != Some(6) {
        return Err(Fail::from("no candidate"));
    }
    if leader.on_promise(0, 6, 0, 5, Some(&v), 0)? != LeadStep::More {
        return Err(Fail::from("not counted"));
    }
    if leader.on_promise(1, 6, 0, 0, None, 0)? != LeadStep::More {
        return Err(Fail::from("not counted"));
    }
    Ok(leader.on_promise(2, 6, 0, 0, None, 0)?)
}

// Replica 1 at ballot 6, to which one of three told a vote of ballot 5: its value is proposed again, and chosen by
// three.
#[test]
fn inherited_at_ballot_6(rt: HostRuntime) -> Result<(), Fail> {
    let mut leader = Leader::new(rt.alloc());
    assert_eq!(rt; inheriting(rt.alloc(), &mut leader)?, LeadStep::Inherit);
    assert_eq!(rt; leader.stage(), Stage::Inheriting);
    assert!(rt; is_out(&leader, RELEASE_1));
    assert_eq!(rt; leader.on_accepted(0, 6, 0), Counted::More);
    assert_eq!(rt; leader.on_accepted(1, 6, 0), Counted::More);
    assert_eq!(rt; leader.on_accepted(2, 6, 0), Counted::Chosen);
    assert!(rt; leader.ready());
    assert!(rt; leader.is_idle());
    Ok(())
}

#[test]
fn what_is_not_counted(rt: HostRuntime) -> Result<(), Fail> {
    let mut leader = Leader::new(rt.alloc());
    assert_eq!(rt; leader.on_promise(0, 0, 0, 0, None, 0)?, LeadStep::Late);
    assert_eq!(rt; inheriting(rt.alloc(), &mut leader)?, LeadStep::Inherit);
    assert_eq!(rt; leader.on_promise(3, 6, 0, 0, None, 0)?, LeadStep::Late);
    assert_eq!(rt; leader.on_accepted(0, 6, 0), Counted::More);
    assert_eq!(rt; leader.on_accepted(0, 6, 0), Counted::Late);
    assert_eq!(rt; leader.on_accepted(1, 6, 1), Counted::Late);
    assert_eq!(rt; leader.on_accepted(1, 5, 0), Counted::Late);
    assert_eq!(rt; leader.on_accepted(1, 6, 0), Counted::More);
    Ok(())
}

// One of three has a longer log. What it told for the slot behind that is inherited once the own log is as long; the
// vote that was told with a lesser length counts for nothing.
#[test]
fn caught_up_first(rt: HostRuntime) -> Result<(), Fail> {
    let v = value(RELEASE_1)?;
    let w = value(RELEASE_2)?;
    let mut leader = Leader::new(rt.alloc());
    assert_eq!(rt; leader.campaign(0, 0), Some(5));
    assert_eq!(rt; leader.on_promise(0, 5, 1, 4, Some(&v), 1)?, LeadStep::More);
    assert_eq!(rt; leader.on_promise(4, 5, 3, 1, Some(&w), 1)?, LeadStep::More);
    assert_eq!(rt;
        leader.on_promise(3, 5, 3, 0, None, 1)?,
        LeadStep::Catch { from: 3, slot: 3 }
    );
    assert_eq!(rt; leader.stage(), Stage::Catching);
    assert_eq!(rt; leader.sought(), 3);
    assert!(rt; leader.is_idle());
    if leader.stage() == Stage::Catching {
        assert_eq!(rt; leader.copy()?.reached(), LeadStep::Inherit);
        assert_eq!(rt; leader.reached(), LeadStep::Inherit);
    }
    assert!(rt; is_out(&leader, RELEASE_2));
    assert_eq!(rt; leader.on_accepted(0, 5, 3), Counted::More);
    Ok(())
}

// Three logs of one length and no vote: it may propose at once.
#[test]
fn proposed_by_a_primary(rt: HostRuntime) -> Result<(), Fail> {
    let v = value(RELEASE_1)?;
    let mut leader = Leader::new(rt.alloc());
    assert_eq!(rt; leader.campaign(7, 2), Some(12));
    assert_eq!(rt; leader.on_promise(2, 12, 4, 0, None, 4)?, LeadStep::More);
    assert_eq!(rt;
        leader.on_promise(3, 12, 2, 9, Some(&v), 4)?,
        LeadStep::More
    );
    assert_eq!(rt; leader.on_promise(4, 12, 4, 0, None, 4)?, LeadStep::Ready);
    assert!(rt; leader.ready());
    if leader.ready() && leader.is_idle() {
        leader.propose(4, &v)?;
    }
    assert!(rt; is_out(&leader, RELEASE_1));
    assert_eq!(rt; leader.on_accepted(4, 12, 4), Counted::More);
    leader.step_down();
    assert!(rt; leader.outstanding().is_none());
    assert_eq!(rt; leader.on_accepted(3, 12, 4), Counted::Late);
    Ok(())
}
