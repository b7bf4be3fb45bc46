// Five replicas, told as events.
use crate::{PaxosEvent, PaxosWorld};
use paxos_spec::{Body, Mail};
use std::alloc::Global;
use std::test::Fail;
use wire_core::{Items, NoMemory, ValueBytes};

// One command: lease 7 is given back.
const VALUE: &[u8] = b"\x01\x03\x00\x00\x00\x00\x00\x00\x00\x07";

// The value as it is offered.
fn value(alloc: Global) -> Result<ValueBytes, NoMemory> {
    Ok(Items::from_vec(VALUE.to_vec(alloc)?))
}

// The messages of these numbers arrive.
fn deliver(world: &mut PaxosWorld, numbers: &[u64]) -> Result<(), NoMemory> {
    for number in numbers {
        world.step(&PaxosEvent::Deliver(*number))?;
    }
    Ok(())
}

// Whether this asks the replica to vote for the value at ballot 6, slot 0.
fn asks_for_the_value(mail: &Mail, target: u8) -> bool {
    match &mail.body {
        Body::Accept {
            ballot,
            slot,
            value,
        } => {
            mail.sender == 1
                && mail.target == target
                && *ballot == 6
                && *slot == 0
                && value.as_value().as_bytes() == VALUE
        }
        _ => false,
    }
}

// Whether this is a Prepare of the ballot.
fn prepares(mail: &Mail, wanted: u64) -> bool {
    match &mail.body {
        Body::Prepare { ballot } => *ballot == wanted,
        _ => false,
    }
}

#[test]
fn a_value_is_inherited_at_ballot_6(rt: HostRuntime) -> Result<(), Fail> {
    let mut world = PaxosWorld::new(rt.alloc());
    world.step(&PaxosEvent::Campaign(0))?;
    deliver(&mut world, &[1, 3, 4, 6, 7, 8])?;
    world.step(&PaxosEvent::Offer(0, value(rt.alloc())?))?;
    deliver(&mut world, &[11])?;
    world.step(&PaxosEvent::Crash(0, false))?;
    world.step(&PaxosEvent::Campaign(1))?;
    deliver(&mut world, &[16, 17, 18, 20, 21, 22])?;
    assert_eq!(rt; world.posts().len(), 27);
    let mut target = 0u8;
    for post in world.posts().iter().skip(22) {
        assert!(rt; asks_for_the_value(&post.mail, target));
        target = target.saturating_add(1);
    }
    assert!(rt; world.learned(1, 0).is_none());
    deliver(&mut world, &[24, 25, 26, 28, 29, 30])?;
    let Some((ballot, learned)) = world.learned(1, 0) else {
        return Err(Fail::from("nothing was learned"));
    };
    assert_eq!(rt; ballot, 6);
    assert_eq!(rt; learned.as_bytes(), VALUE);
    assert!(rt; world.learned(1, 1).is_none());
    Ok(())
}

#[test]
fn a_message_that_was_never_sent(rt: HostRuntime) -> Result<(), Fail> {
    let mut world = PaxosWorld::new(rt.alloc());
    deliver(&mut world, &[1, 0])?;
    assert!(rt; world.posts().is_empty());
    world.step(&PaxosEvent::Campaign(0))?;
    assert_eq!(rt; world.posts().len(), 5);
    deliver(&mut world, &[1, 7])?;
    assert_eq!(rt; world.posts().len(), 6);
    Ok(())
}

#[test]
fn what_a_replica_promised_outlasts_a_crash(rt: HostRuntime) -> Result<(), Fail> {
    for keep in [false, true] {
        let mut world = PaxosWorld::new(rt.alloc());
        world.step(&PaxosEvent::Campaign(0))?;
        world.step(&PaxosEvent::Crash(1, keep))?;
        assert_eq!(rt; world.posts().len(), 5);
        world.step(&PaxosEvent::Campaign(1))?;
        let Some(post) = world.posts().get(5) else {
            return Err(Fail::from("nothing was said"));
        };
        assert!(rt; prepares(&post.mail, if keep { 11 } else { 6 }));
    }
    Ok(())
}
