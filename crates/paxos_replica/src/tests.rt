// One replica among four that are told by hand.
use crate::{Replica, ReplicaStep, Said};
use paxos_spec::{Body, Stage};
use std::alloc::Global;
use std::test::Fail;
use wire_core::Value;

// One command: lease 7 is given back.
const VALUE: &[u8] = b"\x01\x03\x00\x00\x00\x00\x00\x00\x00\x07";

fn value() -> Result<Value<'static>, Fail> {
    match Value::read(VALUE) {
        Ok((value, _)) => Ok(value),
        Err(_) => Err(Fail::from("no value")),
    }
}

fn promise(ballot: u64) -> Body {
    Body::Promise {
        ballot,
        length: 0,
        vote: 0,
        value: None,
    }
}

// The replica takes the step, if there is one.
fn takes(replica: &mut Replica, step: Option<ReplicaStep>) -> Result<bool, Fail> {
    match step {
        None => Ok(false),
        Some(step) => {
            replica.take(step)?;
            Ok(true)
        }
    }
}

// Replica 0 hears this, and takes its step.
fn hears(replica: &mut Replica, from: u8, body: &Body) -> Result<bool, Fail> {
    if from >= 5 {
        return Err(Fail::from("no replica"));
    }
    let step = replica.on_message(0, from, body)?;
    takes(replica, step)
}

// Whether the value is the one that was learned at ballot 5, slot 0.
fn knows(replica: &Replica) -> bool {
    match replica.learned(0) {
        Some((ballot, value)) => ballot == 5 && value.as_bytes() == VALUE,
        None => false,
    }
}

// Whether this is Chosen of slot 0 at ballot 5, to these.
fn tells_the_value(step: &ReplicaStep, targets: &[u8]) -> bool {
    match step.said() {
        Some(said) => {
            said.recipients() == targets
                && match &said.body {
                    Body::Chosen {
                        slot,
                        ballot,
                        value,
                    } => *slot == 0 && *ballot == 5 && value.as_value().as_bytes() == VALUE,
                    _ => false,
                }
        }
        None => false,
    }
}

// A primary at ballot 5: itself, 2 and 3 promised.
fn primary(alloc: Global) -> Result<Replica, Fail> {
    let mut replica = Replica::new(alloc);
    let step = replica.campaign(0)?;
    takes(&mut replica, step)?;
    for from in [0, 2, 3] {
        hears(&mut replica, from, &promise(5))?;
    }
    Ok(replica)
}

// A late Promise, an offer, and two Accepted of which the second comes twice: which of them count.
fn counted(replica: &mut Replica) -> Result<[bool; 5], Fail> {
    let accepted = Body::Accepted { ballot: 5, slot: 0 };
    let late = hears(replica, 4, &promise(5))?;
    let step = replica.offer(0, &value()?)?;
    let offered = takes(replica, step)?;
    let first = hears(replica, 0, &accepted)?;
    let second = hears(replica, 2, &accepted)?;
    let again = hears(replica, 2, &accepted)?;
    Ok([late, offered, first, second, again])
}

// The third Accepted: whether the value is told to the others and known.
fn chooses(replica: &mut Replica) -> Result<bool, Fail> {
    match replica.on_accepted(0, 3, 5, 0)? {
        None => Ok(false),
        Some(step) => {
            let told = tells_the_value(&step, &[1, 2, 3, 4]);
            replica.take(step)?;
            Ok(told && knows(replica) && replica.is_idle())
        }
    }
}

fn a_round(replica: &mut Replica) -> Result<([bool; 5], bool), Fail> {
    let counted = counted(replica)?;
    let chosen = chooses(replica)?;
    Ok((counted, chosen))
}

#[test]
fn a_value_is_chosen(rt: HostRuntime) -> Result<(), Fail> {
    let mut replica = primary(rt.alloc())?;
    let stage = replica.stage();
    let round = a_round(&mut replica)?;
    drop(replica);
    assert_eq!(rt; stage, Stage::Primary);
    assert_eq!(rt; round, ([false, true, true, true, false], true));
    Ok(())
}

// The bytes of the step's entry, empty without one.
fn durable(alloc: Global, step: &ReplicaStep) -> Result<Vec<u8>, Fail> {
    let mut out = Vec::new(alloc);
    if let Some(entry) = step.entry() {
        entry.write(&mut out)?;
    }
    Ok(out)
}

// Whether this asks one replica for the slot.
fn fetches(said: Option<&Said>, target: u8, wanted: u64) -> bool {
    match said {
        Some(said) => {
            said.recipients() == [target].as_slice()
                && match &said.body {
                    Body::Fetch { slot } => *slot == wanted,
                    _ => false,
                }
        }
        None => false,
    }
}

// Whether the ballot is refused by this promise.
fn refuses(step: &ReplicaStep, wanted: u64) -> bool {
    match step.said() {
        Some(said) => match &said.body {
            Body::Refuse { promised, .. } => *promised == wanted,
            _ => false,
        },
        None => false,
    }
}

// What a vote for the value at ballot 6 makes durable, empty without one; the replica takes it.
fn votes(alloc: Global, replica: &mut Replica) -> Result<Vec<u8>, Fail> {
    match replica.on_accept(4, 1, 6, 0, &value()?)? {
        None => Ok(Vec::new(alloc)),
        Some(step) => {
            let entry = durable(alloc, &step)?;
            replica.take(step)?;
            Ok(entry)
        }
    }
}

// Whether an Accept of the slot counts.
fn is_voted(replica: &Replica) -> Result<bool, Fail> {
    let step = replica.on_accept(4, 1, 6, 0, &value()?)?;
    Ok(step.is_some())
}

// Whether a Fetch of the slot is answered with the value.
fn is_told(replica: &Replica, slot: u64) -> Result<bool, Fail> {
    match replica.on_fetch(4, 3, slot)? {
        None => Ok(false),
        Some(step) => Ok(tells_the_value(&step, &[3])),
    }
}

// The value is learned: whether it counts and is known, an Accept of its slot counts, and it is told, slots 0 and 1.
fn learns(replica: &mut Replica) -> Result<[bool; 5], Fail> {
    let step = replica.on_chosen(4, 1, 0, 5, &value()?)?;
    let learned = takes(replica, step)?;
    let known = knows(replica);
    let voted = is_voted(replica)?;
    let told = is_told(replica, 0)?;
    let next = is_told(replica, 1)?;
    Ok([learned, known, voted, told, next])
}

#[test]
fn a_vote_is_durable(rt: HostRuntime) -> Result<(), Fail> {
    let mut replica = Replica::new(rt.alloc());
    let entry = votes(rt.alloc(), &mut replica)?;
    let promised = replica.promised();
    drop(replica);
    assert_eq!(rt;
        entry.as_slice(),
        b"\x03\0\0\0\0\0\0\0\x06\x01\x03\0\0\0\0\0\0\0\x07".as_slice()
    );
    assert_eq!(rt; promised, 6);
    Ok(())
}

#[test]
fn what_was_learned_is_told(rt: HostRuntime) -> Result<(), Fail> {
    let mut replica = Replica::new(rt.alloc());
    let learns = learns(&mut replica)?;
    drop(replica);
    assert_eq!(rt; learns, [true, true, false, true, false]);
    Ok(())
}

// A Lead of a ballot below the promise is refused; one above it is heard, and its longer log is fetched.
fn hears_leads(replica: &mut Replica) -> Result<bool, Fail> {
    let lower = replica.on_lead(0, 1, 4, 9)?;
    let refused = refuses(&lower, 5);
    drop(lower);
    let step = replica.on_lead(0, 1, 6, 9)?;
    let fetched = fetches(step.said(), 1, 0);
    replica.take(step)?;
    Ok(
        refused
            && fetched
            && replica.goal() == 9
            && replica.seen() == 6
            && replica.stage() == Stage::Primary,
    )
}

// An epoch above its ballot ends its lead. The next candidacy is above all that it heard of: (11 / 5 + 1) * 5.
fn runs_again(replica: &mut Replica) -> Result<bool, Fail> {
    replica.on_epoch(11);
    let down = replica.stage() == Stage::Follower && replica.seen() == 11;
    let step = replica.campaign(0)?;
    let runs = takes(replica, step)?;
    Ok(down && runs && replica.ballot() == 15)
}

fn is_deposed(replica: &mut Replica) -> Result<(bool, bool), Fail> {
    let heard = hears_leads(replica)?;
    let again = runs_again(replica)?;
    Ok((heard, again))
}

#[test]
fn another_leads(rt: HostRuntime) -> Result<(), Fail> {
    let mut replica = primary(rt.alloc())?;
    let deposed = is_deposed(&mut replica)?;
    drop(replica);
    assert_eq!(rt; deposed, (true, true));
    Ok(())
}
