use crate::Mail;
use std::alloc::{AllocError, Global};
use std::test::Fail;
use wire_core::{Items, NodeId};

// Three datagrams of agent 0: to mux 1, out to the network, to replica 2.
fn post_three(alloc: Global, mail: &mut Mail) -> Result<(), AllocError> {
    mail.post(NodeId::Agent(0), Some(NodeId::Mux(1)), Items::new(alloc))?;
    mail.post(NodeId::Agent(0), None, Items::new(alloc))?;
    mail.post(
        NodeId::Agent(0),
        Some(NodeId::Replica(2)),
        Items::new(alloc),
    )
}

// The receiver of a datagram, where it was sent and goes to a node.
fn receiver(mail: &Mail, k: u64) -> Option<NodeId> {
    match mail.get(k) {
        Some(posted) => posted.to,
        None => None,
    }
}

// The first that waits, each time after the one before was taken, the second time also number 3.
fn story(
    alloc: Global,
) -> Result<(Option<u64>, Option<u64>, Option<u64>, Option<u64>), AllocError> {
    let mut mail = Mail::new(alloc);
    let none = mail.least();
    post_three(alloc, &mut mail)?;
    let first = mail.least();
    mail.take(1);
    let second = mail.least();
    mail.take(3);
    Ok((none, first, second, mail.least()))
}

#[test]
fn the_first_that_waits(rt: HostRuntime) -> Result<(), Fail> {
    let told = story(rt.alloc())?;
    assert_eq!(rt; told, (None, Some(1), Some(3), None));
    Ok(())
}

// Who gets the datagrams with the numbers 0 to 4.
fn receivers(alloc: Global) -> Result<[Option<NodeId>; 5], AllocError> {
    let mut mail = Mail::new(alloc);
    post_three(alloc, &mut mail)?;
    Ok([
        receiver(&mail, 0),
        receiver(&mail, 1),
        receiver(&mail, 2),
        receiver(&mail, 3),
        receiver(&mail, 4),
    ])
}

#[test]
fn numbers_begin_at_1(rt: HostRuntime) -> Result<(), Fail> {
    let told = receivers(rt.alloc())?;
    let want = [
        None,
        Some(NodeId::Mux(1)),
        None,
        Some(NodeId::Replica(2)),
        None,
    ];
    assert_eq!(rt; told, want);
    Ok(())
}
