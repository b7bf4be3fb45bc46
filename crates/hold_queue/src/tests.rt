use crate::HoldQueue;
use std::alloc::{AllocError, Global};
use std::test::Fail;

/// Holds a packet of this one byte. `None` where it comes back.
fn hold(alloc: Global, queue: &mut HoldQueue, byte: u8) -> Result<Option<usize>, AllocError> {
    let mut packet = Vec::new(alloc);
    packet.push(byte)?;
    match queue.hold(packet) {
        Ok(count) => Ok(Some(count)),
        Err(_) => Ok(None),
    }
}

/// Takes a packet and tells its first byte.
fn take(queue: &mut HoldQueue) -> Option<u8> {
    match queue.take() {
        Some(packet) => packet.first().copied(),
        None => None,
    }
}

/// Holds packets 0, 1 and so on until one comes back, and tells the last count and how many were held.
fn fill(alloc: Global, queue: &mut HoldQueue) -> Result<(usize, u8), AllocError> {
    let mut last = 0;
    for byte in 0..100u8 {
        match hold(alloc, queue, byte)? {
            Some(count) => last = count,
            None => return Ok((last, byte)),
        }
    }
    Ok((last, 100))
}

/// What a full queue gives first, second and third, where one more is held in between.
fn first_three(alloc: Global) -> Result<[Option<u8>; 3], AllocError> {
    let mut queue = HoldQueue::new(alloc)?;
    fill(alloc, &mut queue)?;
    let first = take(&mut queue);
    hold(alloc, &mut queue, 200)?;
    Ok([first, take(&mut queue), take(&mut queue)])
}

/// How many packets an empty queue takes.
fn room(alloc: Global) -> Result<(usize, u8), AllocError> {
    let mut queue = HoldQueue::new(alloc)?;
    fill(alloc, &mut queue)
}

#[test]
fn sixty_four_are_held(rt: HostRuntime) -> Result<(), Fail> {
    let room = room(rt.alloc())?;
    assert_eq!(rt; room, (64, 64));
    Ok(())
}

#[test]
fn the_oldest_leaves_first(rt: HostRuntime) -> Result<(), Fail> {
    let taken = first_three(rt.alloc())?;
    assert_eq!(rt; taken, [Some(0), Some(1), Some(2)]);
    Ok(())
}

#[test]
fn an_empty_queue_gives_none(rt: HostRuntime) -> Result<(), Fail> {
    let mut queue = HoldQueue::new(rt.alloc())?;
    let taken = take(&mut queue);
    let len = queue.len();
    drop(queue);
    assert_eq!(rt; (taken, len), (None, 0));
    Ok(())
}
