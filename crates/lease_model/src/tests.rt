use crate::{Book, StepFault};
use std::alloc::{AllocError, Global};
use std::test::Fail;
use wire_core::{Act, Conn, Ip4, Items, LeaseRules, MachineRule, Proto, Range, VipRule};

const VIP: Ip4 = Ip4(0xc000_020a);

/// A machine of agent 0, and one of agent 1.
const FIRST: Ip4 = Ip4(0x0a01_0004);

const SECOND: Ip4 = Ip4(0x0a01_0005);

fn rules(alloc: Global) -> Result<LeaseRules, AllocError> {
    let mut vips = Items::new(alloc);
    vips.push(VipRule {
        vip: VIP,
        low: 1024,
        high: 1047,
        taken: Items::new(alloc),
    })?;
    let mut machines = Items::new(alloc);
    machines.push(MachineRule {
        machine: FIRST,
        agent: 0,
        vip: VIP,
    })?;
    machines.push(MachineRule {
        machine: SECOND,
        agent: 1,
        vip: VIP,
    })?;
    Ok(LeaseRules {
        vips,
        machines,
        limit: 2,
    })
}

fn reserve(n: u64, start: u16, machine: Ip4) -> Act {
    Act::Reserve {
        n,
        range: Range { vip: VIP, start },
        machine,
    }
}

fn conn(port: u16, sport: u16, machine: Ip4) -> Conn {
    Conn {
        vip: VIP,
        proto: Proto::Udp,
        port,
        remote: Ip4(0xc633_6407),
        rport: 53,
        machine,
        sport,
    }
}

/// 0 for a legal act, and else 100 and the number of the row that it clashes with, or 100 alone where there is none.
fn answer(book: &mut Book, act: Act) -> Result<u64, AllocError> {
    match book.step(&act) {
        Ok(()) => Ok(0),
        Err(StepFault::Illegal { act: _, kept: None }) => Ok(100),
        Err(
            StepFault::Illegal {
                act: _,
                kept: Some(row),
            },
        ) => Ok(row.n.saturating_add(100)),
        Err(StepFault::NoMemory) => Err(AllocError),
    }
}

/// A book with lease 1 on the first range for the first machine, granted and held.
fn held(alloc: Global) -> Result<Book, AllocError> {
    let mut book = Book::new(alloc, rules(alloc)?);
    answer(&mut book, reserve(1, 1024, FIRST))?;
    answer(&mut book, Act::Grant { n: 1 })?;
    answer(&mut book, Act::Hold { n: 1 })?;
    Ok(book)
}

/// The same with a connection.
fn used(alloc: Global) -> Result<Book, AllocError> {
    let mut book = held(alloc)?;
    let c = conn(1024, 5000, FIRST);
    answer(&mut book, Act::Open { c })?;
    Ok(book)
}

fn reserves(alloc: Global) -> Result<[u64; 8], AllocError> {
    let mut book = Book::new(alloc, rules(alloc)?);
    Ok([
        answer(&mut book, reserve(0, 1024, FIRST))?,
        answer(&mut book, reserve(1, 1032, FIRST))?,
        answer(&mut book, reserve(5, 1024, FIRST))?,
        answer(&mut book, reserve(5, 1032, FIRST))?,
        answer(&mut book, reserve(6, 1024, SECOND))?,
        answer(&mut book, reserve(6, 1032, FIRST))?,
        answer(&mut book, reserve(7, 1040, FIRST))?,
        answer(&mut book, reserve(7, 1040, Ip4(9)))?,
    ])
}

fn phases(alloc: Global) -> Result<[u64; 9], AllocError> {
    let mut book = Book::new(alloc, rules(alloc)?);
    answer(&mut book, reserve(1, 1024, FIRST))?;
    Ok([
        answer(&mut book, Act::Hold { n: 1 })?,
        answer(&mut book, Act::Freed { n: 1 })?,
        answer(&mut book, Act::Grant { n: 2 })?,
        answer(&mut book, Act::Grant { n: 1 })?,
        answer(&mut book, Act::Grant { n: 1 })?,
        answer(&mut book, Act::Free { n: 1 })?,
        answer(&mut book, Act::Free { n: 1 })?,
        answer(&mut book, Act::Freed { n: 1 })?,
        answer(&mut book, Act::Freed { n: 1 })?,
    ])
}

fn holds(alloc: Global) -> Result<[u64; 5], AllocError> {
    let mut book = held(alloc)?;
    Ok([
        answer(&mut book, Act::Hold { n: 1 })?,
        answer(&mut book, Act::Free { n: 1 })?,
        answer(&mut book, Act::Drop { n: 1 })?,
        answer(&mut book, Act::Drop { n: 1 })?,
        answer(&mut book, Act::Hold { n: 1 })?,
    ])
}

fn opens(alloc: Global) -> Result<[u64; 9], AllocError> {
    let mut book = used(alloc)?;
    let first = conn(1024, 5000, FIRST);
    Ok([
        answer(&mut book, Act::Open { c: first })?,
        answer(
            &mut book,
            Act::Open {
                c: conn(1024, 5001, FIRST),
            },
        )?,
        answer(
            &mut book,
            Act::Open {
                c: conn(1025, 5000, FIRST),
            },
        )?,
        answer(
            &mut book,
            Act::Open {
                c: conn(1025, 5001, SECOND),
            },
        )?,
        answer(
            &mut book,
            Act::Open {
                c: conn(1032, 5001, FIRST),
            },
        )?,
        answer(&mut book, Act::Drop { n: 1 })?,
        answer(&mut book, Act::Close { c: first })?,
        answer(&mut book, Act::Close { c: first })?,
        answer(&mut book, Act::Drop { n: 1 })?,
    ])
}

fn losses(alloc: Global) -> Result<[u64; 5], AllocError> {
    let mut book = used(alloc)?;
    let first = conn(1024, 5000, FIRST);
    Ok([
        answer(&mut book, Act::Lose { agent: 1 })?,
        answer(&mut book, Act::Hold { n: 1 })?,
        answer(&mut book, Act::Lose { agent: 0 })?,
        answer(&mut book, Act::Close { c: first })?,
        answer(&mut book, Act::Free { n: 1 })?,
    ])
}

#[test]
fn a_reserve_is_the_least_range_within_the_limit(rt: HostRuntime) -> Result<(), Fail> {
    assert_eq!(rt; reserves(rt.alloc())?, [100, 100, 0, 105, 105, 0, 105, 100]);
    Ok(())
}

#[test]
fn a_row_goes_through_its_phases(rt: HostRuntime) -> Result<(), Fail> {
    assert_eq!(rt;
        phases(rt.alloc())?,
        [101, 101, 100, 0, 101, 0, 101, 0, 100]
    );
    Ok(())
}

#[test]
fn a_number_is_held_once(rt: HostRuntime) -> Result<(), Fail> {
    assert_eq!(rt; holds(rt.alloc())?, [101, 101, 0, 101, 101]);
    Ok(())
}

#[test]
fn a_connection_has_its_keys_alone(rt: HostRuntime) -> Result<(), Fail> {
    assert_eq!(rt;
        opens(rt.alloc())?,
        [101, 101, 101, 101, 100, 101, 0, 101, 0]
    );
    Ok(())
}

#[test]
fn an_agent_that_is_lost_holds_nothing(rt: HostRuntime) -> Result<(), Fail> {
    assert_eq!(rt; losses(rt.alloc())?, [0, 101, 0, 101, 0]);
    Ok(())
}
