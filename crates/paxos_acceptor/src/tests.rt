use crate::{AcceptStep, Acceptor, ChosenStep, PrepareStep};
use std::alloc::{AllocError, Global};
use std::test::Fail;
use wire_core::{Entry, Value};

/// The value with the one command Release 1, and that with Release 2.
const RELEASE_1: &[u8] = b"\x01\x03\0\0\0\0\0\0\0\x01";

const RELEASE_2: &[u8] = b"\x01\x03\0\0\0\0\0\0\0\x02";

fn value(bytes: &[u8]) -> Result<Value<'_>, Fail> {
    match Value::read(bytes) {
        Ok((value, _)) => Ok(value),
        Err(_) => Err(Fail::from("no value")),
    }
}

/// Whether the two are this ballot and the value of these bytes.
fn is_cast(kept: Option<(u64, Value<'_>)>, ballot: u64, bytes: &[u8]) -> bool {
    match kept {
        Some(cast) => cast.0 == ballot && cast.1.as_bytes() == bytes,
        None => false,
    }
}

/// The spelling of the last step's entry, empty without one.
fn durable(alloc: Global, acceptor: &Acceptor) -> Result<Vec<u8>, AllocError> {
    let mut out = Vec::new(alloc);
    if let Some(entry) = acceptor.durable_entry() {
        entry.write(&mut out)?;
    }
    Ok(out)
}

#[test]
fn what_is_learned_raises_the_promise(rt: HostRuntime) -> Result<(), Fail> {
    let mut acceptor = Acceptor::new(rt.alloc());
    let v = value(RELEASE_1)?;
    assert_eq!(rt; acceptor.on_chosen(0, 7, &v)?, ChosenStep::Learned);
    assert_eq!(rt; acceptor.promised(), 7);
    assert_eq!(rt; acceptor.on_prepare(5), PrepareStep::Refuse { promised: 7 });
    Ok(())
}

#[test]
fn promised(rt: HostRuntime) -> Result<(), Fail> {
    let alloc = rt.alloc();
    let mut acceptor = Acceptor::new(alloc);
    assert_eq!(rt; acceptor.on_prepare(5), PrepareStep::Promise);
    assert_eq!(rt;
        durable(alloc, &acceptor)?.as_slice(),
        b"\x02\0\0\0\0\0\0\0\x05".as_slice()
    );
    assert_eq!(rt; acceptor.on_prepare(5), PrepareStep::Again);
    assert!(rt; acceptor.durable_entry().is_none());
    assert_eq!(rt; acceptor.on_prepare(4), PrepareStep::Refuse { promised: 5 });
    Ok(())
}

#[test]
fn voted(rt: HostRuntime) -> Result<(), Fail> {
    let alloc = rt.alloc();
    let v = value(RELEASE_1)?;
    let mut acceptor = Acceptor::new(alloc);
    assert_eq!(rt; acceptor.on_prepare(5), PrepareStep::Promise);
    assert_eq!(rt;
        acceptor.on_accept(4, 0, &v)?,
        AcceptStep::Refuse { promised: 5 }
    );
    assert_eq!(rt;
        acceptor.on_accept(5, 1, &v)?,
        AcceptStep::Behind { length: 0 }
    );
    assert_eq!(rt; acceptor.on_accept(6, 0, &v)?, AcceptStep::Voted);
    assert_eq!(rt; acceptor.promised(), 6);
    assert!(rt; is_cast(acceptor.vote(), 6, RELEASE_1));
    assert_eq!(rt;
        durable(alloc, &acceptor)?.as_slice(),
        b"\x03\0\0\0\0\0\0\0\x06\x01\x03\0\0\0\0\0\0\0\x01".as_slice()
    );
    assert_eq!(rt; acceptor.on_accept(6, 0, &v)?, AcceptStep::Again);
    Ok(())
}

#[test]
fn learned(rt: HostRuntime) -> Result<(), Fail> {
    let alloc = rt.alloc();
    let w = value(RELEASE_2)?;
    let mut acceptor = Acceptor::new(alloc);
    assert_eq!(rt;
        acceptor.on_accept(6, 0, &value(RELEASE_1)?)?,
        AcceptStep::Voted
    );
    assert_eq!(rt;
        acceptor.on_chosen(1, 6, &w)?,
        ChosenStep::Behind { length: 0 }
    );
    assert_eq!(rt; acceptor.on_chosen(0, 6, &w)?, ChosenStep::Learned);
    assert_eq!(rt;
        durable(alloc, &acceptor)?.as_slice(),
        b"\x04\0\0\0\0\0\0\0\x06\x01\x03\0\0\0\0\0\0\0\x02".as_slice()
    );
    assert!(rt; acceptor.vote().is_none());
    assert!(rt; is_cast(acceptor.entry(0), 6, RELEASE_2));
    assert!(rt; acceptor.entry(1).is_none());
    assert_eq!(rt; acceptor.on_chosen(0, 6, &w)?, ChosenStep::Late);
    assert_eq!(rt; acceptor.on_accept(6, 0, &w)?, AcceptStep::Late);
    Ok(())
}

#[test]
fn recovered_from_its_entries(rt: HostRuntime) -> Result<(), Fail> {
    let mut acceptor = Acceptor::new(rt.alloc());
    acceptor.recover(&Entry::Boot {
        version: 1,
        role: 1,
        index: 0,
        boot: 1,
    })?;
    acceptor.recover(&Entry::Promise { ballot: 5 })?;
    acceptor.recover(&Entry::Vote {
        ballot: 6,
        value: value(RELEASE_1)?,
    })?;
    assert_eq!(rt; acceptor.promised(), 6);
    assert!(rt; is_cast(acceptor.vote(), 6, RELEASE_1));
    acceptor.recover(&Entry::Learn {
        ballot: 5,
        value: value(RELEASE_2)?,
    })?;
    assert_eq!(rt; acceptor.promised(), 6);
    assert!(rt; acceptor.vote().is_none());
    assert!(rt; is_cast(acceptor.entry(0), 5, RELEASE_2));
    assert_eq!(rt; acceptor.length(), 1);
    assert!(rt; acceptor.durable_entry().is_none());
    Ok(())
}
