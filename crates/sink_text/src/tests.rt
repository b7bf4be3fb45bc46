use crate::{pass_on, write_all};
use outside_io::MemSink;
use std::test::Fail;

#[test]
fn a_sink_that_takes_little(rt: HostRuntime) -> Result<(), Fail> {
    let alloc = rt.alloc();
    let mut out = MemSink::new(Vec::new(alloc), 3, Vec::new(alloc));
    assert!(rt; write_all(&mut out, b"leased 1 1024\n").is_ok());
    let mut text = String::from_str(alloc, "freed 1\n")?;
    assert!(rt; pass_on(&mut out, &mut text).is_ok());
    assert_eq!(rt; out.bytes(), b"leased 1 1024\nfreed 1\n".as_slice());
    assert_eq!(rt; text.len(), 0);
    Ok(())
}

#[test]
fn a_sink_that_fails(rt: HostRuntime) -> Result<(), Fail> {
    let alloc = rt.alloc();
    let mut out = MemSink::new(Vec::new(alloc), 3, [2].to_vec(alloc)?);
    let mut text = String::from_str(alloc, "leased 1 1024\n")?;
    assert!(rt; pass_on(&mut out, &mut text).is_err());
    assert_eq!(rt; out.bytes(), b"leased".as_slice());
    assert_eq!(rt; text.as_str(), "leased 1 1024\n");
    Ok(())
}
