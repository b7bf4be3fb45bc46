use crate::append_generated;
use std::alloc::{AllocError, Global};
use std::test::Fail;

/// How long the configuration is, with its line end.
const FRONT: usize = 576;

/// What is generated, from a byte on.
fn generated_from(
    alloc: Global,
    number: u64,
    count: u64,
    from: usize,
) -> Result<Vec<u8>, AllocError> {
    if count > 99_996 {
        return Err(AllocError);
    }
    let mut out = String::new(alloc);
    append_generated(alloc, &mut out, number, count)?;
    let bytes = out.as_bytes();
    if bytes.len() < from {
        return Err(AllocError);
    }
    bytes[from..].to_vec(alloc)
}

#[test]
fn thirteen_lines_of_7(rt: HostRuntime) -> Result<(), Fail> {
    let lines = generated_from(rt.alloc(), 7, 13, FRONT)?;
    assert_eq!(rt;
        lines.as_slice(),
        b"---\n\
          tick mux 0 1000\n\
          tick mux 1 1000\n\
          tick replica 0 1000\n\
          settle 50\n\
          tick replica 0 1100\n\
          restart replica 2\n\
          settle 3\n\
          restart replica 0\n\
          settle 2\n\
          settle 8\n\
          inject agent 1 10.1.0.5:9000 024500001e00000000401146940a010005c633640213950035000a00006869\n\
          restart replica 3\n\
          restart replica 4\n\
          inject agent 0 10.1.0.4:9000 024500001e00000000401146930a010004c633640413880035000a00006869\n\
          settle 2\n\
          tick mux 1 1200\n\
          tick agent 1 1300\n"
            .as_slice()
    );
    Ok(())
}

#[test]
fn no_lines_of_7(rt: HostRuntime) -> Result<(), Fail> {
    let lines = generated_from(rt.alloc(), 7, 0, FRONT)?;
    assert_eq!(rt;
        lines.as_slice(),
        b"---\ntick mux 0 1000\ntick mux 1 1000\ntick replica 0 1000\nsettle 50\n".as_slice()
    );
    Ok(())
}
