use crate::{
    Buf, IpFault, UnwrapFault, WrapFault, can_wrap, can_wrap_local, unwrap, wrap, wrap_in_place,
    wrap_local,
};
use ip_codec::{Ip4Header, Ip4View, write_header};
use std::alloc::{AllocError, Global};
use std::test::Fail;
use wire_core::Ip4;

const MUX: Ip4 = Ip4(0x0a09_0001);

const MACHINE: Ip4 = Ip4(0x0a01_0004);

/// A reply to the VIP in the worked run, and the same packet as the mux sends it on to the machine's host.
const REPLY: [u8; 30] =
    *b"\x45\0\0\x1e\0\x02\0\0\x38\x11\x96\x88\xc6\x33\x64\x07\xc0\0\x02\x0a\0\x35\x04\0\0\x0a\x9f\xf4ok";

const WRAPPED: [u8; 50] = *b"\x45\0\0\x32\0\0\x40\0\x40\x04\x26\xba\x0a\x09\0\x01\x0a\x01\0\x04\
\x45\0\0\x1e\0\x02\0\0\x37\x11\x97\x88\xc6\x33\x64\x07\xc0\0\x02\x0a\0\x35\x04\0\0\x0a\x9f\xf4ok";

/// A UDP packet of so many bytes, all zeros behind the header.
fn packet(alloc: Global, total: u16, ttl: u8) -> Result<Vec<u8>, AllocError> {
    let header = Ip4Header {
        tos: 0,
        total,
        id: 0,
        df: false,
        ttl,
        proto: 17,
        src: Ip4(0xc633_6407),
        dst: Ip4(0xc000_020a),
    };
    let mut front = [0; 20];
    write_header(&header, &mut front);
    let mut bytes = front.to_vec(alloc)?;
    bytes.resize(usize::from(total), 0)?;
    Ok(bytes)
}

/// What `wrap`, or else `wrap_local`, refuses the packet for.
fn fault_of(bytes: &[u8], forwarded: bool, out: &mut Buf) -> Result<Option<WrapFault>, Fail> {
    let Ok(inner) = Ip4View::read(bytes) else {
        return Err(Fail::from("faulty"));
    };
    let wrapped = if forwarded {
        wrap(MUX, MACHINE, &inner, out)
    } else {
        wrap_local(MUX, MACHINE, &inner, out)
    };
    match wrapped {
        Ok(()) => Ok(None),
        Err(fault) => Ok(Some(fault)),
    }
}

#[test]
fn a_reply_is_sent_on(rt: HostRuntime) -> Result<(), Fail> {
    let mut out = Buf::new(rt.alloc())?;
    assert_eq!(rt; out.bytes().len(), 0);
    assert_eq!(rt; fault_of(&REPLY, true, &mut out)?, None);
    assert_eq!(rt; out.bytes(), WRAPPED.as_slice());
    let Ok(inner) = unwrap(&WRAPPED) else {
        return Err(Fail::from("refused"));
    };
    assert_eq!(rt; inner.outer_src, MUX);
    assert_eq!(rt; inner.outer_dst, MACHINE);
    assert_eq!(rt; inner.bytes, &WRAPPED[20..]);
    Ok(())
}

#[test]
fn times_to_live(rt: HostRuntime) -> Result<(), Fail> {
    let mut out = Buf::new(rt.alloc())?;
    assert_eq!(rt;
        fault_of(&packet(rt.alloc(), 28, 64)?, true, &mut out)?,
        None
    );
    assert_eq!(rt;
        out.bytes().get(..20),
        Some(b"\x45\0\0\x30\0\0\x40\0\x40\x04\x26\xbc\x0a\x09\0\x01\x0a\x01\0\x04".as_slice())
    );
    assert_eq!(rt; out.bytes().get(28).copied(), Some(63));
    assert_eq!(rt;
        fault_of(&packet(rt.alloc(), 28, 1)?, true, &mut out)?,
        Some(WrapFault::TtlOut)
    );
    assert_eq!(rt; out.bytes().get(28).copied(), Some(63));
    assert_eq!(rt;
        fault_of(&packet(rt.alloc(), 28, 64)?, false, &mut out)?,
        None
    );
    assert_eq!(rt; out.bytes().get(28).copied(), Some(64));
    assert_eq!(rt;
        fault_of(&packet(rt.alloc(), 28, 1)?, false, &mut out)?,
        None
    );
    assert_eq!(rt; out.bytes().get(28).copied(), Some(1));
    assert_eq!(rt;
        fault_of(&packet(rt.alloc(), 28, 0)?, false, &mut out)?,
        Some(WrapFault::TtlOut)
    );
    Ok(())
}

#[test]
fn lengths(rt: HostRuntime) -> Result<(), Fail> {
    let mut out = Buf::new(rt.alloc())?;
    assert_eq!(rt;
        fault_of(&packet(rt.alloc(), 65_000, 2)?, true, &mut out)?,
        None
    );
    assert_eq!(rt; out.bytes().len(), 65_020);
    assert_eq!(rt;
        fault_of(&packet(rt.alloc(), 65_001, 1)?, true, &mut out)?,
        Some(WrapFault::TooLong)
    );
    assert_eq!(rt;
        fault_of(&packet(rt.alloc(), 65_001, 0)?, false, &mut out)?,
        Some(WrapFault::TooLong)
    );
    Ok(())
}

/// What `unwrap` refuses the bytes for.
fn unwrap_fault(bytes: &[u8]) -> Option<UnwrapFault> {
    match unwrap(bytes) {
        Ok(_) => None,
        Err(fault) => Some(fault),
    }
}

#[test]
fn faults_of_unwrapping(rt: HostRuntime) -> Result<(), Fail> {
    assert_eq!(rt; unwrap_fault(&REPLY), Some(UnwrapFault::NotIpip));
    assert_eq!(rt;
        unwrap_fault(&WRAPPED[..19]),
        Some(UnwrapFault::Ip(IpFault::Short))
    );
    assert_eq!(rt;
        unwrap_fault(&WRAPPED[..49]),
        Some(UnwrapFault::Ip(IpFault::TotalLength))
    );
    assert_eq!(rt; unwrap_fault(&WRAPPED[20..]), Some(UnwrapFault::NotIpip));
    Ok(())
}

/// What forbids it to forward the packet, and to send it from here.
fn forbidden(bytes: &[u8]) -> Result<(Option<WrapFault>, Option<WrapFault>), Fail> {
    let Ok(inner) = Ip4View::read(bytes) else {
        return Err(Fail::from("faulty"));
    };
    Ok((can_wrap(&inner).err(), can_wrap_local(&inner).err()))
}

#[test]
fn asked_beforehand(rt: HostRuntime) -> Result<(), Fail> {
    let out = Some(WrapFault::TtlOut);
    assert_eq!(rt; forbidden(&packet(rt.alloc(), 28, 2)?)?, (None, None));
    assert_eq!(rt; forbidden(&packet(rt.alloc(), 28, 1)?)?, (out, None));
    assert_eq!(rt; forbidden(&packet(rt.alloc(), 28, 0)?)?, (out, out));
    let long = Some(WrapFault::TooLong);
    assert_eq!(rt; forbidden(&packet(rt.alloc(), 65_001, 0)?)?, (long, long));
    Ok(())
}

/// The packet wrapped behind 20 bytes that were left for it.
fn wrapped_in_place(alloc: Global, bytes: &[u8]) -> Result<Vec<u8>, Fail> {
    let Ok(inner) = Ip4View::read(bytes) else {
        return Err(Fail::from("faulty"));
    };
    let mut frame = [0; 20].to_vec(alloc)?;
    frame.extend_from_slice(inner.whole())?;
    match wrap_in_place(MUX, MACHINE, frame.as_mut_slice()) {
        Ok(()) => Ok(frame),
        Err(_) => Err(Fail::from("refused")),
    }
}

#[test]
fn wrapped_where_it_lies(rt: HostRuntime) -> Result<(), Fail> {
    let frame = wrapped_in_place(rt.alloc(), &WRAPPED[20..])?;
    assert_eq!(rt; frame.as_slice(), WRAPPED.as_slice());
    Ok(())
}
