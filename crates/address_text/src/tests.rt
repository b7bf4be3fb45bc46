use crate::{read_address, read_number, read_socket, write_address};
use std::test::Fail;
use wire_core::{Ip4, Socket};

#[test]
fn numbers(rt: HostRuntime) -> Result<(), Fail> {
    for (text, wanted) in [
        ("0", Some(0)),
        ("65535", Some(65535)),
        ("65536", None),
        ("00", None),
        ("01", None),
        ("", None),
        ("-1", None),
        ("+1", None),
        ("1 ", None),
        ("18446744073709551616", None),
    ] {
        assert_eq!(rt; read_number(text.as_bytes(), 65535), wanted, "{text:?}");
    }
    assert_eq!(rt;
        read_number(b"18446744073709551615", u64::MAX),
        Some(u64::MAX)
    );
    Ok(())
}

#[test]
fn addresses(rt: HostRuntime) -> Result<(), Fail> {
    for (text, wanted) in [
        ("192.0.2.10", Some(Ip4(0xc000_020a))),
        ("0.0.0.0", Some(Ip4(0))),
        ("255.255.255.255", Some(Ip4(u32::MAX))),
        ("10.1.0", None),
        ("10.1.0.4.5", None),
        ("10.1.0.256", None),
        ("10.01.0.4", None),
        ("10.1..4", None),
    ] {
        assert_eq!(rt; read_address(text.as_bytes()), wanted, "{text:?}");
    }
    let mut out = String::new(rt.alloc());
    write_address(&mut out, Ip4(0xc000_020a))?;
    assert_eq!(rt; out.as_bytes(), b"192.0.2.10".as_slice());
    Ok(())
}

#[test]
fn sockets(rt: HostRuntime) -> Result<(), Fail> {
    let socket = Socket {
        ip: Ip4(0x0a00_0001),
        port: 7000,
    };
    assert_eq!(rt; read_socket(b"10.0.0.1:7000"), Some(socket));
    for text in [
        "10.0.0.1:0",
        "10.0.0.1:65536",
        "10.0.0.1:",
        "10.0.0.1",
        "10.0.0.1:70:00",
    ] {
        assert_eq!(rt; read_socket(text.as_bytes()), None, "{text:?}");
    }
    Ok(())
}
