use crate::{PlainFault, plain_lines};
use std::alloc::{AllocError, Global};
use std::test::Fail;

#[test]
fn the_worked_schedule(rt: HostRuntime) -> Result<(), Fail> {
    let text = b"plain\n\
          # a comment\n\
          \n\
          vip 192.0.2.10 1024 1039\n\
          ask 192.0.2.10 10.1.0.4\n\
          ask 192.0.2.10 10.1.0.5\n\
          ask 192.0.2.10 10.1.0.6\n\
          return 17\n\
          return 17\n\
          ask 192.0.2.10 10.1.0.6";
    let Ok(lines) = plain_lines(rt.alloc(), text) else {
        return Err(Fail::from("refused"));
    };
    assert_eq!(rt;
        lines.as_bytes(),
        b"leased 1 1024\nleased 17 1032\nexhausted 33\nfreed 17\nunknown 17\nleased 65 1032\n".as_slice()
    );
    Ok(())
}

#[test]
fn lines_that_are_none(rt: HostRuntime) -> Result<(), Fail> {
    for (text, number) in [
        ("plain\nvip 192.0.2.10 1024 1030", 2),
        ("plain\nvip  192.0.2.10 1024 1039", 2),
        ("plain\nvip 192.0.2.10 1024 1039\r", 2),
        ("plain\nvip 192.0.2.10 1024 1039 ", 2),
        ("plain\n\nask 192.0.2.10", 3),
        ("plain\nreturn", 2),
        ("plain\nreturn 18446744073709551616", 2),
        ("plain\n #", 2),
        ("plain\npacket", 2),
        ("plain\npacket 450", 2),
        ("plain\nreply 4g", 2),
        ("Plain", 1),
    ] {
        match plain_lines(rt.alloc(), text.as_bytes()) {
            Err(PlainFault::Line(line)) => assert_eq!(rt; line, number, "{text:?}"),
            _ => return Err(Fail::from("taken")),
        }
    }
    Ok(())
}

#[test]
fn a_packet_and_its_reply(rt: HostRuntime) -> Result<(), Fail> {
    let Ok(lines) = plain_lines(
        rt.alloc(),
        b"plain\n\
          vip 192.0.2.10 1024 1039\n\
          ask 192.0.2.10 10.1.0.4\n\
          packet 4500001e000100004011468f0a010004c633640713880035000a4f746869\n\
          reply 4500001e0002000038119688c6336407c000020a00350400000a9ff46f6b\n\
          return 1\n\
          reply 4500001e0002000038119688c6336407c000020a00350400000a9ff46f6b",
    ) else {
        return Err(Fail::from("refused"));
    };
    assert_eq!(rt;
        lines.as_bytes(),
        b"leased 1 1024\n\
          public 4500001e0001000040118e89c000020ac633640704000035000aa6f66869\n\
          machine 10.1.0.4 4500001e0002000037114f8ec63364070a01000400351388000a48726f6b\n\
          freed 1\n\
          drop NoConnection\n"
            .as_slice()
    );
    Ok(())
}

#[test]
fn one_port_for_two_remote_ends(rt: HostRuntime) -> Result<(), Fail> {
    let Ok(lines) = plain_lines(
        rt.alloc(),
        b"plain\n\
          vip 192.0.2.10 1024 1039\n\
          ask 192.0.2.10 10.1.0.4\n\
          packet 4500001e000100004011468f0a010004c633640713880035000a00006869\n\
          packet 4500001e000200004011468d0a010004c633640813880035000a00006869\n\
          packet 4500001e000300004011468d0a010004c633640713890035000a00006869",
    ) else {
        return Err(Fail::from("refused"));
    };
    assert_eq!(rt;
        lines.as_bytes(),
        b"leased 1 1024\n\
          public 4500001e0001000040118e89c000020ac633640704000035000a00006869\n\
          public 4500001e0002000040118e87c000020ac633640804000035000a00006869\n\
          public 4500001e0003000040118e87c000020ac633640704010035000a00006869\n"
            .as_slice()
    );
    Ok(())
}

#[test]
fn packets_that_are_dropped(rt: HostRuntime) -> Result<(), Fail> {
    let Ok(lines) = plain_lines(
        rt.alloc(),
        b"plain\n\
          vip 192.0.2.10 1024 1039\n\
          ask 192.0.2.10 10.1.0.4\n\
          packet 4500001e000100004011468f0a010004c633640713880035000a4f756869\n\
          packet 4500001e00090000401146820a010009c633640713880035000a00006869\n\
          packet 45",
    ) else {
        return Err(Fail::from("refused"));
    };
    assert_eq!(rt;
        lines.as_bytes(),
        b"leased 1 1024\ndrop BadSum\ndrop NotMine\ndrop IpShort\n".as_slice()
    );
    Ok(())
}

fn send(text: &mut String, sport: u16) -> Result<(), AllocError> {
    writeln!(
        text,
        "packet 4500001e000100004011468f0a010004c6336407{sport:04x}0035000a00006869"
    )
}

fn sent(text: &mut String, sport: u16) -> Result<(), AllocError> {
    writeln!(
        text,
        "public 4500001e0001000040118e89c000020ac6336407{sport:04x}0035000a00006869"
    )
}

/// Whether a text of less than a megabyte prints this.
fn prints(alloc: Global, text: &[u8], wanted: &[u8]) -> bool {
    if text.len() >= 1 << 20 {
        return false;
    }
    match plain_lines(alloc, text) {
        Ok(lines) => lines.as_bytes() == wanted,
        Err(_) => false,
    }
}

#[test]
fn leases_that_are_full_and_end(rt: HostRuntime) -> Result<(), Fail> {
    let alloc = rt.alloc();
    let mut text = String::from_str(alloc, "plain\nvip 192.0.2.10 1024 1039\n")?;
    text.push_str("ask 192.0.2.10 10.1.0.4\nask 192.0.2.10 10.1.0.4\n")?;
    let mut wanted = String::from_str(alloc, "leased 1 1024\nleased 17 1032\n")?;
    // Sixteen ports for sixteen connections, and none for one more.
    for i in 0..16 {
        send(&mut text, 5000 + i)?;
        sent(&mut wanted, 1024 + i)?;
    }
    send(&mut text, 5016)?;
    wanted.push_str("drop NoLease\n")?;
    // The first lease ends with its connections. The second is as full as before.
    text.push_str("return 1\n")?;
    send(&mut text, 5000)?;
    wanted.push_str("freed 1\ndrop NoLease\n")?;
    // The next lease comes after it, on the range that was given back.
    text.push_str("ask 192.0.2.10 10.1.0.4\n")?;
    send(&mut text, 5016)?;
    send(&mut text, 5008)?;
    wanted.push_str("leased 49 1024\n")?;
    sent(&mut wanted, 1024)?;
    sent(&mut wanted, 1032)?;
    // The second ends too, and its connection moves to the next port.
    text.push_str("return 17\n")?;
    send(&mut text, 5008)?;
    wanted.push_str("freed 17\n")?;
    sent(&mut wanted, 1025)?;
    let printed = prints(alloc, text.as_bytes(), wanted.as_bytes());
    assert!(rt; printed);
    Ok(())
}
