use crate::{Frame, Message, MessageFault, decode, encode};
use std::test::Fail;
use wire_core::Ip4;

/// What `decode` refuses the bytes for.
fn fault_of(bytes: &[u8]) -> Option<MessageFault> {
    match decode(bytes) {
        Ok(_) => None,
        Err(fault) => Some(fault),
    }
}

#[test]
fn faults_of_messages(rt: HostRuntime) -> Result<(), Fail> {
    assert_eq!(rt; fault_of(b""), Some(MessageFault::Short));
    assert_eq!(rt; fault_of(b"\x02"), Some(MessageFault::Short));
    assert_eq!(rt;
        fault_of(b"\x01\x01\0\0\0\0\0\0\0"),
        Some(MessageFault::Short)
    );
    assert_eq!(rt; fault_of(b"\x01\0"), Some(MessageFault::Kind));
    assert_eq!(rt; fault_of(b"\x01\x18"), Some(MessageFault::Kind));
    assert_eq!(rt; fault_of(b"\x02\x01"), Some(MessageFault::Field(0)));
    assert_eq!(rt;
        fault_of(b"\x01\x01\0\0\0\0\0\0\0\x05\0"),
        Some(MessageFault::Extra)
    );
    assert_eq!(rt; fault_of(b"\x01\x01\0\0\0\0\0\0\0\x05"), None);
    // a Denied for reason 3
    assert_eq!(rt;
        fault_of(b"\x01\x0a\0\0\0\0\0\0\0\x01\x0a\x01\0\x04\0\0\0\0\0\0\0\x01\x03"),
        Some(MessageFault::Field(22))
    );
    // a Redirect for side 2
    assert_eq!(rt; fault_of(b"\x01\x17\x02"), Some(MessageFault::Field(2)));
    // an Accept of a value without commands
    assert_eq!(rt;
        fault_of(b"\x01\x03\0\0\0\0\0\0\0\x05\0\0\0\0\0\0\0\0\0"),
        Some(MessageFault::Field(18))
    );
    // a Promise whose vote is 0 has no value
    assert_eq!(rt;
        fault_of(b"\x01\x02\0\0\0\0\0\0\0\x05\0\0\0\0\0\0\0\0\0\0\0\0\0\0\0\0\x01"),
        Some(MessageFault::Extra)
    );
    Ok(())
}

/// The fault of an Unprogram of the range with this start.
fn fault_of_start(high: u8, low: u8) -> Option<MessageFault> {
    let mut bytes =
        *b"\x01\x12\0\0\0\0\0\0\0\x05\0\0\0\0\0\0\0\x01\0\0\0\0\0\0\0\x01\xc0\0\x02\x0a\0\0";
    bytes[30] = high;
    bytes[31] = low;
    fault_of(&bytes)
}

#[test]
fn starts_of_ranges(rt: HostRuntime) -> Result<(), Fail> {
    let refused = Some(MessageFault::Field(30));
    assert_eq!(rt; fault_of_start(0x03, 0xf8), refused);
    assert_eq!(rt; fault_of_start(0x04, 0x00), None);
    assert_eq!(rt; fault_of_start(0x04, 0x04), refused);
    assert_eq!(rt; fault_of_start(0xff, 0xf8), None);
    assert_eq!(rt; fault_of_start(0xff, 0xff), refused);
    Ok(())
}

/// Messages of the worked run and its kin: a Hello, a Promise without and one with a vote, an Ask, a Program, a Grant,
/// a MuxRefuse, a Denied, a RedirectAsk.
const SPELLED: [&[u8]; 9] = [
    b"\x01\x0f\0\0\0\0\0\0\0\x01\0\0\0\0\0\0\0\0",
    b"\x01\x02\0\0\0\0\0\0\0\x05\0\0\0\0\0\0\0\0\0\0\0\0\0\0\0\0",
    b"\x01\x02\0\0\0\0\0\0\0\x06\0\0\0\0\0\0\0\0\0\0\0\0\0\0\0\x05\x01\x03\0\0\0\0\0\0\0\x01",
    b"\x01\x08\0\0\0\0\0\0\0\x01\x0a\x01\0\x04\0\0\0\0\0\0\0\x01",
    b"\x01\x10\0\0\0\0\0\0\0\x05\0\0\0\0\0\0\0\x01\0\0\0\0\0\0\0\x01\xc0\0\x02\x0a\x04\0\x0a\x01\0\x04",
    b"\x01\x09\0\0\0\0\0\0\0\x01\x0a\x01\0\x04\0\0\0\0\0\0\0\x01\0\0\0\0\0\0\0\x01\xc0\0\x02\x0a\x04\0",
    b"\x01\x14\0\0\0\0\0\0\0\x05\0\0\0\0\0\0\0\x01\0\0\0\0\0\0\0\x07",
    b"\x01\x0a\0\0\0\0\0\0\0\x01\x0a\x01\0\x05\0\0\0\0\0\0\0\x01\x01\0\0\0\0\0\0\0\x21",
    b"\x01\x16\xc0\0\x02\x0a\x04\0\xc6\x33\x64\x07\0\x50\x0a\x01\0\x04",
];

#[test]
fn messages_are_read_and_written(rt: HostRuntime) -> Result<(), Fail> {
    for spelled in SPELLED {
        let Ok(message) = decode(spelled) else {
            return Err(Fail::from("refused"));
        };
        let mut out = Vec::new(rt.alloc());
        encode(&message, &mut out)?;
        assert_eq!(rt; out.as_slice(), spelled);
    }
    Ok(())
}

#[test]
fn fields_of_messages(rt: HostRuntime) -> Result<(), Fail> {
    assert!(rt;
        matches!(
            decode(b"\x01\x01\0\0\0\0\0\0\0\x05"),
            Ok(Message::Prepare { ballot: 5 })
        )
    );
    assert!(rt;
        matches!(
            decode(SPELLED[4]),
            Ok(Message::Program {
                epoch: 5,
                boot: 1,
                n: 1,
                vip: Ip4(0xc000_020a),
                start: 1024,
                machine: Ip4(0x0a01_0004)
            })
        )
    );
    assert!(rt;
        matches!(
            decode(SPELLED[7]),
            Ok(Message::Denied {
                boot: 1,
                machine: Ip4(0x0a01_0005),
                seq: 1,
                reason: 1,
                number: 33
            })
        )
    );
    let Ok(
        Message::Promise {
            vote: 5,
            value: Some(value),
            ..
        },
    ) = decode(SPELLED[2])
    else {
        return Err(Fail::from("no vote"));
    };
    assert_eq!(rt; value.as_bytes(), b"\x01\x03\0\0\0\0\0\0\0\x01".as_slice());
    Ok(())
}

#[test]
fn frames(rt: HostRuntime) -> Result<(), Fail> {
    assert_eq!(rt; Frame::read(b""), None);
    assert_eq!(rt; Frame::read(b"\0\x01"), None);
    assert_eq!(rt; Frame::read(b"\x01\x07"), Some(Frame::Control(b"\x07")));
    assert_eq!(rt; Frame::read(b"\x02"), Some(Frame::Packet(b"")));
    Ok(())
}
