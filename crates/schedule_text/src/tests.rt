use crate::{Event, EventList, Line, LineFault, Single, Word, print_line, read_schedule};
use std::alloc::{AllocError, Global};
use std::test::Fail;
use vip_config::Config;
use wire_core::{Act, Conn, DropCause, FrameBytes, Ip4, Items, NodeId, Note, Proto, Range, Socket};

/// One mux, one agent with one machine, and one VIP.
const SMALL: &str =
    r#"{"version":1,"router":"10.7.0.1:7000","replicas":["10.0.0.1:7000","10.0.0.2:7000","10.0.0.3:7000","10.0.0.4:7000","10.0.0.5:7000"],"muxes":["10.9.0.1:7000"],"agents":[{"socket":"10.8.0.1:7000","machines":[{"address":"10.1.0.4","attach":"10.1.0.4:9000"}]}],"vips":[{"address":"192.0.2.10","low":1024,"high":65535,"snat":["10.1.0.4"],"endpoints":[]}],"limit":16,"timers":{"lead_silent":1000,"mux_silent":5000,"ask_retry":500,"flow_idle":60000,"range_idle":30000}}"#;

const MACHINE: Ip4 = Ip4(0x0a01_0004);

const VIP: Ip4 = Ip4(0xc000_020a);

fn small(alloc: Global) -> Result<Config, AllocError> {
    match Config::read(alloc, SMALL.as_bytes()) {
        Ok(config) => Ok(config),
        Err(_) => Err(AllocError),
    }
}

/// The events of a text of at most 10,000 bytes.
fn read(alloc: Global, text: &[u8], config: &Config) -> Result<EventList, LineFault> {
    if text.len() > 10_000 {
        return Err(LineFault::NoMemory);
    }
    read_schedule(alloc, text, config)
}

/// 0 for a schedule, and else its first bad line.
fn first_bad(alloc: Global, text: &[u8]) -> Result<u64, AllocError> {
    let config = small(alloc)?;
    match read(alloc, text, &config) {
        Ok(_) => Ok(0),
        Err(LineFault::Line(n)) => Ok(n),
        Err(LineFault::NoMemory) => Err(AllocError),
    }
}

fn print_events(alloc: Global, config: &Config, events: EventList) -> Result<String, AllocError> {
    let mut out = String::new(alloc);
    for event in events.into_vec() {
        print_line(alloc, &Line::Event(event), config, &mut out)?;
    }
    Ok(out)
}

/// The events of a schedule, printed.
fn again(alloc: Global, text: &[u8]) -> Result<String, AllocError> {
    let config = small(alloc)?;
    match read(alloc, text, &config) {
        Ok(events) => print_events(alloc, &config, events),
        Err(_) => Err(AllocError),
    }
}

#[test]
fn events_are_printed_as_they_were_read(rt: HostRuntime) -> Result<(), Fail> {
    let text = b"# a comment\n\
          deliver 0\n\
          \n\
          settle 1000000\n\
          inject mux 0 10.7.0.1:7000 02aBFf\n\
          inject agent 0 10.1.0.4:9000 00\n\
          tick replica 4 18446744073709551615\n\
          crash agent 0\n\
          restart agent 0\n\
          crash replica 0 during deliver 7 keep\n\
          crash mux 0 during inject mux 0 1.2.3.4:5 FF lose\n\
          crash agent 0 during restart replica 1 keep";
    let printed = again(rt.alloc(), text)?;
    assert_eq!(rt;
        printed.as_bytes(),
        b"event deliver 0\n\
          event settle 1000000\n\
          event inject mux 0 10.7.0.1:7000 02abff\n\
          event inject agent 0 10.1.0.4:9000 00\n\
          event tick replica 4 18446744073709551615\n\
          event crash agent 0\n\
          event restart agent 0\n\
          event crash replica 0 during deliver 7 keep\n\
          event crash mux 0 during inject mux 0 1.2.3.4:5 ff lose\n\
          event crash agent 0 during restart replica 1 keep\n"
            .as_slice()
    );
    Ok(())
}

#[test]
fn lines_that_are_none(rt: HostRuntime) -> Result<(), Fail> {
    for (text, number) in [
        ("deliver 1\ndeliver 01", 2),
        ("deliver", 1),
        ("deliver 1 ", 1),
        ("deliver 1\r", 1),
        ("deliver  1", 1),
        ("deliver 18446744073709551616", 1),
        (" #", 1),
        ("tick mux 1 0", 1),
        ("tick replica 5 0", 1),
        ("tick agent 0", 1),
        ("restart mux 0 0", 1),
        ("crash mux 0 during", 1),
        ("crash mux 0 during crash mux 0 keep", 1),
        ("crash mux 0 during settle 1 keep", 1),
        ("crash mux 0 during deliver 1", 1),
        ("crash mux 0 during deliver 1 kept", 1),
        ("crash mux 0 during deliver 1 keep lose", 1),
        ("inject mux 0 10.0.0.1:7000 00", 1),
        ("inject mux 0 10.8.0.1:7000 00", 1),
        ("inject mux 0 10.8.0.1:0 00", 1),
        ("inject mux 0 1.2.3.4:5 ", 1),
        ("inject mux 0 1.2.3.4:5 0", 1),
        ("inject mux 0 1.2.3.4:5 0g", 1),
        ("plain", 1),
        ("settle 1000000\nsettle 0\nsettle 1", 3),
        ("settle 18446744073709551615", 1),
        ("", 0),
        ("\n\n#\n", 0),
    ] {
        assert_eq!(rt; first_bad(rt.alloc(), text.as_bytes())?, number, "{text:?}");
    }
    Ok(())
}

fn bytes(alloc: Global, byte: u8) -> Result<FrameBytes, AllocError> {
    let mut bytes = Items::new(alloc);
    bytes.push(byte)?;
    Ok(bytes)
}

fn print_one(alloc: Global, out: &mut String, line: Line) -> Result<(), AllocError> {
    let config = small(alloc)?;
    print_line(alloc, &line, &config, out)
}

fn print_acts(alloc: Global, out: &mut String) -> Result<(), AllocError> {
    let c = Conn {
        vip: VIP,
        proto: Proto::Udp,
        port: 1024,
        remote: Ip4(0xc633_6407),
        rport: 53,
        machine: MACHINE,
        sport: 5000,
    };
    let range = Range {
        vip: VIP,
        start: 1024,
    };
    print_one(
        alloc,
        out,
        Line::Act(Act::Reserve {
            n: 1,
            range,
            machine: MACHINE,
        }),
    )?;
    print_one(alloc, out, Line::Act(Act::Grant { n: 1 }))?;
    print_one(alloc, out, Line::Act(Act::Free { n: 2 }))?;
    print_one(alloc, out, Line::Act(Act::Freed { n: 3 }))?;
    print_one(alloc, out, Line::Act(Act::Hold { n: 4 }))?;
    print_one(alloc, out, Line::Act(Act::Drop { n: 5 }))?;
    print_one(alloc, out, Line::Act(Act::Open { c }))?;
    print_one(alloc, out, Line::Act(Act::Close { c }))?;
    print_one(alloc, out, Line::Act(Act::Lose { agent: 0 }))?;
    let packet = bytes(alloc, 255)?;
    print_one(
        alloc,
        out,
        Line::Act(Act::Hand {
            machine: MACHINE,
            bytes: packet,
        }),
    )
}

fn acts(alloc: Global) -> Result<String, AllocError> {
    let mut out = String::new(alloc);
    print_acts(alloc, &mut out)?;
    Ok(out)
}

#[test]
fn acts_are_printed(rt: HostRuntime) -> Result<(), Fail> {
    let printed = acts(rt.alloc())?;
    assert_eq!(rt;
        printed.as_bytes(),
        b"act reserve 1 192.0.2.10 1024 10.1.0.4\n\
          act grant 1\n\
          act free 2\n\
          act freed 3\n\
          act hold 4\n\
          act drop 5\n\
          act open udp 192.0.2.10 1024 198.51.100.7 53 10.1.0.4 5000\n\
          act close udp 192.0.2.10 1024 198.51.100.7 53 10.1.0.4 5000\n\
          act lose agent 0\n\
          act hand 10.1.0.4 ff\n"
            .as_slice()
    );
    Ok(())
}

fn dropped(cause: DropCause) -> Line {
    Line::Note(Note::Dropped { cause })
}

fn print_rest(alloc: Global, out: &mut String) -> Result<(), AllocError> {
    print_one(
        alloc,
        out,
        Line::Event(Event::Single(Single::Deliver { k: 3 })),
    )?;
    print_one(alloc, out, Line::Delivery { k: 16 })?;
    print_one(alloc, out, Line::Word(Word::NotYet))?;
    print_one(alloc, out, Line::Word(Word::Outside))?;
    print_one(alloc, out, Line::Word(Word::Down))?;
    print_one(alloc, out, Line::Word(Word::Up))?;
    print_one(alloc, out, Line::Word(Word::Other))?;
    print_one(
        alloc,
        out,
        Line::Note(Note::Queued {
            machine: MACHINE,
            count: 1,
        }),
    )?;
    print_one(alloc, out, dropped(DropCause::OldNumber(3)))?;
    print_one(alloc, out, dropped(DropCause::WrongBoot(0)))?;
    print_one(alloc, out, dropped(DropCause::Late))
}

fn print_sends(alloc: Global, out: &mut String) -> Result<(), AllocError> {
    let mux = Socket {
        ip: Ip4(0x0a09_0001),
        port: 7000,
    };
    let attach = Socket {
        ip: MACHINE,
        port: 9000,
    };
    let message = bytes(alloc, 1)?;
    print_one(
        alloc,
        out,
        Line::Sent {
            k: 31,
            from: NodeId::Replica(0),
            to: mux,
            bytes: message,
        },
    )?;
    let packet = bytes(alloc, 2)?;
    print_one(
        alloc,
        out,
        Line::Sent {
            k: 50,
            from: NodeId::Agent(0),
            to: attach,
            bytes: packet,
        },
    )
}

fn others(alloc: Global) -> Result<String, AllocError> {
    let mut out = String::new(alloc);
    print_rest(alloc, &mut out)?;
    print_sends(alloc, &mut out)?;
    Ok(out)
}

#[test]
fn words_notes_and_datagrams_are_printed(rt: HostRuntime) -> Result<(), Fail> {
    let printed = others(rt.alloc())?;
    assert_eq!(rt;
        printed.as_bytes(),
        b"event deliver 3\n\
          event deliver 16\n\
          none\n\
          outside\n\
          down\n\
          up\n\
          other\n\
          queued 10.1.0.4 1\n\
          drop OldNumber 3\n\
          drop WrongBoot 0\n\
          drop Late\n\
          sent 31 replica 0 mux 0 01\n\
          sent 50 agent 0 10.1.0.4:9000 02\n"
            .as_slice()
    );
    Ok(())
}
