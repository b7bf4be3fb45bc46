// Each object once, and each trait once through its bound.
ghost use Rattle.std.specs.Prelude.{◌≡◌, length};

use super::*;
use std::alloc::{AllocError, Global};
use std::io::Cursor;
use std::test::Fail;
use wire_core::{Ip4, Items, Socket};

// The bytes of two reads, or where a read failed.
fn two_reads<S: Source>(
    source: &mut S,
    buf: &mut [u8; 4],
) -> (Result<usize, Failed>, Result<usize, Failed>) {
    (source.read(buf), source.read(buf))
}

fn two_writes<K: Sink>(
    sink: &mut K,
    bytes: &[u8],
) -> (Result<usize, Failed>, Result<usize, Failed>) {
    (sink.write(bytes), sink.write(bytes))
}

// Binds and opens; a link that would come is used once and given back.
fn asks<H: Host>(host: &mut H, at: &Socket, buf: &mut [u8]) -> (bool, bool)
    requires { length buf.old ≡ 65507 }
{
    let link = match host.bind(at) {
        Ok(mut link) => {
            let came = link.next(buf).is_ok() && link.send(at, b"x").is_ok();
            host.back_link(link);
            came
        }
        Err(_) => false,
    };
    let disk = match host.open_disk("mux-0-a") {
        Ok(mut disk) => {
            let read = disk.len().is_ok() && disk.read(0, buf).is_ok() && disk.sync().is_ok();
            host.back_disk(disk);
            read
        }
        Err(_) => false,
    };
    (link, disk)
}

fn two_times<C: Clock>(clock: &mut C) -> (u64, u64) {
    (clock.now(), clock.now())
}

#[test]
fn a_source_gives_its_bytes_and_then_the_end(rt: HostRuntime) -> Result<(), Fail> {
    let alloc = rt.alloc();
    let mut buf = [0u8; 4];
    let mut source = MemSource::new(b"abcdef".to_vec(alloc)?, vec![in alloc; 1]?);
    assert_eq!(rt; two_reads(&mut source, &mut buf), (Ok(4), Err(Failed)));
    assert_eq!(rt; &buf, b"abcd");
    assert_eq!(rt; two_reads(&mut source, &mut buf), (Ok(2), Ok(0)));
    assert_eq!(rt; &buf, b"efcd");
    let mut sure = SureSource::new(b"abcdef".to_vec(alloc)?);
    assert_eq!(rt; two_reads(&mut sure, &mut buf), (Ok(4), Ok(2)));
    let mut reading = Reading::new(Cursor::new(b"abcdef"));
    assert_eq!(rt; two_reads(&mut reading, &mut buf), (Ok(4), Ok(2)));
    assert_eq!(rt; &buf, b"efcd");
    Ok(())
}

#[test]
fn a_sink_takes_what_it_can(rt: HostRuntime) -> Result<(), Fail> {
    let alloc = rt.alloc();
    let mut sink = MemSink::new(b"<".to_vec(alloc)?, 3, vec![in alloc; 1, 3]?);
    assert_eq!(rt; two_writes(&mut sink, b"abcd"), (Ok(3), Err(Failed)));
    assert_eq!(rt; two_writes(&mut sink, b"d"), (Ok(1), Err(Failed)));
    assert_eq!(rt; sink.bytes(), b"<abcd".as_slice());
    let mut shut = MemSink::new(vec![in alloc]?, 0, vec![in alloc]?);
    assert_eq!(rt; two_writes(&mut shut, b"abcd"), (Err(Failed), Err(Failed)));
    assert_eq!(rt; two_writes(&mut SureSink, b"abcd"), (Ok(4), Ok(4)));
    let mut room = [0u8; 6];
    let mut writing = Writing::new(Cursor::new(&mut room[..]));
    assert_eq!(rt; two_writes(&mut writing, b"abcd"), (Ok(4), Ok(2)));
    Ok(())
}

#[test]
fn a_clock_repeats_its_last_time(rt: HostRuntime) -> Result<(), Fail> {
    let alloc = rt.alloc();
    let mut clock = MemClock::new(vec![in alloc; 5, 9, 7]?);
    assert_eq!(rt; two_times(&mut clock), (5, 9));
    assert_eq!(rt; two_times(&mut clock), (7, 7));
    assert_eq!(rt; two_times(&mut MemClock::new(vec![in alloc]?)), (0, 0));
    Ok(())
}

#[test]
fn a_host_of_nothing_fails(rt: HostRuntime) -> Result<(), Fail> {
    let mut buf = vec![in rt.alloc(); 0u8; MAX_DATAGRAM]?;
    let at = Socket {
        ip: Ip4(0x0a00_0001),
        port: 7000,
    };
    assert!(rt; buf.len() == 65_507);
    assert_eq!(rt; asks(&mut NoHost::new(), &at, &mut buf), (false, false));
    let mut link = NoLink::new();
    assert_eq!(rt; link.next(&mut buf), Err(Failed));
    assert_eq!(rt; link.send(&at, b"x"), Err(Failed));
    let mut disk = NoDisk::new();
    assert_eq!(rt;
        (disk.len(), disk.read(0, &mut buf)),
        (Err(Failed), Err(Failed))
    );
    assert_eq!(rt;
        (disk.write_at(0, b"x"), disk.cut(0), disk.sync()),
        (Err(Failed), Err(Failed), Err(Failed))
    );
    Ok(())
}

// The bytes of the next datagram, or where `next` gave none or failed.
fn next_bytes<L: Link>(link: &mut L, buf: &mut [u8]) -> Result<Option<(Socket, usize)>, Failed>
    requires { length buf.old ≡ 65507 }
    ensures { length buf.new ≡ length buf.old }
{
    match link.next(buf)? {
        Some(arrival) => Ok(Some((arrival.from, arrival.len))),
        None => Ok(None),
    }
}

const AGENT: Socket = Socket {
    ip: Ip4(0x0a00_0002),
    port: 7001,
};

fn begins(bytes: &[u8], front: &[u8]) -> bool {
    bytes.len() >= front.len() && &bytes[..front.len()] == front
}

// A link with three answers, whose second call of `send` fails.
fn link(alloc: Global) -> Result<MemLink, AllocError> {
    let bytes = b"hello".to_vec(alloc)?;
    let mut list = Vec::new(alloc);
    list.push(MemAnswer::Idle)?;
    list.push(MemAnswer::Came { from: AGENT, bytes })?;
    list.push(MemAnswer::Fails)?;
    let failing = vec![in alloc; 1]?;
    Ok(MemLink::new(alloc, list, failing))
}

// Whether this datagram, and whether it was taken, was kept at a place.
fn is_sent(sent: &[SentDatagram], at: usize, bytes: &[u8], taken: bool) -> bool {
    match sent.get(at) {
        Some(kept) => { kept.to == AGENT && kept.bytes.as_slice() == bytes && kept.taken == taken }
        None => false,
    }
}

#[test]
fn a_link_in_memory_gives_its_answers(rt: HostRuntime) -> Result<(), Fail> {
    let mut buf = vec![in rt.alloc(); 0u8; MAX_DATAGRAM]?;
    assert!(rt; buf.len() == 65_507);
    let mut link = link(rt.alloc())?;
    assert_eq!(rt; next_bytes(&mut link, &mut buf), Ok(None));
    assert_eq!(rt; next_bytes(&mut link, &mut buf), Ok(Some((AGENT, 5))));
    assert!(rt; begins(&buf, b"hello"));
    assert_eq!(rt; next_bytes(&mut link, &mut buf), Err(Failed));
    assert_eq!(rt; next_bytes(&mut link, &mut buf), Ok(None));
    assert_eq!(rt; link.next_faults(), 1);
    Ok(())
}

#[test]
fn a_link_in_memory_keeps_what_is_sent(rt: HostRuntime) -> Result<(), Fail> {
    let mut link = link(rt.alloc())?;
    assert_eq!(rt; link.send(&AGENT, b"a"), Ok(()));
    assert_eq!(rt; link.send(&AGENT, b"b"), Err(Failed));
    let sent = link.sent();
    assert!(rt; sent.len() == 2);
    assert!(rt; is_sent(sent, 0, b"a", true));
    assert!(rt; is_sent(sent, 1, b"b", false));
    Ok(())
}

fn script(alloc: Global, answer: MemAnswer) -> Result<LinkScript, AllocError> {
    let mut list = Vec::new(alloc);
    list.push(answer)?;
    Ok(LinkScript {
        list,
        failing: Vec::new(alloc),
    })
}

fn two_links(alloc: Global) -> Result<Vec<LinkScript>, AllocError> {
    let mut links = Vec::new(alloc);
    links.push(script(alloc, MemAnswer::Idle)?)?;
    links.push(script(alloc, MemAnswer::Fails)?)?;
    Ok(links)
}

fn one_disk(alloc: Global) -> Result<Vec<NamedDisk<NoDisk>>, AllocError> {
    let name = Items::from_vec(b"mux-0-a".to_vec(alloc)?);
    let mut disks = Vec::new(alloc);
    disks.push(NamedDisk {
        name,
        disk: NoDisk::new(),
    })?;
    Ok(disks)
}

// A host with two links and a disk, whose third call fails.
fn host(alloc: Global) -> Result<MemHost<NoDisk>, AllocError> {
    let failing = vec![in alloc; 2]?;
    let disks = one_disk(alloc)?;
    let links = two_links(alloc)?;
    Ok(MemHost::new(alloc, links, disks, failing))
}

// A letter for each call: bound or not, opened or not, a link or a disk back.
fn letter<D: Snapshot>(call: &KeptCall<D>) -> u8 {
    match call {
        KeptCall::Bound { given: true, .. } => b'B',
        KeptCall::Bound { given: false, .. } => b'b',
        KeptCall::Opened { .. } => b'O',
        KeptCall::NotOpened { .. } => b'o',
        KeptCall::LinkBack { .. } => b'l',
        KeptCall::DiskBack { .. } => b'd',
    }
}

#[test]
fn a_host_in_memory_hands_out_each_once_and_keeps_each_call(rt: HostRuntime) -> Result<(), Fail> {
    let mut buf = vec![in rt.alloc(); 0u8; MAX_DATAGRAM]?;
    assert!(rt; buf.len() == 65_507);
    let mut host = host(rt.alloc())?;
    assert_eq!(rt; asks(&mut host, &AGENT, &mut buf), (true, false));
    assert_eq!(rt; asks(&mut host, &AGENT, &mut buf), (false, false));
    assert_eq!(rt; asks(&mut host, &AGENT, &mut buf), (false, false));
    let calls = host.into_calls();
    let want = b"BlOdboBlo";
    assert!(rt; calls.len() == want.len());
    for i in 0..calls.len().min(want.len()) {
        assert_eq!(rt; letter(&calls[i]), want[i], "call {i}");
    }
    Ok(())
}
