// The run of a node over objects in memory: how the program ends, what it tells, and what its host has seen then.
use crate::run;
use crate::tests::SMALL;
use address_text::write_address;
use disk_model::MemDisk;
use outside_io::{
    Disk, KeptCall, LinkScript, MemAnswer, MemClock, MemHost, MemSink, MemSource, NamedDisk,
    SentDatagram,
};
use std::alloc::{AllocError, Global};
use std::test::Fail;
use wire_core::{Ip4, Items, NoMemory, Socket};

/// An entry of no kind.
const DAMAGED: &[u8] = b"\x01\x00\x00\x00\x00\x09\x05";

/// The first start of replica 0.
const OF_A_REPLICA: &[u8] =
    b"\x01\x00\x00\x00\x0d\x01\x01\x01\x00\x00\x00\x00\x00\x00\x00\x00\x00\x01\x00";

/// The last start that mux 0 can have.
const LAST_START: &[u8] =
    b"\x01\x00\x00\x00\x0d\x01\x01\x02\x00\x00\xff\xff\xff\xff\xff\xff\xff\xff\x00";

/// What a run is over beside its words: the file `mux-0-a`, the numbers of the calls of `bind` and `open_disk` that are
/// to fail, whether the first `next` fails, which calls of `send` do, and how many bytes the output takes before it
/// fails.
#[derive(Clone, Copy)]
struct Around<'a> {
    file: &'a [u8],
    failing: &'a [u64],
    next_fails: bool,
    lost: &'a [u64],
    writes: &'a [u64],
}

/// An empty disk, and nothing that fails.
const PLAIN: Around<'static> = Around {
    file: b"",
    failing: &[],
    next_fails: false,
    lost: &[],
    writes: &[],
};

/// A disk with this file.
fn disk(alloc: Global, file: &[u8]) -> Result<MemDisk, NoMemory> {
    let mut disk = MemDisk::new(alloc)?;
    if disk.write_at(0, file).is_err() {
        return Err(AllocError);
    }
    Ok(disk)
}

fn named(alloc: Global, name: &[u8], disk: MemDisk) -> Result<NamedDisk<MemDisk>, NoMemory> {
    let name = Items::from_vec(name.to_vec(alloc)?);
    Ok(NamedDisk { name, disk })
}

/// The two disks of mux 0.
fn disks(alloc: Global, file: &[u8]) -> Result<Vec<NamedDisk<MemDisk>>, NoMemory> {
    let mut disks = Vec::new(alloc);
    let second = disk(alloc, b"")?;
    disks.push(named(alloc, b"mux-0-b", second)?)?;
    let first = disk(alloc, file)?;
    disks.push(named(alloc, b"mux-0-a", first)?)?;
    Ok(disks)
}

/// What comes: a datagram of no frame from the router, or a failure.
fn answer(alloc: Global, fails: bool) -> Result<MemAnswer, NoMemory> {
    if fails {
        return Ok(MemAnswer::Fails);
    }
    let from = Socket {
        ip: Ip4(0x0a07_0001),
        port: 7000,
    };
    let bytes = b"\x07".to_vec(alloc)?;
    Ok(MemAnswer::Came { from, bytes })
}

fn links(alloc: Global, around: &Around<'_>) -> Result<Vec<LinkScript>, NoMemory> {
    let mut list = Vec::new(alloc);
    list.push(answer(alloc, around.next_fails)?)?;
    let failing = around.lost.to_vec(alloc)?;
    let mut links = Vec::new(alloc);
    links.push(LinkScript { list, failing })?;
    Ok(links)
}

fn host(alloc: Global, around: &Around<'_>) -> Result<MemHost<MemDisk>, NoMemory> {
    let disks = disks(alloc, around.file)?;
    let links = links(alloc, around)?;
    let failing = around.failing.to_vec(alloc)?;
    Ok(MemHost::new(alloc, links, disks, failing))
}

fn words(alloc: Global, line: &[&str]) -> Result<Vec<String>, NoMemory> {
    let mut words = Vec::new(alloc);
    for word in line {
        words.push(String::from_str(alloc, word)?)?;
    }
    Ok(words)
}

fn push_text(told: &mut String, bytes: &[u8]) -> Result<(), NoMemory> {
    for byte in bytes {
        told.push(char::from(*byte))?;
    }
    Ok(())
}

/// Tells the status, then what was written to the output and to the error stream.
fn run_on(
    alloc: Global,
    words: &[String],
    text: &str,
    writes: &[u64],
    host: &mut MemHost<MemDisk>,
) -> Result<String, NoMemory> {
    let mut input = MemSource::new(text.as_bytes().to_vec(alloc)?, Vec::new(alloc));
    let mut out = MemSink::new(Vec::new(alloc), 16, writes.to_vec(alloc)?);
    let mut err = MemSink::new(Vec::new(alloc), 16, Vec::new(alloc));
    let mut clock = MemClock::new([1000].to_vec(alloc)?);
    let status = run(
        alloc, words, &mut input, &mut out, &mut err, host, &mut clock,
    );
    let mut told = String::new(alloc);
    writeln!(told, "status {}", status as u8)?;
    push_text(&mut told, out.bytes())?;
    push_text(&mut told, err.bytes())?;
    Ok(told)
}

fn push_hex(told: &mut String, bytes: &[u8]) -> Result<(), NoMemory> {
    for byte in bytes {
        write!(told, "{byte:02x}")?;
    }
    told.push_str("\n")
}

fn push_socket(told: &mut String, at: &Socket) -> Result<(), NoMemory> {
    write_address(told, at.ip)?;
    write!(told, ":{}", at.port)
}

fn tell_sent(told: &mut String, sent: &[SentDatagram]) -> Result<(), NoMemory> {
    for datagram in sent {
        told.push_str(if datagram.taken { "sent " } else { "lost " })?;
        push_socket(told, &datagram.to)?;
        told.push_str(" ")?;
        push_hex(told, &datagram.bytes)?;
    }
    Ok(())
}

/// Tells the first bytes of a disk's file.
fn tell_disk(told: &mut String, disk: &mut MemDisk) -> Result<(), NoMemory> {
    let mut buf = [0u8; 64];
    told.push_str("disk back ")?;
    match disk.read(0, &mut buf) {
        Ok(count) => push_hex(told, &buf[..count]),
        Err(_) => Err(AllocError),
    }
}

/// Tells a call that the host has seen.
fn tell_call(told: &mut String, call: &mut KeptCall<MemDisk>) -> Result<(), NoMemory> {
    match call {
        KeptCall::Bound { at, given } => {
            told.push_str(if *given { "bind " } else { "no link " })?;
            push_socket(told, at)?;
            told.push_str("\n")
        }
        KeptCall::Opened { name, .. } => {
            told.push_str("open ")?;
            push_text(told, name)?;
            told.push_str("\n")
        }
        KeptCall::NotOpened { name } => {
            told.push_str("no disk ")?;
            push_text(told, name)?;
            told.push_str("\n")
        }
        KeptCall::LinkBack { link } => {
            tell_sent(told, link.sent())?;
            told.push_str("link back\n")
        }
        KeptCall::DiskBack { disk } => tell_disk(told, disk),
    }
}

/// Runs the program over a text, and tells how it ended and all calls of its host.
fn ran_over(
    alloc: Global,
    line: &[&str],
    text: &str,
    around: &Around<'_>,
) -> Result<String, NoMemory> {
    let words = words(alloc, line)?;
    let mut host = host(alloc, around)?;
    let mut told = run_on(alloc, &words, text, around.writes, &mut host)?;
    let mut calls = host.into_calls();
    for call in calls.iter_mut() {
        tell_call(&mut told, call)?;
    }
    Ok(told)
}

fn ran(alloc: Global, line: &[&str], around: &Around<'_>) -> Result<String, NoMemory> {
    ran_over(alloc, line, SMALL, around)
}

/// Mux 0 says hello to the five replicas, in its first start and of no epoch, which its first disk has then.
const ONE_TURN: &str = "status 0
turns 1 sent 5 dropped 0 failed 0
open mux-0-a
open mux-0-b
bind 10.9.0.1:7000
sent 10.0.0.1:7000 01010f00000000000000010000000000000000
sent 10.0.0.2:7000 01010f00000000000000010000000000000000
sent 10.0.0.3:7000 01010f00000000000000010000000000000000
sent 10.0.0.4:7000 01010f00000000000000010000000000000000
sent 10.0.0.5:7000 01010f00000000000000010000000000000000
link back
disk back 010000000d0101020000000000000000000100
disk back 
";

#[test]
fn a_mux_is_served(rt: HostRuntime) -> Result<(), Fail> {
    for line in [
        ["node", "mux", "0", "--turns", "1"].as_slice(),
        &["node", "--turns", "1", "mux", "0"],
        &["node", "mux", "0", "--turns=1"],
        &["node", "--turns=1", "mux", "0"],
    ] {
        let told = ran(rt.alloc(), line, &PLAIN)?;
        assert_eq!(rt; told.as_str(), ONE_TURN);
    }
    Ok(())
}

#[test]
fn what_it_takes_and_loses_is_counted(rt: HostRuntime) -> Result<(), Fail> {
    let line = ["node", "mux", "0", "--turns", "3"];
    let lost = Around {
        lost: &[0, 4],
        ..PLAIN
    };
    let told = ran(rt.alloc(), &line, &lost)?;
    let wanted = "status 0
turns 3 sent 3 dropped 1 failed 2
open mux-0-a
open mux-0-b
bind 10.9.0.1:7000
lost 10.0.0.1:7000 01010f00000000000000010000000000000000
sent 10.0.0.2:7000 01010f00000000000000010000000000000000
sent 10.0.0.3:7000 01010f00000000000000010000000000000000
sent 10.0.0.4:7000 01010f00000000000000010000000000000000
lost 10.0.0.5:7000 01010f00000000000000010000000000000000
link back
disk back 010000000d0101020000000000000000000100
disk back 
";
    assert_eq!(rt; told.as_str(), wanted);
    Ok(())
}

#[test]
fn no_turn_is_taken(rt: HostRuntime) -> Result<(), Fail> {
    let told = ran(rt.alloc(), &["node", "mux", "0", "--turns", "0"], &PLAIN)?;
    let wanted = "status 0
turns 0 sent 0 dropped 0 failed 0
open mux-0-a
open mux-0-b
bind 10.9.0.1:7000
link back
disk back 010000000d0101020000000000000000000100
disk back 
";
    assert_eq!(rt; told.as_str(), wanted);
    Ok(())
}

#[test]
fn nodes_that_are_not_configured(rt: HostRuntime) -> Result<(), Fail> {
    for (role, index, wanted) in [
        ("mux", "1", "status 3\nconfig muxes[1]\n"),
        ("replica", "5", "status 3\nconfig replicas[5]\n"),
        ("replica", "256", "status 3\nconfig replicas[256]\n"),
        ("agent", "65536", "status 3\nconfig agents[65536]\n"),
        (
            "mux",
            "18446744073709551615",
            "status 3\nconfig muxes[18446744073709551615]\n",
        ),
    ] {
        let told = ran(rt.alloc(), &["node", role, index, "--turns", "1"], &PLAIN)?;
        assert_eq!(rt; told.as_str(), wanted);
    }
    Ok(())
}

#[test]
fn no_configuration(rt: HostRuntime) -> Result<(), Fail> {
    let line = ["node", "mux", "0", "--turns", "1"];
    let told = ran_over(rt.alloc(), &line, "plain\n", &PLAIN)?;
    assert_eq!(rt; told.as_str(), "status 3\nconfig json\n");
    Ok(())
}

#[test]
fn disks_and_links_that_are_refused(rt: HostRuntime) -> Result<(), Fail> {
    for (call, wanted) in [
        (0, "status 9\ndisk fault\nno disk mux-0-a\n"),
        (
            1,
            "status 9\ndisk fault\nopen mux-0-a\nno disk mux-0-b\ndisk back \n",
        ),
        (
            2,
            "status 8\nlink fault\nopen mux-0-a\nopen mux-0-b\nno link 10.9.0.1:7000\n\
             disk back 010000000d0101020000000000000000000100\ndisk back \n",
        ),
    ] {
        let refused = Around {
            failing: &[call],
            ..PLAIN
        };
        let told = ran(rt.alloc(), &["node", "mux", "0", "--turns", "1"], &refused)?;
        assert_eq!(rt; told.as_str(), wanted);
    }
    Ok(())
}

#[test]
fn journals_that_are_not_its_own(rt: HostRuntime) -> Result<(), Fail> {
    for (file, wanted) in [
        (
            DAMAGED,
            "status 10\ndamaged mux-0-a 0\nopen mux-0-a\nopen mux-0-b\n\
             disk back 01000000000905\ndisk back \n",
        ),
        (
            OF_A_REPLICA,
            "status 13\nwrong disk\nopen mux-0-a\nopen mux-0-b\n\
             disk back 010000000d0101010000000000000000000100\ndisk back \n",
        ),
        (
            LAST_START,
            "status 14\nspent\nopen mux-0-a\nopen mux-0-b\n\
             disk back 010000000d0101020000ffffffffffffffff00\ndisk back \n",
        ),
    ] {
        let around = Around { file, ..PLAIN };
        let told = ran(rt.alloc(), &["node", "mux", "0", "--turns", "1"], &around)?;
        assert_eq!(rt; told.as_str(), wanted);
    }
    Ok(())
}

#[test]
fn a_link_that_fails(rt: HostRuntime) -> Result<(), Fail> {
    let failing = Around {
        next_fails: true,
        ..PLAIN
    };
    let told = ran(rt.alloc(), &["node", "mux", "0", "--turns", "2"], &failing)?;
    assert!(rt;
        told.as_str()
            .starts_with("status 8\nlink fault\nopen mux-0-a\n")
    );
    assert!(rt;
        told.as_str().ends_with(
            "\nlink back\ndisk back 010000000d0101020000000000000000000100\ndisk back \n"
        )
    );
    Ok(())
}

#[test]
fn an_output_that_takes_no_line(rt: HostRuntime) -> Result<(), Fail> {
    let full = Around {
        writes: &[1],
        ..PLAIN
    };
    let told = ran(rt.alloc(), &["node", "mux", "0", "--turns", "1"], &full)?;
    assert!(rt;
        told.as_str()
            .starts_with("status 7\nturns 1 sent 5 dwrite fault\nopen mux-0-a\n")
    );
    Ok(())
}
