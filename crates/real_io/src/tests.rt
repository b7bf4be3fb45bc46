// The real objects: a file that is written, cut and opened again, two sockets of this host, and the clock.
ghost use Rattle.std.specs.Prelude.{◌≡◌, length, IfOk};

use crate::{FileDisk, RealHost, SteadyClock, UdpLink};
use outside_io::{Arrival, Clock, Disk, Failed, Host, Link, MAX_DATAGRAM};
use std::alloc::Global;
use std::fs;
use std::test::Fail;
use wire_core::{Ip4, NoMemory, Socket};

const WRITTEN: &str = "real_io_written";

const FAULTY: &str = "real_io_faulty";

// Addresses of the loopback range that nobody else is likely to use.
const HERE: Socket = Socket {
    ip: Ip4(0x7f29_1101),
    port: 7101,
};

const THERE: Socket = Socket {
    ip: Ip4(0x7f29_1102),
    port: 7101,
};

const ALONE: Socket = Socket {
    ip: Ip4(0x7f29_1103),
    port: 7101,
};

// Whether what is read from a place on, with room for eight bytes, is this.
fn reads(disk: &mut FileDisk, at: u64, want: &[u8]) -> bool {
    let mut buf = [0u8; 8];
    match disk.read(at, &mut buf) {
        Ok(count) => &buf[..count.min(8)] == want,
        Err(Failed) => false,
    }
}

// Writes, cuts and syncs.
fn writes(disk: &mut FileDisk) -> Result<(), Failed> {
    disk.write_at(0, b"ranges")?;
    disk.write_at(5, b"of eight")?;
    disk.cut(8)?;
    disk.sync()
}

#[test]
fn a_file_keeps_what_was_written(rt: HostRuntime) -> Result<(), Fail> {
    let _absent = fs::remove_file(&rt, WRITTEN);
    let mut disk = FileDisk::open(&rt, WRITTEN)?;
    let empty = disk.len();
    let written = writes(&mut disk);
    let mut again = FileDisk::open(&rt, WRITTEN)?;
    let length = again.len();
    let whole = reads(&mut again, 0, b"rangeof ");
    let rest = reads(&mut again, 5, b"of ");
    let past = reads(&mut again, 8, b"");
    let faults = (disk.faults(), again.faults());
    drop(disk);
    drop(again);
    fs::remove_file(&rt, WRITTEN)?;
    assert_eq!(rt; empty, Ok(0));
    assert_eq!(rt; written, Ok(()));
    assert_eq!(rt; length, Ok(8));
    assert!(rt; whole && rest && past);
    assert_eq!(rt; faults, (0, 0));
    Ok(())
}

// The counts of a host's disks after each step: a name that no folder has, a file that comes back as it went, and one
// that couldn't be cut to 2^63 bytes.
fn disk_faults(rt: &HostRuntime) -> [bool; 3] {
    let mut host = RealHost::new(rt);
    let absent = host.open_disk("no/such/folder").is_err();
    let whole = match host.open_disk(FAULTY) {
        Ok(disk) => {
            host.back_disk(disk);
            true
        }
        Err(Failed) => false,
    };
    let faulty = match host.open_disk(FAULTY) {
        Ok(mut disk) => {
            let refused = disk.cut(1 << 63).is_err() && disk.faults() == 1;
            host.back_disk(disk);
            refused
        }
        Err(Failed) => false,
    };
    [absent, whole, faulty]
}

#[test]
fn a_fault_of_a_file_is_counted(rt: HostRuntime) -> Result<(), Fail> {
    let steps = disk_faults(&rt);
    fs::remove_file(&rt, FAULTY)?;
    assert_eq!(rt; steps, [true, true, true]);
    Ok(())
}

// Room for the longest datagram.
fn room(alloc: Global) -> Result<Vec<u8>, NoMemory>
    ensures { IfOk result (λ room. length room.items ≡ 65507) }
{
    vec![in alloc; 0u8; MAX_DATAGRAM]
}

// What comes next: its sender and its bytes are these.
fn gets(link: &mut UdpLink, buf: &mut [u8], from: Socket, want: &[u8]) -> bool
    requires { length buf.old ≡ 65507 }
    ensures { length buf.new ≡ 65507 }
{
    match link.next(buf) {
        Ok(Some(Arrival { from: sender, len })) => sender == from && &buf[..len] == want,
        Ok(None) => false,
        Err(Failed) => false,
    }
}

// Nothing comes.
fn is_idle(link: &mut UdpLink, buf: &mut [u8]) -> bool
    requires { length buf.old ≡ 65507 }
    ensures { length buf.new ≡ 65507 }
{
    link.next(buf) == Ok(None)
}

#[test]
fn datagrams_go_between_two_sockets(rt: HostRuntime) -> Result<(), Fail> {
    let mut buf = room(rt.alloc())?;
    let mut here = UdpLink::bind(&rt, &HERE)?;
    let mut there = UdpLink::bind(&rt, &THERE)?;
    let sent = (here.send(&THERE, b"first"), here.send(&THERE, b""));
    let first = gets(&mut there, &mut buf, HERE, b"first");
    let second = gets(&mut there, &mut buf, HERE, b"");
    let idle = is_idle(&mut there, &mut buf);
    let taken = UdpLink::bind(&rt, &HERE).is_err();
    let faults = (here.next_faults(), there.next_faults());
    drop(here);
    drop(there);
    drop(buf);
    assert_eq!(rt; sent, (Ok(()), Ok(())));
    assert!(rt; first && second && idle);
    assert!(rt; taken);
    assert_eq!(rt; faults, (0, 0));
    Ok(())
}

#[test]
fn the_clock_counts_milliseconds(rt: HostRuntime) -> Result<(), Fail> {
    let mut buf = room(rt.alloc())?;
    let mut link = UdpLink::bind(&rt, &ALONE)?;
    let mut clock = SteadyClock::new(&rt);
    let first = clock.now();
    let idle = is_idle(&mut link, &mut buf);
    let second = clock.now();
    drop(link);
    drop(buf);
    assert_eq!(rt; first, 0);
    assert!(rt; idle);
    // `next` waited for 10 milliseconds, and a loaded machine for longer.
    assert!(rt; 9 <= second && second < 60_000, "{second}");
    Ok(())
}
