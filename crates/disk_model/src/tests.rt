// Files after a crash, and a fuse at each of its calls.
use super::*;
use outside_io::{Disk, Failed, Host, KeptCall, MemHost, NamedDisk};
use std::alloc::Global;
use std::test::Fail;
use wire_core::{Items, NoMemory};

// Two disk calls: the length, and a write within it.
fn write_within<D: Disk>(disk: &mut D, at: u64, bytes: &[u8]) -> Result<(), Failed> {
    if disk.len()? < at {
        return Err(Failed);
    }
    disk.write_at(at, bytes)
}

// Two disk calls: the length, and a cut within it.
fn cut_within<D: Disk>(disk: &mut D, len: u64) -> Result<(), Failed> {
    if disk.len()? < len {
        return Err(Failed);
    }
    disk.cut(len)
}

// Whether a read of the first bytes gives these.
fn has<D: Disk>(disk: &mut D, want: &[u8]) -> bool {
    let mut buf = [0u8; 16];
    match disk.read(0, &mut buf) {
        Ok(n) => &buf[..n.min(16)] == want,
        Err(_) => false,
    }
}

// A file with these bytes, of which nothing is pending.
fn file(alloc: Global, bytes: &[u8]) -> Result<MemDisk, NoMemory> {
    let mut disk = MemDisk::new(alloc)?;
    let _written = write_within(&mut disk, 0, bytes);
    let _kept = disk.sync();
    Ok(disk)
}

#[test]
fn a_read_gives_what_was_written(rt: HostRuntime) -> Result<(), Fail> {
    let mut disk = file(rt.alloc(), b"abcdef")?;
    assert!(rt; has(&mut disk, b"abcdef"));
    let mut buf = [0u8; 3];
    assert_eq!(rt; (disk.len(), disk.read(4, &mut buf)), (Ok(6), Ok(2)));
    assert_eq!(rt; &buf, b"ef\0");
    assert_eq!(rt; disk.read(9, &mut buf), Ok(0));
    assert!(rt; has(&mut disk.crash(b"........"), b"abcdef"));
    Ok(())
}

#[test]
fn a_crash_leaves_what_is_picked(rt: HostRuntime) -> Result<(), Fail> {
    let picks: [&[u8]; 4] = [b"", b"123", b"1234567", b"123456789"];
    let over: [&[u8]; 4] = [b"ab\0\0ef", b"ab3\0ef", b"ab34ef", b"ab34ef"];
    let shorter: [&[u8]; 4] = [b"abc", b"abc", b"abc456", b"abc456"];
    let longer: [&[u8]; 4] = [b"abcdef", b"abcdef", b"abcdef7", b"abcdef78"];
    for i in 0..4 {
        let mut disk = file(rt.alloc(), b"abcdef")?;
        assert_eq!(rt; write_within(&mut disk, 2, b"XY"), Ok(()));
        assert!(rt; has(&mut disk, b"abXYef"));
        assert!(rt; has(&mut disk.crash(picks[i]), over[i]), "over at {i}");
        let mut disk = file(rt.alloc(), b"abcdef")?;
        assert_eq!(rt; cut_within(&mut disk, 3), Ok(()));
        assert!(rt; has(&mut disk, b"abc"));
        assert!(rt;
            has(&mut disk.crash(picks[i]), shorter[i]),
            "shorter at {i}"
        );
        let mut disk = file(rt.alloc(), b"abcdef")?;
        assert_eq!(rt; write_within(&mut disk, 6, b"gh"), Ok(()));
        assert!(rt; has(&mut disk.crash(picks[i]), longer[i]), "longer at {i}");
    }
    Ok(())
}

// How many of four actions pass, on a file of six bytes: they take two calls, one, two and one.
fn actions(fuse: &mut Fuse) -> usize {
    if write_within(fuse, 6, b"gh").is_err() {
        return 0;
    }
    if fuse.sync().is_err() {
        return 1;
    }
    if cut_within(fuse, 4).is_err() {
        return 2;
    }
    if has(fuse, b"abcd") { 4 } else { 3 }
}

#[test]
fn a_fuse_passes_its_calls_and_no_more(rt: HostRuntime) -> Result<(), Fail> {
    let passed = [0, 0, 1, 2, 2, 3, 4, 4];
    let left: [&[u8]; 3] = [b"abcdef", b"abcdefgh", b"abcd"];
    let file_after = [0, 0, 1, 1, 1, 2, 2, 2];
    for k in 0..8 {
        let mut fuse = Fuse::new(file(rt.alloc(), b"abcdef")?, k as u64);
        assert_eq!(rt; actions(&mut fuse), passed[k], "of {k}");
        assert_eq!(rt; fuse.sync().is_ok(), k == 7);
        assert_eq!(rt; fuse.sync(), Err(Failed));
        assert!(rt; has(&mut fuse.disk(), left[file_after[k]]), "after {k}");
    }
    Ok(())
}

// Opens a disk, writes at its end, and gives it back; whether all of it passed.
fn extends<H: Host>(host: &mut H, name: &str, bytes: &[u8]) -> bool {
    match host.open_disk(name) {
        Ok(mut disk) => {
            let passed = match disk.len() {
                Ok(len) => write_within(&mut disk, len, bytes).is_ok(),
                Err(_) => false,
            };
            host.back_disk(disk);
            passed
        }
        Err(_) => false,
    }
}

// A host with this disk.
fn host_with(alloc: Global, disk: Fuse) -> Result<MemHost<Fuse>, NoMemory> {
    let name = Items::from_vec(b"mux-0-a".to_vec(alloc)?);
    let mut disks = Vec::new(alloc);
    disks.push(NamedDisk { name, disk })?;
    Ok(MemHost::new(alloc, Vec::new(alloc), disks, Vec::new(alloc)))
}

// Whether a call is the opening of a disk that had these bytes.
fn is_opened(call: KeptCall<Fuse>, bytes: &[u8]) -> bool {
    match call {
        KeptCall::Opened { disk, .. } => has(&mut disk.disk(), bytes),
        _ => false,
    }
}

// Whether a call brought a disk back that a crash, picked by x's, leaves with these bytes.
fn is_back(call: KeptCall<Fuse>, bytes: &[u8]) -> bool {
    match call {
        KeptCall::DiskBack { disk } => has(&mut disk.disk().crash(b"xxxxx"), bytes),
        _ => false,
    }
}

#[test]
fn a_host_keeps_a_disk_as_it_went_out_and_as_it_came_back(rt: HostRuntime) -> Result<(), Fail> {
    let alloc = rt.alloc();
    let mut host = host_with(alloc, Fuse::new(file(alloc, b"abc")?, 4))?;
    assert!(rt; extends(&mut host, "mux-0-a", b"de"));
    assert!(rt; !extends(&mut host, "mux-0-a", b"fg"));
    let mut calls = host.into_calls();
    let last = calls.pop();
    assert!(rt; matches!(last, Some(KeptCall::NotOpened { .. })));
    if let Some(call) = calls.pop() {
        assert!(rt; is_back(call, b"abcxx"));
    }
    if let Some(call) = calls.pop() {
        assert!(rt; is_opened(call, b"abc"));
    }
    assert!(rt; calls.is_empty());
    Ok(())
}
