ghost use Rattle.std.specs.Prelude.{◌≤◌, ◌≡◌, None, Ok, IfOk, length};
ghost use Rattle.outside_io.specs.Faults.{HasCause};

use crate::faults::counted;
use outside_io::{Disk, Failed};
use std::fs::{File, OpenFile, OpenOptions};
use std::io;
use std::os::unix::fs::FileExt;
use std::rt::Files;

/// A file as a disk. A sync of it is the system's `fsync`.
#[derive(Drop)]
pub struct FileDisk {
    file: File,
    faults: u64,
}

impl FileDisk {
    /// The file of this name in the folder that the program runs in, made where there is none. The folder is synced
    /// too, so that a crash of the machine doesn't take the file's name.
    pub fn open<R: Files<File = File>>(rt: &R, name: &str) -> io::Result<FileDisk>
        ensures { IfOk result (λ disk. disk.faults ≡ 0) }
    {
        let file = OpenOptions::new()
            .read(true)
            .write(true)
            .create(true)
            .open(rt, name)?;
        File::open(rt, ".")?.sync_all()?;
        Ok(FileDisk { file, faults: 0 })
    }

    /// How often a call of it has failed.
    pub fn faults(&self) -> u64
        ensures { result ≡ self.now.faults }
    {
        self.faults
    }
}

// All that there is from a place on, and that there is room for: the system may answer less at once.
fn read_all_at(file: &File, buf: &mut [u8], at: u64) -> io::Result<usize>
    ensures count { IfOk result (λ n. n ≤ length buf.old) }
    ensures room { length buf.new ≡ length buf.old }
{
    let mut got = 0;
    while got < buf.len() {
        let n = file.read_at(&mut buf[got..], at.saturating_add(got as u64))?;
        if n == 0 {
            return Ok(got);
        }
        got += n;
    }
    Ok(got)
}

impl Disk for FileDisk {
    ghost history = { λ _. None };

    ghost faults = { λ disk. disk.faults };

    fn len(&mut self) -> Result<u64, Failed> {
        match counted(&mut self.faults, self.file.metadata()) {
            Ok(metadata) => Ok(metadata.len()),
            Err(Failed) => Err(Failed),
        }
    }

    fn read(&mut self, at: u64, buf: &mut [u8]) -> Result<usize, Failed> {
        counted(&mut self.faults, read_all_at(&self.file, buf, at))
    }

    fn write_at(&mut self, at: u64, bytes: &[u8]) -> Result<(), Failed> {
        counted(&mut self.faults, self.file.write_all_at(bytes, at))
    }

    fn cut(&mut self, len: u64) -> Result<(), Failed> {
        counted(&mut self.faults, self.file.set_len(len))
    }

    fn sync(&mut self) -> Result<(), Failed> {
        counted(&mut self.faults, self.file.sync_all())
    }
}
