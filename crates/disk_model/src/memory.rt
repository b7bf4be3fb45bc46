// The calls of a file in memory. Each reserves its memory first, so that nothing has changed where there is none.
ghost use Rattle.std.specs.Prelude.{◌≡◌, ◌≤◌, ◌<◌, ◌+◌, ◌-◌, min, Option, Some, [], ◌∷◌, ◌++◌, length, drop, take, OnOk, OnErr, IfOk, Ok};
ghost use Rattle.outside_io.specs.Disk.{ReadsAnImage, kept, wrote, shortened, Does, Syncs, Reads, Within};
ghost use Rattle.outside_io.specs.Faults.{Rose, HasCause};

use crate::state::{MemDisk, Replaced, Undo};
use outside_io::{Disk, Failed, Span};
use std::alloc::Global;
use std::mem;
use wire_core::{Items, NoMemory};

// Puts the piece over what is there from `at` on, and past the end.
fn put(bytes: &mut Vec<u8>, at: usize, piece: &[u8]) -> Result<(), NoMemory>
    requires { at ≤ length bytes.old.items }
    ensures ok { OnOk result (bytes.new.items
        ≡ take at bytes.old.items ++ piece.now ++ drop (at + length piece.now) bytes.old.items) }
    ensures err { OnErr result (bytes.new.items ≡ bytes.old.items) }
{
    let over = piece.len().min(bytes.len() - at);
    bytes.extend_from_slice(&piece[over..])?;
    bytes[at..at + over].copy_from_slice(&piece[..over]);
    Ok(())
}

// Copies the bytes from a place on, as many as there are and as there is room for, and answers how many.
fn read_from(bytes: &[u8], at: usize, buf: &mut [u8]) -> usize
    ensures count { result ≡ min (length buf.old) (length bytes.now - at) }
    ensures bytes { take result buf.new ≡ take result (drop at bytes.now) }
    ensures room { length buf.new ≡ length buf.old }
{
    if at >= bytes.len() {
        return 0;
    }
    let left = &bytes[at..];
    let count = buf.len().min(left.len());
    buf[..count].copy_from_slice(&left[..count]);
    count
}

impl MemDisk {
    /// An empty file, of which nothing is pending.
    pub fn new(alloc: Global) -> Result<MemDisk, NoMemory>
        ensures empty { IfOk result (λ disk. disk.history ≡ record { now = kept []; past = [] }) }
        ensures faults { IfOk result (λ disk. disk.faults ≡ 0) }
    {
        Ok(MemDisk {
            alloc,
            buffer: Vec::new(alloc),
            len: 0,
            unsynced: Vec::new(alloc),
            least: 0,
            undo: Vec::new(alloc),
            faults: 0,
        })
    }

    // Counts a fault.
    fn fail(&mut self) -> Failed
        ensures rose { Rose self.old.faults self.new.faults }
        ensures later { self.old.faults ≤ self.new.faults }
        ensures same { self.new.history ≡ self.old.history }
    {
        self.faults = self.faults.saturating_add(1);
        Failed
    }

    fn write(&mut self, at: usize, piece: &[u8]) -> Result<(), NoMemory>
        requires { at ≤ length self.old.history.now.bytes }
        ensures written { Does (wrote at piece.now) (Some self.old.history) (Some self.new.history) result }
        ensures same { OnErr result (self.new.history ≡ self.old.history) }
        ensures faults { self.new.faults ≡ self.old.faults }
    {
        let count = piece.len().min(self.len - at);
        let old = Items::from_vec(self.buffer[at..at + count].to_vec(self.alloc)?);
        self.unsynced.reserve(1)?;
        self.undo.reserve(1)?;
        let greatest = self.buffer.len();
        put(&mut self.buffer, at, piece)?;
        let end = at + piece.len();
        self.unsynced
            .push(Span {
                from: at as u64,
                to: end as u64,
            })
            .unwrap();
        self.undo
            .push(Undo {
                replaced: Replaced::Bytes {
                    at,
                    count: piece.len(),
                    old,
                },
                least: self.least,
                greatest,
            })
            .unwrap();
        self.len = self.len.max(end);
        Ok(())
    }

    fn shorten(&mut self, len: usize) -> Result<(), NoMemory>
        requires { len ≤ length self.old.history.now.bytes }
        ensures cut { Does (shortened len) (Some self.old.history) (Some self.new.history) result }
        ensures same { OnErr result (self.new.history ≡ self.old.history) }
        ensures faults { self.new.faults ≡ self.old.faults }
    {
        let old = Items::from_vec(self.buffer[len..self.len].to_vec(self.alloc)?);
        self.unsynced.reserve(1)?;
        self.undo.reserve(1)?;
        self.unsynced
            .push(Span {
                from: len as u64,
                to: self.len as u64,
            })
            .unwrap();
        self.undo
            .push(Undo {
                replaced: Replaced::Bytes {
                    at: len,
                    count: 0,
                    old,
                },
                least: self.least,
                greatest: self.buffer.len(),
            })
            .unwrap();
        self.least = self.least.min(len);
        self.len = len;
        Ok(())
    }

    fn keep(&mut self) -> Result<(), NoMemory>
        ensures kept { Syncs (Some self.old.history) (Some self.new.history) result }
        ensures faults { self.new.faults ≡ self.old.faults }
    {
        self.undo.reserve(1)?;
        let greatest = self.buffer.len();
        let unsynced = Items::from_vec(mem::replace(&mut self.unsynced, Vec::new(self.alloc)));
        self.undo
            .push(Undo {
                replaced: Replaced::Ranges { unsynced },
                least: self.least,
                greatest,
            })
            .unwrap();
        self.buffer.truncate(self.len);
        self.least = self.len;
        Ok(())
    }
}

impl Disk for MemDisk {
    ghost history = { λ disk. Some disk.history };

    ghost faults = { λ disk. disk.faults };

    fn len(&mut self) -> Result<u64, Failed>
        ensures length { result ≡ Ok (length self.old.history.now.bytes) }
        ensures same { self.new ≡ self.old }
    {
        Ok(self.len as u64)
    }

    fn read(&mut self, at: u64, buf: &mut [u8]) -> Result<usize, Failed>
        ensures bytes { Reads (Some self.old.history) at buf.old buf.new result }
        ensures count { result ≡ Ok (min (length buf.old) (length self.old.history.now.bytes - at)) }
        ensures room { length buf.new ≡ length buf.old }
        ensures image { ReadsAnImage (Some self.old.history) }
        ensures same { self.new ≡ self.old }
    {
        Ok(read_from(&self.buffer[..self.len], at as usize, buf))
    }

    fn write_at(&mut self, at: u64, bytes: &[u8]) -> Result<(), Failed>
        requires { Within (Some self.old.history) at }
        ensures written { Does (wrote at bytes.now) (Some self.old.history) (Some self.new.history) result }
        ensures same { OnErr result (self.new.history ≡ self.old.history) }
        ensures cause { HasCause self.old.faults self.new.faults result }
    {
        match self.write(at as usize, bytes) {
            Ok(()) => Ok(()),
            Err(_) => Err(self.fail()),
        }
    }

    fn cut(&mut self, len: u64) -> Result<(), Failed>
        requires { Within (Some self.old.history) len }
        ensures cut { Does (shortened len) (Some self.old.history) (Some self.new.history) result }
        ensures same { OnErr result (self.new.history ≡ self.old.history) }
        ensures cause { HasCause self.old.faults self.new.faults result }
    {
        match self.shorten(len as usize) {
            Ok(()) => Ok(()),
            Err(_) => Err(self.fail()),
        }
    }

    fn sync(&mut self) -> Result<(), Failed> {
        match self.keep() {
            Ok(()) => Ok(()),
            Err(_) => Err(self.fail()),
        }
    }
}
