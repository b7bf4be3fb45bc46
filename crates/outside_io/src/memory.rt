ghost use Rattle.std.specs.Prelude.{◌≡◌, ◌<◌, ◌≤◌, min, true, Some, length, IfOk, IsErr, is_err};
ghost use Rattle.std.specs.Io.KnownBytes.{ReadConsumes, WriteAppends};
ghost use Rattle.outside_io.specs.Faults.{Rose, HasCause};
ghost use Rattle.outside_io.specs.Memory.{source_left, fails_now, CountsCall, sink_bytes};

use crate::failed::Failed;
use crate::streams::{Sink, Source};
use crate::sure::copy_from;

/// The calls that are to fail, by their numbers from 0, and how many failed.
#[derive(Debug, Drop)]
pub struct Failing {
    calls: u64,
    numbers: Vec<u64>,
    faults: u64,
}

impl Failing {
    /// None has failed yet.
    pub(crate) fn new(numbers: Vec<u64>) -> Failing
        ensures { result ≡ record { calls = 0; numbers = numbers; faults = 0 } }
    {
        Failing {
            calls: 0,
            numbers,
            faults: 0,
        }
    }

    /// Counts a call, and answers whether it is to fail.
    pub(crate) fn call(&mut self) -> bool
        ensures fails { result ≡ fails_now self.old }
        ensures counted { CountsCall self.old self.new }
        ensures faults { self.new.faults ≡ self.old.faults }
    {
        let call = self.calls;
        self.calls = call.saturating_add(1);
        self.numbers.contains(&call)
    }

    // Counts a fault.
    fn fail(&mut self) -> Failed
        ensures rose { Rose self.old.faults self.new.faults }
        ensures later { self.old.faults ≤ self.new.faults }
        ensures calls { self.new.calls ≡ self.old.calls }
        ensures numbers { self.new.numbers ≡ self.old.numbers }
    {
        self.faults = self.faults.saturating_add(1);
        Failed
    }
}

/// A source in memory, with the numbers of the calls that are to fail, from 0.
#[derive(Debug, Drop)]
pub struct MemSource {
    bytes: Vec<u8>,
    at: usize,
    failing: Failing,
}

impl MemSource {
    /// A source that gives these bytes. The calls with these numbers fail.
    pub fn new(bytes: Vec<u8>, failing: Vec<u64>) -> Self
        ensures bytes { source_left result ≡ bytes.items }
        ensures failing { result.failing ≡ record { calls = 0; numbers = failing; faults = 0 } }
    {
        MemSource {
            bytes,
            at: 0,
            failing: Failing::new(failing),
        }
    }
}

impl Source for MemSource {
    ghost left = { λ s. Some (source_left s) };

    ghost faults = { λ s. s.failing.faults };

    fn read(&mut self, buf: &mut [u8]) -> Result<usize, Failed>
        ensures fails { is_err result ≡ fails_now self.old.failing }
        ensures count { IfOk result (λ n. n ≡ min (length buf.new) (length (source_left self.old))) }
        ensures bytes { ReadConsumes (Some (source_left self.old)) (Some (source_left self.new)) result buf.new }
        ensures cause { HasCause self.old.failing.faults self.new.failing.faults result }
        ensures counted { CountsCall self.old.failing self.new.failing }
    {
        if self.failing.call() {
            return Err(self.failing.fail());
        }
        let count = copy_from(&self.bytes, self.at, buf);
        self.at += count;
        Ok(count)
    }
}

/// A sink in memory that takes at most so many bytes a call, with the numbers of the calls that are to fail, from 0.
#[derive(Debug, Drop)]
pub struct MemSink {
    bytes: Vec<u8>,
    most: usize,
    failing: Failing,
}

impl MemSink {
    /// A sink that writes behind these bytes, at most `most` a call. The calls with these numbers fail.
    pub fn new(bytes: Vec<u8>, most: usize, failing: Vec<u64>) -> Self
        ensures bytes { sink_bytes result ≡ bytes.items }
        ensures most { result.most ≡ most }
        ensures failing { result.failing ≡ record { calls = 0; numbers = failing; faults = 0 } }
    {
        MemSink {
            bytes,
            most,
            failing: Failing::new(failing),
        }
    }

    /// All bytes that it has.
    pub fn bytes(&self) -> &[u8]
        ensures { result.now ≡ sink_bytes self.now }
    {
        &self.bytes
    }
}

impl Sink for MemSink {
    ghost written = { λ s. Some (sink_bytes s) };

    ghost faults = { λ s. s.failing.faults };

    fn write(&mut self, bytes: &[u8]) -> Result<usize, Failed>
        ensures fails { fails_now self.old.failing ≡ true → IsErr result }
        ensures count { IfOk result (λ n. n ≡ min (length bytes.now) self.old.most) }
        ensures none { self.old.most ≡ 0 → 0 < length bytes.now → IsErr result }
        ensures bytes { WriteAppends (Some (sink_bytes self.old)) (Some (sink_bytes self.new)) result bytes.now }
        ensures cause { HasCause self.old.failing.faults self.new.failing.faults result }
        ensures counted { CountsCall self.old.failing self.new.failing }
        ensures most { self.new.most ≡ self.old.most }
    {
        if self.failing.call() || (self.most == 0 && !bytes.is_empty()) {
            return Err(self.failing.fail());
        }
        let count = bytes.len().min(self.most);
        match self.bytes.extend_from_slice(&bytes[..count]) {
            Ok(()) => Ok(count),
            Err(_) => Err(self.failing.fail()),
        }
    }
}
