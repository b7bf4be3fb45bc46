ghost use Rattle.std.specs.Prelude.{◌≡◌, ◌-◌, ◌<◌, [], Some, None, take, drop, length, min, Ok, IfOk, IsOk};
ghost use Rattle.std.specs.Io.KnownBytes.{ReadConsumes};
ghost use Rattle.outside_io.specs.Memory.{sure_left};

use crate::failed::Failed;
use crate::streams::{Sink, Source};

/// A source in memory that never fails.
#[derive(Debug, Drop)]
pub struct SureSource {
    bytes: Vec<u8>,
    at: usize,
}

impl SureSource {
    /// A source that gives these bytes.
    pub fn new(bytes: Vec<u8>) -> Self
        ensures { sure_left result ≡ bytes.items }
    {
        SureSource { bytes, at: 0 }
    }
}

/// Copies from a place on as much as is there and as there is room for, and answers how much.
pub fn copy_from(bytes: &[u8], at: usize, buf: &mut [u8]) -> usize
    ensures count { result ≡ min (length buf.new) (length bytes.now - at) }
    ensures bytes { take result buf.new ≡ take result (drop at bytes.now) }
    ensures end { result ≡ 0 → 0 < length buf.new → drop at bytes.now ≡ [] }
    ensures room { length buf.new ≡ length buf.old }
{
    if at >= bytes.len() {
        return 0;
    }
    let left = &bytes[at..];
    let count = buf.len().min(left.len());
    buf[..count].copy_from_slice(&left[..count]);
    count
}

impl Source for SureSource {
    ghost left = { λ s. Some (sure_left s) };

    ghost faults = { λ _. 0 };

    fn read(&mut self, buf: &mut [u8]) -> Result<usize, Failed>
        ensures count { IfOk result (λ n. n ≡ min (length buf.new) (length (sure_left self.old))) }
        ensures ok { IsOk result }
        ensures bytes { ReadConsumes (Some (sure_left self.old)) (Some (sure_left self.new)) result buf.new }
    {
        let count = copy_from(&self.bytes, self.at, buf);
        self.at += count;
        Ok(count)
    }
}

/// A sink that takes everything, keeps nothing, and never fails.
#[derive(Clone, Copy, Debug)]
pub struct SureSink;

impl Sink for SureSink {
    ghost written = { λ _. None };

    ghost faults = { λ _. 0 };

    fn write(&mut self, bytes: &[u8]) -> Result<usize, Failed>
        ensures { result ≡ Ok (length bytes.now) }
    {
        Ok(bytes.len())
    }
}
