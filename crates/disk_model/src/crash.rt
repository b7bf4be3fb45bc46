// What a crash leaves.
ghost use Rattle.std.specs.Prelude.{◌≡◌, ◌≤◌, ◌||◌, [], length, get_or, nat_le};
ghost use Rattle.std.specs.List.{list_any};
ghost use Rattle.outside_io.specs.Disk.{kept, IsImage, is_in};
ghost use Rattle.disk_model.specs.Picked.{picked};
ghost use Rattle.disk_model.specs.Overlays.{IsLaid, IsOverlaid, AreOverlaid};

use crate::state::MemDisk;
use outside_io::Span;

fn byte_at(pick: &[u8], i: usize) -> u8
    ensures { result ≡ get_or pick.now i 0 }
{
    if i < pick.len() { pick[i] } else { 0 }
}

// Puts the pick's bytes at the places from `from` to before `to`.
fn overlay(bytes: &mut [u8], from: usize, to: usize, pick: &[u8])
    requires forward { from ≤ to }
    requires within { to ≤ length bytes.old }
    ensures { IsOverlaid from to pick.now bytes.old bytes.new }
{
    for i in from..to {
        bytes[i] = byte_at(pick, i);
    }
}

// Puts the pick's bytes at the places of the ranges.
fn overlay_all(bytes: &mut [u8], ranges: &[Span], pick: &[u8])
    ensures { AreOverlaid ranges.now pick.now bytes.old bytes.new }
{
    for range in ranges {
        let to = (range.to as usize).min(bytes.len());
        overlay(bytes, (range.from as usize).min(to), to, pick);
    }
}

// Puts the pick's bytes at the places of the ranges, and from `end` on.
fn lay(bytes: &mut [u8], ranges: &[Span], end: usize, pick: &[u8])
    requires { end ≤ length bytes.old }
    ensures { IsLaid (λ i. list_any (is_in i) ranges.now || nat_le end i) pick.now bytes.old bytes.new }
{
    overlay_all(bytes, ranges, pick);
    let len = bytes.len();
    overlay(bytes, end, len, pick);
}

impl MemDisk {
    /// What a crash leaves: the image that is as near to `pick` as an image can be. Its length is that of `pick`, but
    /// no less than the least and no more than the greatest that the file had since the last sync. Where bytes were
    /// written since then, and past the end of the file, its bytes are those of `pick`, 0 past the end of `pick`;
    /// elsewhere they are the file's. Nothing is pending then, nothing is known of before, and no fault is counted.
    /// Takes no memory, and time in the bytes written since the last sync.
    pub fn crash(self, pick: &[u8]) -> MemDisk
        ensures left { result.history ≡ record { now = kept (picked self.history.now pick.now); past = [] } }
        ensures image { IsImage self.history.now (picked self.history.now pick.now) }
        ensures faults { result.faults ≡ 0 }
    {
        let MemDisk {
            alloc,
            mut buffer,
            len,
            mut unsynced,
            least,
            mut undo,
            ..
        } = self;
        let left = least.max(pick.len()).min(buffer.len());
        buffer.truncate(left);
        lay(&mut buffer, &unsynced, len.min(left), pick);
        unsynced.clear();
        undo.clear();
        MemDisk {
            alloc,
            buffer,
            len: left,
            unsynced,
            least: left,
            undo,
            faults: 0,
        }
    }
}
