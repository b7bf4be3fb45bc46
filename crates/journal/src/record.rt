// A record: length, body and the next gate.
ghost use Rattle.std.specs.Prelude.{◌≡◌, ◌≤◌, ◌+◌, ◌++◌, length, take, drop};
ghost use Rattle.journal.specs.File.{size, size_bytes, record_with, is_entry};

use byteorder::{BigEndian, ByteOrder};
use wire_core::Entry;

/// The most bytes of a body.
pub const MAX_BODY: u32 = 65_536;

/// The room for one record: a length, the longest body and a gate.
pub const RECORD_ROOM: usize = 65_541;

/// Whether the body spells an entry.
#[tactic(auto, unfolding(crate::specs::File::is_entry))]
pub fn is_entry(body: &[u8]) -> bool
    ensures { result ≡ is_entry body.now }
{
    Entry::read(body).is_ok()
}

/// The length behind an open gate.
#[tactic(auto, unfolding(crate::specs::File::size))]
pub fn read_size(head: &[u8]) -> u32
    requires { 5 ≤ length head.now }
    ensures { result ≡ size head.now }
{
    BigEndian::read_u32(&head[1..5])
}

// The length of a body.
#[tactic(auto, unfolding(crate::specs::File::size_bytes))]
fn write_size(room: &mut [u8], n: u32)
    requires { 4 ≤ length room.old }
    ensures { room.new ≡ size_bytes n ++ drop 4 room.old }
{
    BigEndian::write_u32(room, n);
}

/// Puts length, body and a gate at the front of the room.
pub fn compose(room: &mut [u8], body: &[u8], gate: u8)
    requires room { length body.now + 5 ≤ length room.old }
    requires size { length body.now ≤ 65536 }
    ensures bytes { take (length body.now + 5) room.new ≡ record_with body.now gate }
    ensures length { length room.new ≡ length room.old }
{
    let n = body.len();
    write_size(room, n as u32);
    room[4..n + 4].copy_from_slice(body);
    room[n + 4] = gate;
}
