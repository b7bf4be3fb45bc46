ghost use Rattle.std.specs.Prelude.{◌≡◌};
ghost use Rattle.wire_core.specs.Numbers.{number_at};

use byteorder::{BigEndian, ByteOrder};

/// The big-endian number in the two bytes from `at` on. `None` exactly where fewer remain.
pub fn read_u16(bytes: &[u8], at: usize) -> Option<u16>
    ensures { result ≡ number_at 2 bytes.now at }
{
    if at > bytes.len() || bytes.len() - at < 2 {
        return None;
    }
    Some(BigEndian::read_u16(&bytes[at..]))
}

/// The big-endian number in the four bytes from `at` on. `None` exactly where fewer remain.
pub fn read_u32(bytes: &[u8], at: usize) -> Option<u32>
    ensures { result ≡ number_at 4 bytes.now at }
{
    if at > bytes.len() || bytes.len() - at < 4 {
        return None;
    }
    Some(BigEndian::read_u32(&bytes[at..]))
}

/// The big-endian number in the eight bytes from `at` on. `None` exactly where fewer remain.
pub fn read_u64(bytes: &[u8], at: usize) -> Option<u64>
    ensures { result ≡ number_at 8 bytes.now at }
{
    if at > bytes.len() || bytes.len() - at < 8 {
        return None;
    }
    Some(BigEndian::read_u64(&bytes[at..]))
}
