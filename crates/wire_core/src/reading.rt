// Fields from the left: each reader answers the field at the front and the bytes after it.
ghost use Rattle.std.specs.Prelude.{◌≡◌};
ghost use Rattle.wire_core.specs.Reading.{Gives, field, count_at};

use byteorder::{BigEndian, ByteOrder};

/// What stops a reading from left to right.
#[derive(Clone, Copy, Debug, PartialEq, Eq)]
pub enum FieldFault {
    /// The bytes run out.
    Short,
    /// A field isn't allowed; so many bytes are left, counted from its first one.
    NotAllowed { left: usize },
}

/// The byte at the front, and the bytes after it. `Short` exactly where there is none.
pub fn take_u8(bytes: &[u8]) -> Result<(u8, &[u8]), FieldFault>
    ensures { Gives (λ x. (x.0, x.1.now)) result (field 1 bytes.now) }
{
    match bytes {
        [] => Err(FieldFault::Short),
        [first, rest @ ..] => Ok((*first, rest)),
    }
}

/// The number in the two bytes at the front, and the bytes after it. `Short` exactly where there are fewer.
pub fn take_u16(bytes: &[u8]) -> Result<(u16, &[u8]), FieldFault>
    ensures { Gives (λ x. (x.0, x.1.now)) result (field 2 bytes.now) }
{
    if bytes.len() < 2 {
        return Err(FieldFault::Short);
    }
    Ok((BigEndian::read_u16(bytes), &bytes[2..]))
}

/// The number in the four bytes at the front, and the bytes after it. `Short` exactly where there are fewer.
pub fn take_u32(bytes: &[u8]) -> Result<(u32, &[u8]), FieldFault>
    ensures { Gives (λ x. (x.0, x.1.now)) result (field 4 bytes.now) }
{
    if bytes.len() < 4 {
        return Err(FieldFault::Short);
    }
    Ok((BigEndian::read_u32(bytes), &bytes[4..]))
}

/// The number in the eight bytes at the front, and the bytes after it. `Short` exactly where there are fewer.
pub fn take_u64(bytes: &[u8]) -> Result<(u64, &[u8]), FieldFault>
    ensures { Gives (λ x. (x.0, x.1.now)) result (field 8 bytes.now) }
{
    if bytes.len() < 8 {
        return Err(FieldFault::Short);
    }
    Ok((BigEndian::read_u64(bytes), &bytes[8..]))
}

/// The count byte at the front, from 1 to 16, and the bytes after it.
#[tactic(auto, unfolding(crate::specs::Reading::count_at))]
pub fn take_count(bytes: &[u8]) -> Result<(u8, &[u8]), FieldFault>
    ensures { Gives (λ x. (x.0, x.1.now)) result (count_at bytes.now) }
{
    let (count, rest) = take_u8(bytes)?;
    if count == 0 || count > 16 {
        return Err(FieldFault::NotAllowed { left: bytes.len() });
    }
    Ok((count, rest))
}
