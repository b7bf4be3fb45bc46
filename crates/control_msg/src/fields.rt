// The fields that several messages have.
ghost use Rattle.std.specs.Prelude.{◌≡◌, ◌+◌, ◌≤◌, [], ◌∷◌, ◌++◌, OnOk, OnErr, IsOk, length, vec_len, vec_capacity};
ghost use Rattle.wire_core.specs.Commands.{value_bytes};
ghost use Rattle.wire_core.specs.Reading.{Gives};
ghost use Rattle.control_msg.specs.Messages.{address, number, spelled};
ghost use Rattle.control_msg.specs.Reading.{address_at, reason_at, side_at, start_at};

use wire_core::{
    FieldFault, Ip4, NoMemory, Value, put_bytes, put_u8, put_u32, put_u64, take_u8, take_u16,
    take_u32,
};

/// The address in the four bytes at the front, and the bytes after it.
#[tactic(auto, unfolding(crate::specs::Reading::address_at))]
pub fn take_address(bytes: &[u8]) -> Result<(Ip4, &[u8]), FieldFault>
    ensures { Gives (λ x. (x.0, x.1.now)) result (address_at bytes.now) }
{
    let (address, rest) = take_u32(bytes)?;
    Ok((Ip4(address), rest))
}

/// The first port of a range, a multiple of 8 from 1024 to 65528, and the bytes after it.
#[tactic(auto, unfolding(crate::specs::Reading::start_at))]
pub fn take_start(bytes: &[u8]) -> Result<(u16, &[u8]), FieldFault>
    ensures { Gives (λ x. (x.0, x.1.now)) result (start_at bytes.now) }
{
    let (start, rest) = take_u16(bytes)?;
    if start % 8 == 0 && start >= 1024 && start <= 65528 {
        Ok((start, rest))
    } else {
        Err(FieldFault::NotAllowed { left: bytes.len() })
    }
}

/// The reason of a refusal, 1 or 2, and the bytes after it.
#[tactic(auto, unfolding(crate::specs::Reading::reason_at))]
pub fn take_reason(bytes: &[u8]) -> Result<(u8, &[u8]), FieldFault>
    ensures { Gives (λ x. (x.0, x.1.now)) result (reason_at bytes.now) }
{
    let (reason, rest) = take_u8(bytes)?;
    if reason >= 1 && reason <= 2 {
        Ok((reason, rest))
    } else {
        Err(FieldFault::NotAllowed { left: bytes.len() })
    }
}

/// The side of a connection, 0 or 1, and the bytes after it.
#[tactic(auto, unfolding(crate::specs::Reading::side_at))]
pub fn take_side(bytes: &[u8]) -> Result<(u8, &[u8]), FieldFault>
    ensures { Gives (λ x. (x.0, x.1.now)) result (side_at bytes.now) }
{
    let (side, rest) = take_u8(bytes)?;
    if side <= 1 {
        Ok((side, rest))
    } else {
        Err(FieldFault::NotAllowed { left: bytes.len() })
    }
}

/// Appends the version and a kind. There must be room for both.
pub fn put_head(out: &mut Vec<u8>, kind: u8)
    requires { vec_len out.old + 2 ≤ vec_capacity out.old }
    ensures bytes { out.new.items ≡ out.old.items ++ 1 ∷ kind ∷ [] }
    ensures len { vec_len out.new ≡ vec_len out.old + 2 }
    ensures room { vec_capacity out.old ≤ vec_capacity out.new }
{
    put_bytes(out, &[1, kind]);
}

/// Appends an address. There must be room for it.
pub fn put_address(out: &mut Vec<u8>, a: Ip4)
    requires { vec_len out.old + 4 ≤ vec_capacity out.old }
    ensures bytes { out.new.items ≡ out.old.items ++ address a }
    ensures len { vec_len out.new ≡ vec_len out.old + 4 }
    ensures room { vec_capacity out.old ≤ vec_capacity out.new }
{
    put_u32(out, a.0);
}

/// Appends a message of one number. Without memory `out` stays as it was.
pub fn write_number(out: &mut Vec<u8>, kind: u8, a: u64) -> Result<(), NoMemory>
    ensures ok { OnOk result (out.new.items ≡ out.old.items ++ spelled kind (number a)) }
    ensures err { OnErr result (out.new.items ≡ out.old.items) }
    ensures room { vec_len out.old + length (spelled kind (number a)) ≤ vec_capacity out.old → IsOk result }
{
    out.reserve(10)?;
    put_head(out, kind);
    put_u64(out, a);
    Ok(())
}

/// Appends a message of two numbers. Without memory `out` stays as it was.
pub fn write_two_numbers(out: &mut Vec<u8>, kind: u8, a: u64, b: u64) -> Result<(), NoMemory>
    ensures ok { OnOk result (out.new.items ≡ out.old.items ++ spelled kind (number a ++ number b)) }
    ensures err { OnErr result (out.new.items ≡ out.old.items) }
    ensures room { vec_len out.old + length (spelled kind (number a ++ number b)) ≤ vec_capacity out.old
        → IsOk result }
{
    out.reserve(18)?;
    put_head(out, kind);
    put_u64(out, a);
    put_u64(out, b);
    Ok(())
}

/// Appends a message of three numbers. Without memory `out` stays as it was.
pub fn write_three_numbers(
    out: &mut Vec<u8>,
    kind: u8,
    a: u64,
    b: u64,
    c: u64,
) -> Result<(), NoMemory>
    ensures ok { OnOk result (out.new.items ≡ out.old.items ++ spelled kind (number a ++ number b ++ number c)) }
    ensures err { OnErr result (out.new.items ≡ out.old.items) }
    ensures room { vec_len out.old + length (spelled kind (number a ++ number b ++ number c)) ≤ vec_capacity out.old
        → IsOk result }
{
    out.reserve(26)?;
    put_head(out, kind);
    put_u64(out, a);
    put_u64(out, b);
    put_u64(out, c);
    Ok(())
}

/// Appends a message of two numbers and a value. Without memory `out` stays as it was.
pub fn write_valued(
    out: &mut Vec<u8>,
    kind: u8,
    a: u64,
    b: u64,
    value: &Value,
) -> Result<(), NoMemory>
    ensures ok { OnOk result (out.new.items
        ≡ out.old.items ++ spelled kind (number a ++ number b ++ value_bytes value.now)) }
    ensures err { OnErr result (out.new.items ≡ out.old.items) }
    ensures room { vec_len out.old + length (spelled kind (number a ++ number b ++ value_bytes value.now))
        ≤ vec_capacity out.old → IsOk result }
{
    let bytes = value.as_bytes();
    out.reserve(bytes.len().saturating_add(18))?;
    put_head(out, kind);
    put_u64(out, a);
    put_u64(out, b);
    put_bytes(out, bytes);
    Ok(())
}
