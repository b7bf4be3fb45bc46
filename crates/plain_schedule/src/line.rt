ghost use Rattle.std.specs.Prelude.{◌≡◌, IfOk};
ghost use Rattle.std.specs.Option.{option_copied};
ghost use Rattle.address_text.specs.Fields.{parts_of};
ghost use Rattle.plain_schedule.specs.Lines.{are_bounds, ask_line, bytes_in, bytes_of, lease_line, line_of, packet_line, reply_line, return_line, vip_line};

use address_text::{cut, read_address, read_number, three, two};
use hex::{FromHexError, decode};
use std::alloc::{AllocError, Global};
use wire_core::{Ip4, Items, NoMemory};

/// The most bytes of a packet: what a datagram carries.
const MAX_BYTES: usize = 65_507;

/// A line of a plain schedule behind the first.
#[derive(Debug, Drop)]
pub enum Line {
    /// Empty, or a comment.
    Skip,
    /// The ports of a VIP from `low` to `high`.
    Vip { vip: Ip4, low: u16, high: u16 },
    /// The machine asks for a range of the VIP.
    Ask { vip: Ip4, machine: Ip4 },
    /// Lease `n` is given back.
    Return { n: u64 },
    /// A machine sends a packet.
    Packet { bytes: Items<u8> },
    /// A remote end answers with a packet.
    Reply { bytes: Items<u8> },
}

/// Whether ranges of eight ports fill these bounds, of at least two ports, from port 1024 on.
fn are_bounds(low: u16, high: u16) -> bool
    ensures { result ≡ are_bounds low high }
{
    low % 8 == 0 && 1024 <= low && (high as u32 + 1) % 8 == 0 && low < high
}

#[tactic(auto, unfolding(crate::specs::Lines::vip_line))]
fn vip_line(fields: Option<&[u8]>) -> Option<Line>
    ensures { result ≡ vip_line (parts_of 32 (option_copied fields.entry)) }
{
    let (vip, low, high) = three(fields?, b' ')?;
    let vip = read_address(vip)?;
    let low = read_number(low, 65535)? as u16;
    let high = read_number(high, 65535)? as u16;
    if are_bounds(low, high) {
        Some(Line::Vip { vip, low, high })
    } else {
        None
    }
}

#[tactic(auto, unfolding(crate::specs::Lines::ask_line))]
fn ask_line(fields: Option<&[u8]>) -> Option<Line>
    ensures { result ≡ ask_line (parts_of 32 (option_copied fields.entry)) }
{
    let (vip, machine) = two(fields?, b' ')?;
    let vip = read_address(vip)?;
    let machine = read_address(machine)?;
    Some(Line::Ask { vip, machine })
}

#[tactic(auto, using(crate::proofs::LinesAndEffects::one_more), unfolding(crate::specs::Lines::return_line))]
fn return_line(fields: Option<&[u8]>) -> Option<Line>
    ensures { result ≡ return_line (parts_of 32 (option_copied fields.entry)) }
{
    let (n, rest) = cut(fields?, b' ');
    match rest {
        None => Some(Line::Return {
            n: read_number(n, u64::MAX)?,
        }),
        Some(_) => None,
    }
}

/// The bytes of a packet in hexadecimal. `None` exactly where the text is no such.
fn read_bytes(alloc: Global, text: &[u8]) -> Result<Option<Items<u8>>, NoMemory>
    ensures { IfOk result (λ bytes. bytes ≡ bytes_of text.now) }
{
    match decode(alloc, text) {
        Ok(bytes) => {
            if bytes.is_empty() || bytes.len() > MAX_BYTES {
                Ok(None)
            } else {
                Ok(Some(Items::from_vec(bytes)))
            }
        }
        Err(FromHexError::OutOfMemory) => Err(AllocError),
        Err(_) => Ok(None),
    }
}

/// One field of bytes.
#[tactic(auto, using(crate::proofs::LinesAndEffects::one_more))]
fn read_packet(alloc: Global, fields: Option<&[u8]>) -> Result<Option<Items<u8>>, NoMemory>
    ensures { IfOk result (λ bytes. bytes ≡ bytes_in (parts_of 32 (option_copied fields.entry))) }
{
    let Some(text) = fields else {
        return Ok(None);
    };
    match cut(text, b' ') {
        (digits, None) => read_bytes(alloc, digits),
        (_, Some(_)) => Ok(None),
    }
}

/// A line that a machine sends.
fn packet_line(bytes: Option<Items<u8>>) -> Option<Line>
    ensures { result ≡ packet_line bytes }
{
    Some(Line::Packet { bytes: bytes? })
}

/// A line that a remote end answers with.
fn reply_line(bytes: Option<Items<u8>>) -> Option<Line>
    ensures { result ≡ reply_line bytes }
{
    Some(Line::Reply { bytes: bytes? })
}

/// A line about VIPs and leases.
fn lease_line(word: &[u8], fields: Option<&[u8]>) -> Option<Line>
    ensures { result ≡ lease_line word.now (parts_of 32 (option_copied fields.entry)) }
{
    if word == b"vip".as_slice() {
        vip_line(fields)
    } else if word == b"ask".as_slice() {
        ask_line(fields)
    } else if word == b"return".as_slice() {
        return_line(fields)
    } else {
        None
    }
}

/// What a line says. `None` exactly where it is none of a plain schedule's. Its memory is that of a packet's bytes.
pub fn line_of(alloc: Global, text: &[u8]) -> Result<Option<Line>, NoMemory>
    ensures { IfOk result (λ line. line ≡ line_of text.now) }
{
    if text.is_empty() || text[0] == b'#' {
        return Ok(Some(Line::Skip));
    }
    let (word, fields) = cut(text, b' ');
    if word == b"packet".as_slice() {
        Ok(packet_line(read_packet(alloc, fields)?))
    } else if word == b"reply".as_slice() {
        Ok(reply_line(read_packet(alloc, fields)?))
    } else {
        Ok(lease_line(word, fields))
    }
}
