ghost use Rattle.std.specs.Prelude.{◌≡◌, ◌+◌, ◌≤◌, ◌++◌, IsOk, OnErr, OnOk, codes, decimal};
ghost use Rattle.std.specs.Prelude.{string_bytes, string_capacity, string_len};
ghost use Rattle.address_text.specs.Addresses.{address_of, address_text, socket_of};

use crate::fields::{four, two};
use crate::number::read_number;
use itoa::Buffer;
use wire_core::{Ip4, NoMemory, Socket};

/// An IPv4 address: four numbers from 0 to 255 between dots. `None` exactly where the text is no address.
#[tactic(auto, unfolding(crate::specs::Addresses::address_of))]
pub fn read_address(text: &[u8]) -> Option<Ip4>
    ensures { result ≡ address_of text.now }
{
    let (a, b, c, d) = four(text, b'.')?;
    let a = read_number(a, 255)? as u8;
    let b = read_number(b, 255)? as u8;
    let c = read_number(c, 255)? as u8;
    let d = read_number(d, 255)? as u8;
    Some(Ip4(u32::from_be_bytes([a, b, c, d])))
}

/// An address, a colon and a port from 1 to 65535. `None` exactly where the text is no socket.
#[tactic(auto, unfolding(crate::specs::Addresses::socket_of))]
pub fn read_socket(text: &[u8]) -> Option<Socket>
    ensures { result ≡ socket_of text.now }
{
    let (ip, port) = two(text, b':')?;
    let ip = read_address(ip)?;
    let port = read_number(port, 65535)? as u16;
    if port == 0 {
        None
    } else {
        Some(Socket { ip, port })
    }
}

/// The most bytes of an address's spelling, such as `255.255.255.255`.
const LONGEST: usize = 15;

/// Appends a byte in decimal. There must be room for three digits.
fn push_byte(out: &mut String, byte: u8)
    requires { string_len out.old + 3 ≤ string_capacity out.old }
    ensures bytes { string_bytes out.new ≡ string_bytes out.old ++ decimal byte }
    ensures len { string_len out.new ≤ string_len out.old + 3 }
    ensures room { string_capacity out.old ≤ string_capacity out.new }
{
    let mut buffer = Buffer::new();
    out.push_str(buffer.format(byte)).unwrap();
}

/// Appends a dot and a byte in decimal. There must be room for them.
fn push_dotted(out: &mut String, byte: u8)
    requires { string_len out.old + 4 ≤ string_capacity out.old }
    ensures bytes { string_bytes out.new ≡ string_bytes out.old ++ codes "." ++ decimal byte }
    ensures len { string_len out.new ≤ string_len out.old + 4 }
    ensures room { string_capacity out.old ≤ string_capacity out.new }
{
    out.push_str(".").unwrap();
    push_byte(out, byte);
}

/// Appends the address's one spelling. It takes memory only where `out` has no room for 15 more bytes, and without
/// memory `out` stays as it was.
pub fn write_address(out: &mut String, ip: Ip4) -> Result<(), NoMemory>
    ensures ok { OnOk result (string_bytes out.new ≡ string_bytes out.old ++ address_text ip) }
    ensures err { OnErr result (string_bytes out.new ≡ string_bytes out.old) }
    ensures room { string_len out.old + 15 ≤ string_capacity out.old → IsOk result }
{
    out.reserve(LONGEST)?;
    let [a, b, c, d] = ip.0.to_be_bytes();
    push_byte(out, a);
    push_dotted(out, b);
    push_dotted(out, c);
    push_dotted(out, d);
    Ok(())
}
