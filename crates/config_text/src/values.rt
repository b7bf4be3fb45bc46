ghost use Rattle.std.specs.Prelude.{◌≡◌, ◌≤◌, IfSome};
ghost use Rattle.serde_json.specs.View.{view};
ghost use Rattle.config_text.specs.Members.{address_in, number_in, proto_in, socket_in, whole_in};

use address_text::{read_address, read_socket};
use serde_json::Value;
use wire_core::{Ip4, Proto, Socket};

/// A number from 0, spelled without fraction or exponent, below 2^64.
pub fn whole_in(value: &Value) -> Option<u64>
    ensures { result ≡ whole_in (view value.now) }
{
    value.as_u64()
}

/// A number from `low` to `high`.
pub fn number_in(value: &Value, low: u64, high: u64) -> Option<u64>
    ensures read { result ≡ number_in low high (view value.now) }
    ensures within { IfSome result (λ n. n ≤ high) }
{
    let number = whole_in(value)?;
    if low <= number && number <= high {
        Some(number)
    } else {
        None
    }
}

/// A text that is an address.
pub fn address_in(value: &Value) -> Option<Ip4>
    ensures { result ≡ address_in (view value.now) }
{
    read_address(value.as_str()?.as_bytes())
}

/// A text that is a socket.
pub fn socket_in(value: &Value) -> Option<Socket>
    ensures { result ≡ socket_in (view value.now) }
{
    read_socket(value.as_str()?.as_bytes())
}

/// `tcp` or `udp`.
pub fn proto_in(value: &Value) -> Option<Proto>
    ensures { result ≡ proto_in (view value.now) }
{
    match value.as_str()? {
        "tcp" => Some(Proto::Tcp),
        "udp" => Some(Proto::Udp),
        _ => None,
    }
}
