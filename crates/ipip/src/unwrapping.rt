ghost use Rattle.std.specs.Prelude.{◌≡◌};
ghost use Rattle.wire_core.specs.Reading.{Gives};
ghost use Rattle.ipip.specs.Wrapping.{inner_of, unwrapped};

use ip_codec::{Ip4View, IpFault};
use wire_core::Ip4;

/// The number of the protocol of a packet within a packet (RFC 2003, section 3.1).
const IPIP: u8 = 4;

/// What a packet carries, and its own two addresses.
#[derive(Clone, Copy, Debug, PartialEq, Eq)]
pub struct Inner<'a> {
    pub outer_src: Ip4,
    pub outer_dst: Ip4,
    /// What follows the outer header, up to its total length.
    pub bytes: &'a [u8],
}

/// Why there is no packet within a packet.
#[derive(Clone, Copy, Debug, PartialEq, Eq)]
pub enum UnwrapFault {
    /// The outer header is faulty.
    Ip(IpFault),
    /// The outer header's protocol isn't 4.
    NotIpip,
}

/// What the packet carries. `Ip` exactly where its own header has that fault, else `NotIpip` exactly where its protocol
/// isn't 4.
pub fn unwrap(bytes: &[u8]) -> Result<Inner<'_>, UnwrapFault>
    ensures { Gives inner_of result (unwrapped bytes.now) }
{
    match Ip4View::read(bytes) {
        Err(fault) => Err(UnwrapFault::Ip(fault)),
        Ok(outer) => {
            if outer.proto_number() == IPIP {
                Ok(Inner {
                    outer_src: outer.src(),
                    outer_dst: outer.dst(),
                    bytes: outer.payload(),
                })
            } else {
                Err(UnwrapFault::NotIpip)
            }
        }
    }
}
