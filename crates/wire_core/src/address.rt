/// An IPv4 address (RFC 791) as a number: 10.1.0.4 is `0x0a01_0004`.
#[derive(Clone, Copy, Debug, PartialEq, Eq, PartialOrd, Ord, Hash)]
pub struct Ip4(pub u32);

/// An address with a UDP or TCP port.
#[derive(Clone, Copy, Debug, PartialEq, Eq, PartialOrd, Ord, Hash)]
pub struct Socket {
    pub ip: Ip4,
    pub port: u16,
}
