use crate::address::Ip4;
use crate::flow::Proto;

/// A translated connection of a machine: the VIP and port that the remote end sees, the remote end, and the machine
/// with the port that it uses itself.
#[derive(Clone, Copy, Debug, PartialEq, Eq, PartialOrd, Ord, Hash)]
pub struct Conn {
    pub vip: Ip4,
    pub proto: Proto,
    pub port: u16,
    pub remote: Ip4,
    pub rport: u16,
    pub machine: Ip4,
    pub sport: u16,
}
