use crate::address::Socket;

/// What a node handles at once.
#[derive(Clone, Copy, Debug, PartialEq, Eq)]
pub enum Input<'a> {
    /// A datagram of 0 to 65,507 bytes from a socket.
    Datagram { from: Socket, bytes: &'a [u8] },
    /// The time in milliseconds.
    Tick { now: u64 },
}
