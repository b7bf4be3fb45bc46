use crate::address::Socket;
use crate::items::Items;

/// The payload of a UDP datagram: a frame byte, and a message or a packet.
pub type FrameBytes = Items<u8>;

/// A datagram and the socket that it goes to.
#[derive(Debug, Drop)]
pub struct Outgoing {
    pub to: Socket,
    pub bytes: FrameBytes,
}

pub type SendList = Items<Outgoing>;
