ghost use Rattle.std.specs.Prelude.{◌≡◌};
ghost use Rattle.std.specs.Option.{option_map};
ghost use Rattle.control_msg.specs.Frames.{frame_at, framed};

/// What a datagram holds.
#[derive(Clone, Copy, Debug, PartialEq, Eq)]
pub enum Frame<'a> {
    /// A message, from its version byte on.
    Control(&'a [u8]),
    /// An IPv4 packet.
    Packet(&'a [u8]),
}

impl<'a> Frame<'a> {
    /// What the bytes of a datagram hold. `None` exactly where there is no byte or the first is neither 1 nor 2.
    pub fn read(bytes: &'a [u8]) -> Option<Frame<'a>>
        ensures { option_map framed result ≡ frame_at bytes.now }
    {
        match bytes {
            [1, message @ ..] => Some(Frame::Control(message)),
            [2, packet @ ..] => Some(Frame::Packet(packet)),
            _ => None,
        }
    }
}
