use wire_core::Ip4;

/// To whom a socket belongs.
#[derive(Clone, Copy, Debug, PartialEq, Eq)]
pub enum Who {
    Replica(u8),
    Mux(u16),
    Agent(u16),
    /// The socket that the packets of the machine with this address come from.
    Machine(Ip4),
    /// The router, or no socket of the configuration.
    Outside,
}
