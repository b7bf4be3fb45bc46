/// What a manager knows of a mux.
#[derive(Clone, Copy, Debug, PartialEq, Eq)]
pub struct Peer {
    /// The mux's number.
    pub mux: u16,
    /// Its known boot; 0 where it was never heard.
    pub boot: u64,
    /// When it was last heard, in milliseconds.
    pub heard_at: u64,
}
