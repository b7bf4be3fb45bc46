/// What an agent answers to a Redirect.
#[derive(Clone, Copy, Debug, PartialEq, Eq)]
pub enum Accept {
    /// Its sender isn't a mux.
    NotFromMux,
    /// There is no such connection.
    NoConnection,
    /// It is of another lease than the one whose number is kept, or of an older one.
    StaleLease(u64),
    Yes,
}
