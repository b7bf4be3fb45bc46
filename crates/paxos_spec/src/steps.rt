/// What an acceptor answers to a Prepare.
#[derive(Clone, Copy, Debug, PartialEq, Eq)]
pub enum PrepareStep {
    /// The ballot is below the promise.
    Refuse { promised: u64 },
    /// The ballot is the promise.
    Again,
    /// The ballot is the promise from now on.
    Promise,
}

/// What an acceptor answers to an Accept.
#[derive(Clone, Copy, Debug, PartialEq, Eq)]
pub enum AcceptStep {
    /// The ballot is below the promise.
    Refuse { promised: u64 },
    /// The slot has its value, or the log is full.
    Late,
    /// The slot is beyond the log's end.
    Behind { length: u64 },
    /// This very vote stands.
    Again,
    /// The vote stands from now on.
    Voted,
}

/// What an acceptor answers to a Chosen.
#[derive(Clone, Copy, Debug, PartialEq, Eq)]
pub enum ChosenStep {
    /// The slot has its value, or the log is full.
    Late,
    /// The slot is beyond the log's end.
    Behind { length: u64 },
    /// The value is in the log from now on.
    Learned,
}

/// What a leader answers to a Promise, and where it has caught up.
#[derive(Clone, Copy, Debug, PartialEq, Eq)]
pub enum LeadStep {
    /// It counts for nothing.
    Late,
    /// It was recorded, and more are needed.
    More,
    /// The log has to reach `slot` first, which replica `from` has.
    Catch { from: u8, slot: u64 },
    /// A value that may have been chosen is outstanding from now on.
    Inherit,
    /// The replica is primary from now on.
    Ready,
}

/// What a leader answers to an Accepted.
#[derive(Clone, Copy, Debug, PartialEq, Eq)]
pub enum Counted {
    /// It counts for nothing.
    Late,
    /// It was counted, and more are needed.
    More,
    /// Three have accepted: the value is chosen.
    Chosen,
}
