use wire_core::OwnedValue;

/// A value with its ballot: a vote, or what was learned. A vote of ballot 0 is none.
#[derive(Debug, Drop)]
pub struct Cast {
    pub ballot: u64,
    pub value: OwnedValue,
}

/// A value with the slot for which it is proposed.
#[derive(Debug, Drop)]
pub struct Proposal {
    pub slot: u64,
    pub value: OwnedValue,
}
