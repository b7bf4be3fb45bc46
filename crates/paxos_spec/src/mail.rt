use wire_core::OwnedValue;

/// What one replica says to another. Ballots, lengths and slots are whole numbers; a log's slots count from 0.
#[derive(Debug, Drop)]
pub enum Body {
    /// Follow no lower ballot than this.
    Prepare {
        ballot: u64,
    },
    /// I follow no lower ballot. My log has this length, and at its end stands my vote of ballot `vote` for `value`;
    /// a vote of 0 is none, and then there is no value.
    Promise {
        ballot: u64,
        length: u64,
        vote: u64,
        value: Option<OwnedValue>,
    },
    /// Vote for this value at this slot.
    Accept {
        ballot: u64,
        slot: u64,
        value: OwnedValue,
    },
    /// I voted so.
    Accepted {
        ballot: u64,
        slot: u64,
    },
    /// I don't follow this ballot, since I promised a higher one.
    Refuse {
        ballot: u64,
        promised: u64,
    },
    /// This value was chosen at this slot, at this ballot.
    Chosen {
        slot: u64,
        ballot: u64,
        value: OwnedValue,
    },
    /// Tell me what was chosen at this slot.
    Fetch {
        slot: u64,
    },
}

/// A message with its sender and its target, each the number of a replica from 0 to 4.
#[derive(Debug, Drop)]
pub struct Mail {
    pub sender: u8,
    pub target: u8,
    pub body: Body,
}
