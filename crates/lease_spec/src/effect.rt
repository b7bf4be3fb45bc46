use crate::row::Row;
use wire_core::{Ip4, Items};

/// What one command did. A row is shown as it is after the effect, a freed row as it was before.
#[derive(Clone, Copy, Debug, PartialEq, Eq)]
pub enum Effect {
    /// A new row.
    Reserved {
        row: Row,
    },
    /// No leasable range was without a row.
    Exhausted {
        machine: Ip4,
        boot: u64,
        seq: u64,
        place: u64,
    },
    /// The machine has as many rows as a machine may have.
    AtLimit {
        machine: Ip4,
        boot: u64,
        seq: u64,
        count: u32,
    },
    /// The row is Leased from now on.
    Granted {
        row: Row,
    },
    /// The row is Freeing from now on, since its agent gave it back.
    Released {
        row: Row,
    },
    /// The row left.
    Freed {
        row: Row,
    },
    /// The agent's boot is known from now on.
    Known {
        agent: u16,
        boot: u64,
    },
    /// The row is Freeing from now on, since its agent runs in a later boot.
    Cleared {
        row: Row,
    },
}

pub type EffectList = Items<Effect>;
