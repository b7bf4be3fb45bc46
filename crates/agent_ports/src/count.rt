ghost use Rattle.std.specs.Prelude.{◌≡◌};
ghost use Rattle.agent_ports.specs.Leases.{counted_by};

use agent_spec::Held;

/// What came to pass in a range.
#[derive(Clone, Copy, Debug, PartialEq, Eq)]
pub enum Count {
    /// One connection more.
    Opened,
    /// One connection less, now.
    Closed { now: u64 },
}

impl Count {
    /// The range after it.
    pub fn counted(self, h: &Held) -> Held
        ensures { result ≡ counted_by self h.now }
    {
        match self {
            Count::Opened => Held {
                count: h.count.saturating_add(1),
                ..*h
            },
            Count::Closed { now } => Held {
                count: h.count.saturating_sub(1),
                idle: now,
                ..*h
            },
        }
    }
}
