ghost use Rattle.std.specs.Prelude.{◌≡◌, ◌+◌, ◌-◌, ◌^◌, IfOk};
ghost use Rattle.transcript_summary.specs.Summary.{AreBelow, LeasesBelow, TrafficBelow, added, counts_of, lease_line, leases_added, line_counts, traffic_added, traffic_line};

use crate::lines::tally;
use address_text::cut;
use std::alloc::AllocError;

/// How many lines say an act on a lease, of each kind.
#[derive(Clone, Copy, Debug, PartialEq, Eq)]
pub struct LeaseCounts {
    pub reserves: u64,
    pub grants: u64,
    pub holds: u64,
    pub drops: u64,
    pub frees: u64,
    pub freed: u64,
}

/// How many lines say an act on a connection, a loss, or a packet that was handed.
#[derive(Clone, Copy, Debug, PartialEq, Eq)]
pub struct TrafficCounts {
    pub opens: u64,
    pub closes: u64,
    pub losses: u64,
    pub hands: u64,
}

/// How many lines of each kind there are.
#[derive(Clone, Copy, Debug, PartialEq, Eq)]
pub struct Counts {
    pub events: u64,
    pub sent: u64,
    pub leases: LeaseCounts,
    pub traffic: TrafficCounts,
    pub drops: u64,
}

const NO_LEASES: LeaseCounts = LeaseCounts {
    reserves: 0,
    grants: 0,
    holds: 0,
    drops: 0,
    frees: 0,
    freed: 0,
};

const NO_TRAFFIC: TrafficCounts = TrafficCounts {
    opens: 0,
    closes: 0,
    losses: 0,
    hands: 0,
};

/// No lines.
const NONE: Counts = Counts {
    events: 0,
    sent: 0,
    leases: NO_LEASES,
    traffic: NO_TRAFFIC,
    drops: 0,
};

// A sum, or that it is no number of 64 bits.
fn sum(a: u64, b: u64) -> Result<u64, AllocError>
    ensures { IfOk result (λ n. n ≡ a + b) }
{
    match a.checked_add(b) {
        Some(n) => Ok(n),
        None => Err(AllocError),
    }
}

impl LeaseCounts {
    // These lines and one more.
    fn noted(&self, line: &[u8]) -> LeaseCounts
        requires { LeasesBelow (2 ^ 64 - 1) self.now }
        ensures { result ≡ leases_added self.now (lease_line line.now) }
    {
        LeaseCounts {
            reserves: tally(self.reserves, b"act reserve ", line),
            grants: tally(self.grants, b"act grant ", line),
            holds: tally(self.holds, b"act hold ", line),
            drops: tally(self.drops, b"act drop ", line),
            frees: tally(self.frees, b"act free ", line),
            freed: tally(self.freed, b"act freed ", line),
        }
    }

    fn with(&self, more: &LeaseCounts) -> Result<LeaseCounts, AllocError>
        ensures { IfOk result (λ c. c ≡ leases_added self.now more.now) }
    {
        Ok(LeaseCounts {
            reserves: sum(self.reserves, more.reserves)?,
            grants: sum(self.grants, more.grants)?,
            holds: sum(self.holds, more.holds)?,
            drops: sum(self.drops, more.drops)?,
            frees: sum(self.frees, more.frees)?,
            freed: sum(self.freed, more.freed)?,
        })
    }
}

impl TrafficCounts {
    // These lines and one more.
    fn noted(&self, line: &[u8]) -> TrafficCounts
        requires { TrafficBelow (2 ^ 64 - 1) self.now }
        ensures { result ≡ traffic_added self.now (traffic_line line.now) }
    {
        TrafficCounts {
            opens: tally(self.opens, b"act open ", line),
            closes: tally(self.closes, b"act close ", line),
            losses: tally(self.losses, b"act lose ", line),
            hands: tally(self.hands, b"act hand ", line),
        }
    }

    fn with(&self, more: &TrafficCounts) -> Result<TrafficCounts, AllocError>
        ensures { IfOk result (λ c. c ≡ traffic_added self.now more.now) }
    {
        Ok(TrafficCounts {
            opens: sum(self.opens, more.opens)?,
            closes: sum(self.closes, more.closes)?,
            losses: sum(self.losses, more.losses)?,
            hands: sum(self.hands, more.hands)?,
        })
    }
}

impl Counts {
    // These lines and one more.
    fn noted(&self, line: &[u8]) -> Counts
        requires { AreBelow (2 ^ 64 - 1) self.now }
        ensures { result ≡ added self.now (line_counts line.now) }
    {
        Counts {
            events: tally(self.events, b"event ", line),
            sent: tally(self.sent, b"sent ", line),
            leases: self.leases.noted(line),
            traffic: self.traffic.noted(line),
            drops: tally(self.drops, b"drop ", line),
        }
    }

    /// The lines of a text, in one pass over it.
    pub fn of(text: &[u8]) -> Counts
        ensures { result ≡ counts_of text.now }
    {
        let mut counts = NONE;
        let mut left = Some(text);
        while let Some(rest) = left {
            let (line, more) = cut(rest, b'\n');
            counts = counts.noted(line);
            left = more;
        }
        counts
    }

    /// These lines and more. Fails where a count would pass 64 bits.
    pub fn with(&self, more: &Counts) -> Result<Counts, AllocError>
        ensures { IfOk result (λ c. c ≡ added self.now more.now) }
    {
        Ok(Counts {
            events: sum(self.events, more.events)?,
            sent: sum(self.sent, more.sent)?,
            leases: self.leases.with(&more.leases)?,
            traffic: self.traffic.with(&more.traffic)?,
            drops: sum(self.drops, more.drops)?,
        })
    }
}
