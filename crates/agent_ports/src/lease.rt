ghost use Rattle.std.specs.Prelude.{◌≡◌};
ghost use Rattle.agent_ports.specs.Leases.{lease_of, port_at};

use agent_spec::Held;

/// A range of a machine: its number, and its first port.
#[derive(Clone, Copy, Debug, PartialEq, Eq)]
pub struct Lease {
    pub n: u64,
    pub start: u16,
}

impl Lease {
    /// The lease of a held range.
    pub fn of(h: &Held) -> Lease
        ensures { result ≡ lease_of h.now }
    {
        Lease {
            n: h.n,
            start: h.range.start,
        }
    }

    /// The i-th port with the number.
    pub fn port(&self, i: u16) -> (u64, u16)
        ensures { result ≡ port_at self.now i }
    {
        (self.n, self.start.saturating_add(i))
    }
}
