ghost use Rattle.std.specs.Prelude.{◌≡◌, ◌-◌, ◌^◌, min};

/// Up to which slot connections were looked at for idleness, and a time before which none of those that are left there
/// was used last.
#[derive(Clone, Copy, Debug, PartialEq, Eq)]
pub struct Looked {
    pub at: usize,
    pub oldest: u64,
}

impl Looked {
    /// None was looked at.
    pub fn nothing() -> Looked
        ensures { result ≡ record { at = 0; oldest = 2 ^ 64 - 1 } }
    {
        Looked {
            at: 0,
            oldest: u64::MAX,
        }
    }

    /// One of them may have been used last at this time.
    pub fn with_use(self, last: u64) -> Looked
        ensures { result ≡ record { at = self.at; oldest = min self.oldest last } }
    {
        Looked {
            oldest: self.oldest.min(last),
            ..self
        }
    }
}
