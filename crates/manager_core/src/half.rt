ghost use Rattle.std.specs.Prelude.{◌≡◌, false, true};

use wire_core::Step;

/// What a row comes to: its step before the proposal, and whether a proposal follows.
#[derive(Debug, Drop)]
pub struct Half {
    pub step: Step,
    pub proposes: bool,
}

/// A row without a proposal.
pub fn stops(step: Step) -> Half
    ensures { result ≡ record { step = step; proposes = false } }
{
    Half {
        step,
        proposes: false,
    }
}

/// A row that ends with the proposal.
pub fn goes_on(step: Step) -> Half
    ensures { result ≡ record { step = step; proposes = true } }
{
    Half {
        step,
        proposes: true,
    }
}
