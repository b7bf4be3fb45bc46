ghost use Rattle.std.specs.Prelude.{◌≡◌};
ghost use Rattle.mux_spec.specs.Gates.{admit};

use mux_spec::{Admit, Gate};

/// Whether a command for this boot and of this epoch is obeyed: `WrongBoot` exactly where the boots differ, `OldEpoch`
/// exactly where they agree and the epoch is below the kept one, `Raise` exactly where they agree and it is above it,
/// and else `Yes`.
#[tactic(auto, unfolding(mux_spec::specs::Gates::admit))]
pub fn admit(gate: &Gate, epoch: u64, boot: u64) -> Admit
    ensures { result ≡ admit gate.now epoch boot }
{
    if boot != gate.boot {
        Admit::WrongBoot(gate.boot)
    } else if epoch < gate.epoch {
        Admit::OldEpoch(gate.epoch)
    } else if gate.epoch < epoch {
        Admit::Raise(epoch)
    } else {
        Admit::Yes
    }
}
