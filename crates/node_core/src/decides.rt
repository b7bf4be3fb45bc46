ghost use Rattle.std.specs.Prelude.{◌≡◌, List, Option, IfOk, IfSome};
ghost use Rattle.node_spec.specs.Bodies.{IsSpelled, Spells, entries_of};
ghost use Rattle.node_spec.specs.Steps.{input_of};
ghost use Rattle.node_spec.specs.Turns.{Input as Given};
ghost use Rattle.vip_config.specs.declared.parts.ConfigParts.{ConfigParts};
ghost use Rattle.wire_core.specs.declared.entry.Entry.{Entry};
ghost use Rattle.wire_core.specs.declared.node.NodeId.{NodeId as Name};
ghost use Rattle.wire_core.specs.declared.step.Step.{Step as Done};

use std::alloc::Global;
use vip_config::Config;
use wire_core::{BodyList, Input, NoMemory, NodeId, Step};

/// What decides in a node: a state machine without clock, disk or link, by the table of its role.
pub trait Core: Drop {
    /// Whether a node of this name may be opened.
    ghost may_open: { ConfigParts → Name → Type 0 };

    /// The core of a node as these entries make it.
    ghost opened: { ConfigParts → Name → List Entry → Self };

    /// What an input makes of it, and its step.
    ghost step: { Self → Given → Self × Done };

    /// The entry that an input makes it write.
    ghost written: { Self → Given → Option Entry };

    /// The core as these bodies make it, each the spelling of an entry.
    fn recover(
        alloc: Global,
        cfg: &Config,
        who: NodeId,
        bodies: &BodyList,
    ) -> Result<Self, NoMemory>
        requires { may_open cfg.now who }
        ensures { IfOk result (λ core. core ≡ opened cfg.now who (entries_of bodies.now)) };

    /// One input. The entry of the step is spelled as an entry is.
    fn handle(&mut self, alloc: Global, input: &Input<'_>) -> Result<Step, NoMemory>
        ensures step { IfOk result (λ done. (self.new, done) ≡ step self.old (input_of input.now)) }
        ensures spelled { IfOk result (λ done. IfSome done.entry IsSpelled) }
        ensures written { IfOk result (λ done. Spells done.entry (written self.old (input_of input.now))) };
}
