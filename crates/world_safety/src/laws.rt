ghost use Rattle.std.specs.Prelude.{◌≡◌, ℕ, List, Ok};
ghost use Rattle.schedule_text.specs.Laws.{IsHonest};
ghost use Rattle.schedule_text.specs.Schedule.{schedule_of};
ghost use Rattle.schedule_text.specs.declared.event.Event.{Event};
ghost use Rattle.vip_config.specs.declared.parts.ConfigParts.{ConfigParts};
ghost use Rattle.wire_core.specs.Members.{Each};
ghost use Rattle.world_laws.specs.Hearing.{IsSound};
ghost use Rattle.world_model.specs.Shown.{FollowsTables, StandsFor};
ghost use Rattle.world_nodes.specs.Sites.{deciding};
ghost use Rattle.world_model.specs.World.{WorldState};
ghost use Rattle.world_safety.specs.Nodes.{NodesAreSafe, Sees, played};
ghost use Rattle.world_safety.specs.Safety.{HasOneHolder, IsAlwaysSafe, IsSafe, ShowsTheLog};
ghost use Rattle.world_spec.specs.Nodes.{Lists};
ghost use Rattle.world_spec.specs.Transcript.{end_from};
ghost use Rattle.world_spec.specs.World.{World, first_world};

use node_core::Core;
use world_laws::acts;

/// Whatever a schedule says under a configuration that keeps its rules, its run is safe at every moment: after each
/// event, and after each delivery of a settle. What comes from outside comes from no node's socket, and so it is in
/// each schedule that is read. The world in which a schedule ends is safe, and what its transcript shows of the managers
/// is what their log did.
pub fn always_safe()
    ensures moments { (cfg : ConfigParts) → IsSound cfg → (events : List Event) → Each (IsHonest cfg) events
        → IsAlwaysSafe cfg events }
    ensures read { (cfg : ConfigParts) → IsSound cfg → (text : List ℕ) (events : List Event)
        → schedule_of cfg text ≡ Ok events → IsAlwaysSafe cfg events }
    ensures ends { (cfg : ConfigParts) → IsSound cfg → (events : List Event) → Each (IsHonest cfg) events
        → IsSafe cfg (end_from cfg (first_world cfg) events) }
    ensures shows { (cfg : ConfigParts) → IsSound cfg → (text : List ℕ) (events : List Event)
        → schedule_of cfg text ≡ Ok events → ShowsTheLog cfg events }
{
    acts();
}

/// In a safe world each range has one holder, and each end one connection.
pub fn plainly()
    ensures { (cfg : ConfigParts) (w : World) → IsSafe cfg w → HasOneHolder w }
{}

/// Where what decides follows the tables, a world of real nodes to which events were applied is safe, by the lists in
/// its cores; so is each one that stands for a safe world by the tables.
pub fn real_nodes<C: Core>()
    ensures played { (cfg : ConfigParts) → IsSound cfg → (core : Lists → C) (see : C → Lists) → Sees core see
        → FollowsTables cfg core (deciding C.step C.written) C.opened → (events : List Event)
        → Each (IsHonest cfg) events → NodesAreSafe see (played (deciding C.step C.written) C.opened cfg events) }
    ensures stands { (cfg : ConfigParts) (core : Lists → C) (see : C → Lists) → Sees core see
        → (v : WorldState C) (w : World) → StandsFor core v w → IsSafe cfg w → NodesAreSafe see v }
{}
