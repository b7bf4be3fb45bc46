ghost use Rattle.std.specs.Prelude.{◌≡◌, List, map};
ghost use Rattle.agent_spec.specs.Connections.{conn_of};
ghost use Rattle.node_roles.specs.Roles.{opened, step, written};
ghost use Rattle.node_schedule.specs.Roles.{role_of};
ghost use Rattle.schedule_text.specs.declared.event.Event.{Event};
ghost use Rattle.vip_config.specs.declared.parts.ConfigParts.{ConfigParts};
ghost use Rattle.world_laws.specs.Hearing.{IsSound};
ghost use Rattle.world_model.specs.Shown.{StandsFor};
ghost use Rattle.world_nodes.specs.Sites.{deciding};
ghost use Rattle.world_safety.specs.Nodes.{played};
ghost use Rattle.world_spec.specs.Transcript.{end_from};
ghost use Rattle.world_spec.specs.Views.{conns};
ghost use Rattle.world_spec.specs.World.{World, first_world};
ghost use Rattle.world_views.specs.Views.{live};

/// A world of real nodes that was opened on empty disks, and to which events were applied one by one, stands for the
/// world by the tables after these events.
pub fn stands()
    ensures { (cfg : ConfigParts) → IsSound cfg → (events : List Event)
        → StandsFor (role_of cfg) (played (deciding step written) opened cfg events)
        (end_from cfg (first_world cfg) events) }
{}

/// The connections of a world in full are those that its acts name.
pub fn plain_connections()
    ensures { (w : World) → map conn_of (live w) ≡ conns w }
{}
