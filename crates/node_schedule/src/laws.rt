ghost use Rattle.node_schedule.specs.Roles.{RolesFollow};

/// What decides in a node follows the table of its role, under every configuration.
pub fn roles_follow()
    ensures { RolesFollow }
{}
