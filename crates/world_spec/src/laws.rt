ghost use Rattle.std.specs.Prelude.{◌≡◌, ◌≢◌, List, true};
ghost use Rattle.schedule_text.specs.declared.event.Event.{Event};
ghost use Rattle.vip_config.specs.declared.parts.ConfigParts.{ConfigParts};
ghost use Rattle.wire_core.specs.declared.node.NodeId.{NodeId};
ghost use Rattle.world_spec.specs.Events.{AreNamed, Basic, IsNamed, after, after_event, expand, happens, world};
ghost use Rattle.world_spec.specs.Facts.{IsMarked, SendersAreThere};
ghost use Rattle.world_spec.specs.History.{run};
ghost use Rattle.world_spec.specs.Shapes.{Grows, Shape};
ghost use Rattle.world_spec.specs.Transcript.{PostsItsLines, applied, end_from};
ghost use Rattle.world_spec.specs.World.{Site, World, first_world, is_there, put, site};

/// A node that is written is read as it was written, and all others as they were.
pub fn sites()
    ensures same { (w : World) (x : NodeId) (s : Site) → is_there w x ≡ true → site (put w x s) x ≡ s }
    ensures other { (w : World) (x y : NodeId) (s : Site) → y ≢ x → site (put w x s) y ≡ site w y }
{}

/// Each event that a schedule may name is a step of one node, of one of six shapes; it leaves all other nodes as they were, and a front of each
/// disk and of what was sent.
pub fn shapes()
    ensures shape { (cfg : ConfigParts) (w : World) (b : Basic) → IsNamed cfg b → Shape cfg w (happens cfg w b) }
    ensures grows { (cfg : ConfigParts) (w : World) (b : Basic) → IsNamed cfg b
        → (x : NodeId) × Grows x w (after cfg w b) }
{}

/// A settle is its deliveries; so the world at the end of a schedule is that of its basic events, and the acts and what
/// came from outside are kept beside it.
pub fn schedules()
    ensures event { (cfg : ConfigParts) (w : World) (e : Event) → (applied cfg w e).0 ≡ after_event cfg w e }
    ensures end { (cfg : ConfigParts) (es : List Event)
        → end_from cfg (first_world cfg) es ≡ world cfg (expand cfg es) }
    ensures run { (cfg : ConfigParts) (bs : List Basic) → (run cfg bs).world ≡ world cfg bs }
{}

/// What a turn's lines say was sent is what joins the datagrams that were sent.
pub fn lines()
    ensures { PostsItsLines }
{}

/// In every world each datagram is of a node of the world, and has one mark that says whether a delivery took it.
pub fn every_world()
    ensures senders { (cfg : ConfigParts) (bs : List Basic) → AreNamed cfg bs → SendersAreThere (world cfg bs) }
    ensures marks { (cfg : ConfigParts) (bs : List Basic) → AreNamed cfg bs → IsMarked (world cfg bs) }
{}
