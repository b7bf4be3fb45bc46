ghost use Rattle.vip_config.specs.declared.parts.ConfigParts.{ConfigParts};
ghost use Rattle.std.specs.Prelude.{List};
ghost use Rattle.wire_core.specs.Members.{Each};
ghost use Rattle.agent_spec.specs.Agent.{Agent};
ghost use Rattle.agent_spec.specs.AgentTable.{agent_step};
ghost use Rattle.lease_spec.specs.Places.{AreShort};
ghost use Rattle.mux_spec.specs.Mux.{Mux};
ghost use Rattle.mux_spec.specs.MuxTable.{mux_step};
ghost use Rattle.node_spec.specs.Turns.{Input};
ghost use Rattle.paxos_laws.specs.Order.{Claims};
ghost use Rattle.schedule_text.specs.declared.event.Event.{Event};
ghost use Rattle.world_laws.specs.Acts.{ActsAreOfLog, ShowsWhatGrew};
ghost use Rattle.world_laws.specs.Agents.{AgentsAreRight, AgentsTellTheirOwn};
ghost use Rattle.world_laws.specs.Grants.{AnswersAreTrue};
ghost use Rattle.world_laws.specs.Hearing.{IsSound, ListsFit, SentFits, WrittenFits};
ghost use Rattle.world_laws.specs.Kept.{GrantsAreKept};
ghost use Rattle.world_laws.specs.Living.{LivesAreInOrder, LivesGoOn};
ghost use Rattle.world_laws.specs.Log.{BooksAgree, InOrder, LogGrows, StepsOnce, ValuesTravel, log};
ghost use Rattle.world_laws.specs.Reasons.{AnyEntry, AnySent, HaveReasons, QueueHasReasons};
ghost use Rattle.world_laws.specs.Replies.{RepliesReachTheirMachine};
ghost use Rattle.world_laws.specs.Safety.{ConnsAreApart, HeldAreLeased, RangesAreHeldOnce};
ghost use Rattle.world_laws.specs.Sayings.{AgentSays, MuxSays};
ghost use Rattle.world_laws.specs.Seen.{view};
ghost use Rattle.world_laws.specs.Turns.{TurnsAreGood};
ghost use Rattle.world_spec.specs.Events.{AreNamed, Basic, IsNamed, after, expand, happens, world};
ghost use Rattle.world_spec.specs.Facts.{Holds};
ghost use Rattle.world_spec.specs.History.{run};
ghost use Rattle.world_spec.specs.Transcript.{acts_in, end_from, transcript};
ghost use Rattle.world_spec.specs.World.{first_world};

/// Whatever comes to a manager, its turn is one step of the agreement that shows what it owes: the row is one such
/// step, and with its proposal they are one. What is offered is the first 16 of what is due and of the queue.
pub fn turns()
    ensures { TurnsAreGood }
{}

/// Whatever comes to a mux or an agent, what it says has its own boot, and an agent gives back only what is returning.
pub fn sayings()
    ensures mux { (cfg : ConfigParts) (m : Mux) (x : Input) → MuxSays m (mux_step cfg m x) }
    ensures agent { (cfg : ConfigParts) (a : Agent) (x : Input) → AgentSays (agent_step cfg a x) }
{}

/// In every world of a configuration that keeps its rules: each message of the agreement goes to one of the five
/// replicas, and its fields, all that replicas wrote and all that they keep are within their widths. So what is heard
/// is what was said.
pub fn hearing()
    ensures { (cfg : ConfigParts) → IsSound cfg → (bs : List Basic) → AreNamed cfg bs
        → Holds SentFits WrittenFits (ListsFit cfg) (world cfg bs) }
{}

/// In every world of a configuration that keeps its rules: the replicas agree, whatever was lost, late or repeated and
/// whoever went down; each has the lease table of the log's first values, and one whose log is the longest has the
/// book; and each value of the log has at most 16 commands.
pub fn agreement()
    ensures order { (cfg : ConfigParts) → IsSound cfg → (bs : List Basic) → AreNamed cfg bs
        → InOrder (world cfg bs) }
    ensures claims { (cfg : ConfigParts) → IsSound cfg → (bs : List Basic) → AreNamed cfg bs
        → Claims (view (world cfg bs)) }
    ensures books { (cfg : ConfigParts) → IsSound cfg → (bs : List Basic) → AreNamed cfg bs
        → BooksAgree cfg (world cfg bs) }
    ensures short { (cfg : ConfigParts) → IsSound cfg → (bs : List Basic) → AreNamed cfg bs
        → AreShort (log (world cfg bs)) }
{}

/// Each event is one good step of one replica: the log begins with what it was, and grows by no value or by one; a
/// value that is proposed was proposed before, or a primary's lists gave it.
pub fn each_event()
    ensures steps { (cfg : ConfigParts) → IsSound cfg → (bs : List Basic) → AreNamed cfg bs → (b : Basic)
        → IsNamed cfg b → StepsOnce (view (world cfg bs)) (view (after cfg (world cfg bs) b)) }
    ensures log { (cfg : ConfigParts) → IsSound cfg → (bs : List Basic) → AreNamed cfg bs → (b : Basic)
        → IsNamed cfg b → LogGrows (world cfg bs) (after cfg (world cfg bs) b) }
    ensures travel { (cfg : ConfigParts) → IsSound cfg → (bs : List Basic) → AreNamed cfg bs → (b : Basic)
        → IsNamed cfg b → ValuesTravel cfg (world cfg bs) (after cfg (world cfg bs) b) }
{}

/// What a run shows of the managers, the acts `reserve`, `grant`, `free` and `freed`, is what the commands of the log
/// did, in the log's order. An event shows what the value by which the log grew in it does at its place, on top of the
/// book, also where a crash cut the event short; one in which the log didn't grow shows none. So each value's acts are
/// shown once, when the first manager learns it, whoever learns it later. Muxes and agents show no such act.
pub fn acts()
    ensures event { (cfg : ConfigParts) → IsSound cfg → (bs : List Basic) → AreNamed cfg bs → (b : Basic)
        → IsNamed cfg b → ShowsWhatGrew cfg (world cfg bs) (after cfg (world cfg bs) b)
        (acts_in (happens cfg (world cfg bs) b).1) }
    ensures run { (cfg : ConfigParts) → IsSound cfg → (bs : List Basic) → AreNamed cfg bs
        → ActsAreOfLog cfg (world cfg bs) (run cfg bs).acts }
    ensures transcript { (cfg : ConfigParts) → IsSound cfg → (es : List Event) → AreNamed cfg (expand cfg es)
        → ActsAreOfLog cfg (end_from cfg (first_world cfg) es) (acts_in (transcript cfg es)) }
{}

/// In every world the leases of the log live as the lease table promises of every list of commands, and what once
/// happened to a number is for ever: birth, grant, dying and end.
pub fn lives()
    ensures order { (cfg : ConfigParts) → IsSound cfg → (bs : List Basic) → AreNamed cfg bs
        → LivesAreInOrder cfg (world cfg bs) }
    ensures on { (cfg : ConfigParts) → IsSound cfg → (bs : List Basic) → AreNamed cfg bs → (b : Basic)
        → IsNamed cfg b → LivesGoOn cfg (world cfg bs) (after cfg (world cfg bs) b) }
{}

/// In every world each command that waits at a replica, and each one of the log, has its reason: a range is reserved
/// where its agent asked for it, a boot is raised where its agent told it, and a lease is released where an agent gave
/// it back. What the muxes acknowledged is no part of this.
pub fn reasons()
    ensures queues { (cfg : ConfigParts) → IsSound cfg → (bs : List Basic) → AreNamed cfg bs
        → Holds AnySent AnyEntry QueueHasReasons (world cfg bs) }
    ensures log { (cfg : ConfigParts) → IsSound cfg → (bs : List Basic) → AreNamed cfg bs
        → Each (HaveReasons (world cfg bs)) (log (world cfg bs)) }
{}

/// In every world a Grant that a replica sent is of a lease that was granted, to the agent, boot, machine and range
/// that it was born with.
pub fn grants()
    ensures { (cfg : ConfigParts) → IsSound cfg → (bs : List Basic) → AreNamed cfg bs
        → Each (AnswersAreTrue cfg (world cfg bs)) (world cfg bs).sent }
{}

/// In every world an agent runs in the boot of its disk; it told of no later one, and gave back its own leases alone.
/// Each number that it holds is a lease of its own of this boot, on that range, to that machine; what it gave back in
/// this boot isn't held, and is at most the kept number of its range; and its connections go through held ranges.
pub fn agents()
    ensures { (cfg : ConfigParts) → IsSound cfg → (bs : List Basic) → AreNamed cfg bs
        → Holds (AgentsTellTheirOwn cfg) AnyEntry (AgentsAreRight cfg) (world cfg bs) }
{}

/// In every world, whatever was lost, late, repeated or crashed: each range that an agent holds is Leased in the book,
/// to that machine, agent and boot; no two held ranges, of any agents, are one range; no two live connections, of any
/// agents, share a public key or a private key; and each goes through a range that its machine holds.
pub fn safety()
    ensures leased { (cfg : ConfigParts) → IsSound cfg → (bs : List Basic) → AreNamed cfg bs
        → HeldAreLeased cfg (world cfg bs) }
    ensures once { (cfg : ConfigParts) → IsSound cfg → (bs : List Basic) → AreNamed cfg bs
        → RangesAreHeldOnce (world cfg bs) }
    ensures ends { (cfg : ConfigParts) → IsSound cfg → (bs : List Basic) → AreNamed cfg bs
        → ConnsAreApart (world cfg bs) }
{}

/// In every world no acknowledged lease is forgotten: of each Grant that a replica ever sent, its agent gave the lease
/// back, or has run in a later boot since, or the book has it Leased, to the Grant's machine, agent and boot.
pub fn kept()
    ensures { (cfg : ConfigParts) → IsSound cfg → (bs : List Basic) → AreNamed cfg bs
        → GrantsAreKept cfg (world cfg bs) }
{}

/// In every world a reply to a live connection reaches the machine that opened it and no other: whichever agent gets it
/// from a mux or an agent drops it, or hands it to that machine, at the port from which the connection was opened.
pub fn replies()
    ensures { (cfg : ConfigParts) → IsSound cfg → (bs : List Basic) → AreNamed cfg bs
        → RepliesReachTheirMachine cfg (world cfg bs) }
{}
