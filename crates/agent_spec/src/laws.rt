ghost use Rattle.std.specs.Prelude.{ℕ, List, ◌≡◌, None};
ghost use Rattle.agent_spec.specs.Agent.{Agent, opened_agent};
ghost use Rattle.agent_spec.specs.AgentTable.{agent_step, from_replica};
ghost use Rattle.agent_spec.specs.Clock.{on_tick};
ghost use Rattle.agent_spec.specs.Footprints.{AnswerDrops, AreOthers, Fits, HeldApart, KeptRise, LeavesAllButPeers};
ghost use Rattle.agent_spec.specs.Footprints.{LeavesHosts, LeavesKnown, LeavesLeases, LeavesMachines, MachineDrops};
ghost use Rattle.agent_spec.specs.Footprints.{RedirectDrops, WrappedDrops, machines_of};
ghost use Rattle.agent_spec.specs.Keys.{EntriesApart, KeysApart};
ghost use Rattle.agent_spec.specs.Leases.{TurnMoves};
ghost use Rattle.agent_spec.specs.Packets.{from_machine};
ghost use Rattle.agent_spec.specs.Redirects.{on_redirect};
ghost use Rattle.agent_spec.specs.Through.{ConnsAreHeld};
ghost use Rattle.agent_spec.specs.Wrapped.{on_wrapped};
ghost use Rattle.agent_spec.specs.declared.order.Redirection.{Redirection};
ghost use Rattle.control_msg.specs.declared.message.Message.{Message};
ghost use Rattle.node_spec.specs.Turns.{Input};
ghost use Rattle.vip_config.specs.Rules.{KeepsRules};
ghost use Rattle.vip_config.specs.declared.parts.ConfigParts.{ConfigParts};
ghost use Rattle.vip_config.specs.declared.who.Who.{Who};
ghost use Rattle.wire_core.specs.declared.address.Ip4.{Ip4};
ghost use Rattle.wire_core.specs.declared.entry.Entry.{Entry};

/// No two connections of an agent have one private key, and no two one public key: so it opens, and so it stays over
/// each turn, and over a Redirect as it will be taken.
pub fn unique_keys()
    ensures opened { (c : ConfigParts) (index : ℕ) (entries : List Entry)
        → KeysApart (opened_agent c index entries).traffic.conns }
    ensures turn { (c : ConfigParts) (a : Agent) (x : Input) → KeysApart a.traffic.conns
        → KeysApart (agent_step c a x).state.traffic.conns }
    ensures redirect { (c : ConfigParts) (a : Agent) (from : ℕ) (o : Redirection) → KeysApart a.traffic.conns
        → KeysApart (on_redirect c a from o).state.traffic.conns }
{}

/// No two inbound entries of an agent have one private key or one public key, under a configuration that keeps the
/// rules: each is of an endpoint, and a port of a machine serves one endpoint. So it opens, and so it stays over each
/// turn, and over a Redirect as it will be taken.
pub fn inbound_entries()
    ensures opened { (c : ConfigParts) (index : ℕ) (entries : List Entry)
        → EntriesApart c (opened_agent c index entries).traffic.inbound }
    ensures turn { (c : ConfigParts) (a : Agent) (x : Input) → KeepsRules c → EntriesApart c a.traffic.inbound
        → EntriesApart c (agent_step c a x).state.traffic.inbound }
    ensures redirect { (c : ConfigParts) (a : Agent) (from : ℕ) (o : Redirection) → EntriesApart c a.traffic.inbound
        → EntriesApart c (on_redirect c a from o).state.traffic.inbound }
{}

/// What each group of rows leaves as it was.
pub fn footprints()
    ensures machines { (c : ConfigParts) (a : Agent) (machine : Ip4) (bytes : List ℕ)
        → LeavesLeases a (from_machine c a machine bytes) }
    ensures wrapped { (c : ConfigParts) (a : Agent) (sender : Who) (bytes : List ℕ)
        → LeavesHosts a (on_wrapped c a sender bytes) }
    ensures answers { (c : ConfigParts) (a : Agent) (from : ℕ) (message : Message)
        → LeavesMachines a (from_replica c a from message) }
    ensures redirects { (c : ConfigParts) (a : Agent) (from : ℕ) (o : Redirection)
        → LeavesAllButPeers a (on_redirect c a from o) }
    ensures tick { (c : ConfigParts) (a : Agent) (now : ℕ) → LeavesKnown a (on_tick c a now) }
{}

/// What is dropped does nothing else, but for the exceptions that are named: a use that was kept, an entry that left.
pub fn drops()
    ensures machines { (c : ConfigParts) (a : Agent) (machine : Ip4) (bytes : List ℕ) → AreOthers (machines_of a.hosts)
        → MachineDrops a (from_machine c a machine bytes) }
    ensures wrapped { (c : ConfigParts) (a : Agent) (sender : Who) (bytes : List ℕ)
        → WrappedDrops a (on_wrapped c a sender bytes) }
    ensures answers { (c : ConfigParts) (a : Agent) (from : ℕ) (message : Message)
        → AnswerDrops a (from_replica c a from message) }
    ensures redirects { (c : ConfigParts) (a : Agent) (from : ℕ) (o : Redirection)
        → RedirectDrops a (on_redirect c a from o) }
{}

/// At most 65,536 connections are kept, and as many inbound entries: so an agent opens, and so it stays over each turn,
/// and over a Redirect as it will be taken.
pub fn limits()
    ensures opened { (c : ConfigParts) (index : ℕ) (entries : List Entry)
        → Fits (opened_agent c index entries).traffic }
    ensures turn { (c : ConfigParts) (a : Agent) (x : Input) → Fits a.traffic → Fits (agent_step c a x).state.traffic }
    ensures redirect { (c : ConfigParts) (a : Agent) (from : ℕ) (o : Redirection) → Fits a.traffic
        → Fits (on_redirect c a from o).state.traffic }
{}

/// No two held ranges are one range or have one number: so it opens, and so it stays over each turn. The kept number of
/// no range falls. A turn takes one Grant of the own boot with a new number, gives back ranges that were held, ends a
/// return, or leaves the leases; it keeps the boot, and writes nothing.
pub fn leases()
    ensures opened { (c : ConfigParts) (index : ℕ) (entries : List Entry)
        → HeldApart (opened_agent c index entries).traffic.ranges }
    ensures apart { (c : ConfigParts) (a : Agent) (x : Input) → HeldApart a.traffic.ranges
        → HeldApart (agent_step c a x).state.traffic.ranges }
    ensures rise { (c : ConfigParts) (a : Agent) (x : Input)
        → KeptRise a.traffic.ranges (agent_step c a x).state.traffic.ranges }
    ensures moves { (c : ConfigParts) (a : Agent) (x : Input) → TurnMoves c a x (agent_step c a x) }
{}

/// Each connection goes through a held range of its machine that has its port, each held range counts its connections
/// and is one that its machine may have, and there are at most 65536: so it opens, and so it stays over each turn,
/// under a configuration that keeps the rules.
pub fn connections_are_held()
    ensures opened { (c : ConfigParts) (index : ℕ) (entries : List Entry)
        → ConnsAreHeld c (opened_agent c index entries).traffic.conns
        (opened_agent c index entries).traffic.ranges.held }
    ensures turn { (c : ConfigParts) (a : Agent) (x : Input) → KeepsRules c → KeysApart a.traffic.conns
        → HeldApart a.traffic.ranges → ConnsAreHeld c a.traffic.conns a.traffic.ranges.held
        → ConnsAreHeld c (agent_step c a x).state.traffic.conns (agent_step c a x).state.traffic.ranges.held }
{}

/// A turn writes no entry: an agent's journal has its boots alone.
pub fn writes_nothing()
    ensures { (c : ConfigParts) (a : Agent) (x : Input) → (agent_step c a x).entry ≡ None }
{}
