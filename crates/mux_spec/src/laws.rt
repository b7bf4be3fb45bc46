ghost use Rattle.std.specs.Prelude.{ℕ, List, IfSome};
ghost use Rattle.control_msg.specs.declared.message.Message.{Message};
ghost use Rattle.mux_spec.specs.Footprints.{AnswersBy, CommandDrops, DropsOrNot, LeavesAll, LeavesAllButFlows};
ghost use Rattle.mux_spec.specs.Footprints.{LeavesFlows, LeavesGateAndRows, Rises};
ghost use Rattle.mux_spec.specs.Mux.{Mux, on_tick};
ghost use Rattle.mux_spec.specs.MuxTable.{from_mux, from_replica, mux_step};
ghost use Rattle.mux_spec.specs.Packets.{on_packet};
ghost use Rattle.node_spec.specs.Arriving.{IsInBytes};
ghost use Rattle.node_spec.specs.Turns.{Input};
ghost use Rattle.vip_config.specs.declared.parts.ConfigParts.{ConfigParts};
ghost use Rattle.vip_config.specs.declared.who.Who.{Who};
ghost use Rattle.wire_core.specs.Entries.{IsEntry};
ghost use Rattle.wire_core.specs.declared.node.NodeId.TheVariants.{Replica};

/// What each row leaves as it was.
pub fn footprints()
    ensures tick { (c : ConfigParts) (m : Mux) (now : ℕ) → LeavesGateAndRows m (on_tick c m now) }
    ensures packets { (c : ConfigParts) (m : Mux) (sender : Who) (bytes : List ℕ)
        → LeavesAllButFlows m (on_packet c m sender bytes) }
    ensures commands { (c : ConfigParts) (m : Mux) (from : ℕ) (message : Message)
        → LeavesFlows m (from_replica c m from message) }
    ensures redirects { (c : ConfigParts) (m : Mux) (message : Message) → LeavesAll m (from_mux c m message) }
{}

/// What is dropped does nothing else, but for a command that raised the epoch before it was dropped.
pub fn drops()
    ensures packets { (c : ConfigParts) (m : Mux) (sender : Who) (bytes : List ℕ)
        → DropsOrNot m (on_packet c m sender bytes) }
    ensures commands { (c : ConfigParts) (m : Mux) (from : ℕ) (message : Message)
        → CommandDrops m (from_replica c m from message) }
    ensures redirects { (c : ConfigParts) (m : Mux) (message : Message) → DropsOrNot m (from_mux c m message) }
{}

/// What a mux answers to a replica goes to that replica, with the mux's own boot.
pub fn answers()
    ensures { (c : ConfigParts) (m : Mux) (from : ℕ) (message : Message)
        → AnswersBy m.gate.boot (Replica from) (from_replica c m from message) }
{}

/// Whatever comes: the boot stays; epoch, time and kept numbers never fall.
pub fn rises()
    ensures { (c : ConfigParts) (m : Mux) (x : Input) → Rises m (mux_step c m x) }
{}

/// An entry has allowed fields, where what arrives is bytes.
pub fn entries()
    ensures { (c : ConfigParts) (m : Mux) (x : Input) → IsInBytes x → IfSome (mux_step c m x).entry IsEntry }
{}
