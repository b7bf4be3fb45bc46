ghost use Rattle.std.specs.Prelude.{ℕ, List, ◌≡◌, [], IfSome};
ghost use Rattle.control_msg.specs.declared.message.Message.{Message};
ghost use Rattle.manager_spec.specs.Agreement.{IsStep, message_step, proposal_step, tick_step};
ghost use Rattle.manager_spec.specs.Clock.{on_tick};
ghost use Rattle.manager_spec.specs.Footprints.{DropsOrNot, LeavesAllButOffer, LeavesAllButQueue};
ghost use Rattle.manager_spec.specs.Footprints.{LeavesLog, LeavesMuxes, Rests};
ghost use Rattle.manager_spec.specs.Manager.{Manager, opened_manager};
ghost use Rattle.manager_spec.specs.ManagerTable.{from_agent, from_mux, from_replica};
ghost use Rattle.manager_spec.specs.ManagerTable.{manager_half, manager_hears, manager_step};
ghost use Rattle.manager_spec.specs.Proposal.{propose};
ghost use Rattle.node_spec.specs.Arriving.{IsInBytes};
ghost use Rattle.node_spec.specs.Turns.{Arrived, Input};
ghost use Rattle.paxos_spec.specs.Leader.{value_out};
ghost use Rattle.vip_config.specs.declared.parts.ConfigParts.{ConfigParts};
ghost use Rattle.wire_core.specs.Commands.{IsValue};
ghost use Rattle.wire_core.specs.Entries.{IsEntry};
ghost use Rattle.wire_core.specs.declared.address.Socket.{Socket};
ghost use Rattle.wire_core.specs.declared.entry.Entry.{Entry};
ghost use Rattle.wire_core.specs.declared.node.NodeId.{NodeId};

/// Each row is one step of the agreement's replica, as `paxos_spec` has it, and so is the proposal that may follow:
/// entry, memory, log and messages are the step's. So a turn of a manager is one such step, or two. That of a message
/// of one of the agreement's seven kinds is what that message makes of the replica; that of a Lead says a Refuse or a
/// Fetch; that of a mux or an agent says nothing and writes nothing.
pub fn steps()
    ensures message { (cfg : ConfigParts) (r : Manager) (from : NodeId) (m : Message)
        → IsStep cfg r (manager_hears cfg r from m).turn (message_step r from m) }
    ensures tick { (cfg : ConfigParts) (r : Manager) (now : ℕ)
        → IsStep cfg r (on_tick cfg r now).turn (tick_step cfg r now) }
    ensures proposal { (cfg : ConfigParts) (r : Manager) → IsStep cfg r (propose cfg r) (proposal_step cfg r) }
{}

/// What each group of rows leaves as it was, before the proposal, and what the proposal leaves.
pub fn footprints()
    ensures replicas { (cfg : ConfigParts) (r : Manager) (from : ℕ) (m : Message)
        → LeavesMuxes r (from_replica cfg r from m).turn }
    ensures tick { (cfg : ConfigParts) (r : Manager) (now : ℕ) → LeavesMuxes r (on_tick cfg r now).turn }
    ensures muxes { (cfg : ConfigParts) (r : Manager) (mux : ℕ) (m : Message)
        → LeavesLog r (from_mux cfg r mux m).turn }
    ensures agents { (cfg : ConfigParts) (r : Manager) (agent : ℕ) (m : Message)
        → LeavesAllButQueue r (from_agent cfg r agent m).turn }
    ensures proposal { (cfg : ConfigParts) (r : Manager) → LeavesAllButOffer r (propose cfg r) }
{}

/// A datagram that is dropped does nothing else: the lists stay, and no proposal follows. A tick is never dropped.
pub fn drops()
    ensures datagram { (cfg : ConfigParts) (r : Manager) (from : Socket) (bytes : List ℕ)
        → DropsOrNot r (manager_half cfg r (Arrived from bytes)) }
    ensures tick { (cfg : ConfigParts) (r : Manager) (now : ℕ) → (on_tick cfg r now).turn.notes ≡ [] }
{}

/// A follower has no acknowledgements and no queue: so it opens, and so it stays over each turn.
pub fn followers_rest()
    ensures opened { (cfg : ConfigParts) (index : ℕ) (entries : List Entry) → Rests (opened_manager cfg index entries) }
    ensures turn { (cfg : ConfigParts) (r : Manager) (input : Input) → Rests r
        → Rests (manager_step cfg r input).state }
{}

/// An entry has allowed fields, where what arrives is bytes and what is outstanding is a value.
pub fn entries()
    ensures { (cfg : ConfigParts) (r : Manager) (x : Input) → IsInBytes x
        → IfSome (value_out r.memory.leader.out) IsValue → IfSome (manager_step cfg r x).entry IsEntry }
{}
