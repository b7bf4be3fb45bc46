ghost use Rattle.std.specs.Prelude.{◌≡◌, List, ℕ, Bool, Some, false};
ghost use Rattle.control_msg.specs.Messages.{IsMessage};
ghost use Rattle.control_msg.specs.declared.message.Message.{Message};
ghost use Rattle.node_spec.specs.Datagrams.{Brought, Told, admitted, heard, is_redirect};
ghost use Rattle.node_spec.specs.Sends.{Carries, Says};
ghost use Rattle.node_spec.specs.Steps.{datagram};
ghost use Rattle.vip_config.specs.Queries.{KnowsOwners, socket_of, who_of};
ghost use Rattle.vip_config.specs.declared.parts.ConfigParts.{ConfigParts};
ghost use Rattle.wire_core.specs.declared.address.Socket.{Socket};
ghost use Rattle.wire_core.specs.declared.node.NodeId.{NodeId};

/// What is sent is heard: a message whose fields are allowed as that message, a packet as that packet, each of the one
/// whose socket it comes from. So what a node says to a node arrives as what it said, of the node that said it.
pub fn what_is_sent_is_heard()
    ensures message { (c : ConfigParts) (from : Socket) (m : Message) → IsMessage m
        → heard c from (datagram (Says m)) ≡ admitted (who_of c from) m }
    ensures packet { (c : ConfigParts) (from : Socket) (packet : List ℕ)
        → heard c from (datagram (Carries packet)) ≡ Brought (who_of c from) packet }
    ensures node { (c : ConfigParts) (n : NodeId) (from : Socket) (m : Message) → KnowsOwners c
        → socket_of c n ≡ Some from → IsMessage m → is_redirect m ≡ false
        → heard c from (datagram (Says m)) ≡ Told n m }
{}
