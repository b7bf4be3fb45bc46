// The common tests of a datagram.
ghost use Rattle.std.specs.Prelude.{◌≡◌};
ghost use Rattle.control_msg.specs.Reading.{message_at};
ghost use Rattle.mux_core.specs.Hearing.{heard_by};
ghost use Rattle.node_spec.specs.Datagrams.{admitted, decoded, heard, is_mux, is_redirect, of_node};

use control_msg::{Frame, Message, decode};
use vip_config::{Config, Who};
use wire_core::{DropCause, NodeId, Socket};

/// What the tests leave of a datagram: a cause to drop it, a message of a node, or a packet of anyone.
#[derive(Drop)]
pub(crate) enum Heard<'a> {
    Refused(DropCause),
    Told(NodeId, Message<'a>),
    Brought(Who, &'a [u8]),
}

fn is_redirect(message: &Message) -> bool
    ensures { result ≡ is_redirect message.now }
{
    matches!(message, Message::Redirect { .. })
}

fn is_mux(sender: Who) -> bool
    ensures { result ≡ is_mux sender }
{
    matches!(sender, Who::Mux(_))
}

/// The fourth test: a message is of a node.
fn of_node(sender: Who, message: Message<'_>) -> Heard<'_>
    ensures { heard_by result ≡ of_node sender message.entry }
{
    match sender {
        Who::Replica(i) => Heard::Told(NodeId::Replica(i), message),
        Who::Mux(i) => Heard::Told(NodeId::Mux(i), message),
        Who::Agent(i) => Heard::Told(NodeId::Agent(i), message),
        Who::Machine(_) | Who::Outside => Heard::Refused(DropCause::NotNode),
    }
}

/// The third test: a Redirect is of a mux.
#[tactic(auto, unfolding(node_spec::specs::Datagrams::admitted))]
fn admit(sender: Who, message: Message<'_>) -> Heard<'_>
    ensures { heard_by result ≡ admitted sender message.entry }
{
    if is_redirect(&message) && !is_mux(sender) {
        return Heard::Refused(DropCause::NotFromMux);
    }
    of_node(sender, message)
}

/// The second test: what a control frame holds is a message.
fn decoded(sender: Who, bytes: &[u8]) -> Heard<'_>
    ensures { heard_by result ≡ decoded sender (message_at bytes.now) }
{
    match decode(bytes) {
        Ok(message) => admit(sender, message),
        Err(_) => Heard::Refused(DropCause::BadMessage),
    }
}

/// Puts a datagram to the tests, in their order: it is a frame, it holds a message, a Redirect is of a mux, and a message
/// is of a node.
#[tactic(auto, unfolding(node_spec::specs::Datagrams::heard))]
pub(crate) fn hear<'a>(cfg: &Config, from: &Socket, bytes: &'a [u8]) -> Heard<'a>
    ensures { heard_by result ≡ heard cfg.now from.now bytes.now }
{
    let sender = cfg.who(from);
    match Frame::read(bytes) {
        None => Heard::Refused(DropCause::BadFrame),
        Some(Frame::Control(message)) => decoded(sender, message),
        Some(Frame::Packet(packet)) => Heard::Brought(sender, packet),
    }
}
