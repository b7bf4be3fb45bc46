ghost use Rattle.std.specs.Prelude.{◌≡◌};
ghost use Rattle.wire_core.specs.Reading.{Gives};
ghost use Rattle.control_msg.specs.Reading.{fault_of, fields_at, message_at};

use crate::kind::Kind;
use crate::message::Message;
use crate::{agreement, leases, muxes, redirects};
use wire_core::FieldFault;

/// What is wrong with a message's bytes: the first fault from left to right.
#[derive(Clone, Copy, Debug, PartialEq, Eq)]
pub enum MessageFault {
    /// The bytes run out.
    Short,
    /// No kind has this byte.
    Kind,
    /// The field at this offset isn't allowed, counted from the version byte.
    Field(usize),
    /// Bytes are left over.
    Extra,
}

/// The fields of a message of this kind, and the bytes after them.
fn take_fields(kind: Kind, bytes: &[u8]) -> Result<(Message<'_>, &[u8]), FieldFault>
    ensures { Gives (λ x. (x.0, x.1.now)) result (fields_at kind bytes.now) }
{
    match kind {
        Kind::Prepare => agreement::take_prepare(bytes),
        Kind::Promise => agreement::take_promise(bytes),
        Kind::Accept => agreement::take_accept(bytes),
        Kind::Accepted => agreement::take_accepted(bytes),
        Kind::Refuse => agreement::take_refuse(bytes),
        Kind::Chosen => agreement::take_chosen(bytes),
        Kind::Fetch => agreement::take_fetch(bytes),
        Kind::Ask => leases::take_ask(bytes),
        Kind::Grant => leases::take_grant(bytes),
        Kind::Denied => leases::take_denied(bytes),
        Kind::Return => leases::take_return(bytes),
        Kind::Returned => leases::take_returned(bytes),
        Kind::AgentUp => leases::take_agent_up(bytes),
        Kind::AgentKnown => leases::take_agent_known(bytes),
        Kind::MuxHello => muxes::take_mux_hello(bytes),
        Kind::Program => muxes::take_program(bytes),
        Kind::Programmed => muxes::take_programmed(bytes),
        Kind::Unprogram => muxes::take_unprogram(bytes),
        Kind::Unprogrammed => muxes::take_unprogrammed(bytes),
        Kind::MuxRefuse => muxes::take_mux_refuse(bytes),
        Kind::Lead => agreement::take_lead(bytes),
        Kind::RedirectAsk => redirects::take_redirect_ask(bytes),
        Kind::Redirect => redirects::take_redirect(bytes),
    }
}

/// The fault by its offset among so many bytes.
fn fault_of(fault: FieldFault, total: usize) -> MessageFault
    ensures { result ≡ fault_of total fault }
{
    match fault {
        FieldFault::Short => MessageFault::Short,
        FieldFault::NotAllowed { left } => MessageFault::Field(total.saturating_sub(left)),
    }
}

/// The message that these bytes spell as a whole, from its version byte on. Else the first fault: `Short` where fewer
/// than two bytes are there, `Field(0)` where the version isn't 1, `Kind` where the kind isn't listed; then field by
/// field `Short` where the bytes run out and `Field` with its offset where the field isn't allowed; `Extra` where bytes
/// are left over.
#[tactic(auto, unfolding(crate::specs::Reading::message_at))]
pub fn decode(bytes: &[u8]) -> Result<Message<'_>, MessageFault>
    ensures { Gives (λ m. m) result (message_at bytes.now) }
{
    if bytes.len() < 2 {
        return Err(MessageFault::Short);
    }
    if bytes[0] != 1 {
        return Err(MessageFault::Field(0));
    }
    let Some(kind) = Kind::of(bytes[1]) else {
        return Err(MessageFault::Kind);
    };
    match take_fields(kind, &bytes[2..]) {
        Err(fault) => Err(fault_of(fault, bytes.len())),
        Ok((message, rest)) => {
            if rest.is_empty() {
                Ok(message)
            } else {
                Err(MessageFault::Extra)
            }
        }
    }
}
