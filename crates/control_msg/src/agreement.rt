// Replicas agree on the log.
ghost use Rattle.std.specs.Prelude.{◌≡◌, ◌+◌, ◌≤◌, ◌++◌, OnOk, OnErr, IsOk, length, vec_len, vec_capacity};
ghost use Rattle.std.specs.Option.{option_copied};
ghost use Rattle.wire_core.specs.Reading.{Gives};
ghost use Rattle.control_msg.specs.Messages.{message_bytes, number, optional_value, spelled};
ghost use Rattle.control_msg.specs.Reading.{number_at, promise_at, two_numbers_at, valued_at, vote_value_at};

use crate::fields::put_head;
use crate::message::Message;
use wire_core::{FieldFault, NoMemory, Value, put_bytes, put_u64, take_u64, take_value};

#[tactic(auto, unfolding(crate::specs::Reading::number_at))]
pub fn take_prepare(bytes: &[u8]) -> Result<(Message<'_>, &[u8]), FieldFault>
    ensures { Gives (λ x. (x.0, x.1.now)) result (number_at Message.Prepare bytes.now) }
{
    let (ballot, rest) = take_u64(bytes)?;
    Ok((Message::Prepare { ballot }, rest))
}

/// A value exactly where the vote isn't 0.
#[tactic(auto, unfolding(crate::specs::Reading::vote_value_at))]
fn take_vote_value(vote: u64, bytes: &[u8]) -> Result<(Option<Value<'_>>, &[u8]), FieldFault>
    ensures { Gives (λ x. (x.0, x.1.now)) result (vote_value_at vote bytes.now) }
{
    if vote == 0 {
        return Ok((None, bytes));
    }
    let (value, rest) = take_value(bytes)?;
    Ok((Some(value), rest))
}

#[tactic(auto, unfolding(crate::specs::Reading::promise_at))]
pub fn take_promise(bytes: &[u8]) -> Result<(Message<'_>, &[u8]), FieldFault>
    ensures { Gives (λ x. (x.0, x.1.now)) result (promise_at bytes.now) }
{
    let (ballot, rest) = take_u64(bytes)?;
    let (length, rest) = take_u64(rest)?;
    let (vote, rest) = take_u64(rest)?;
    let (value, rest) = take_vote_value(vote, rest)?;
    Ok((
        Message::Promise {
            ballot,
            length,
            vote,
            value,
        },
        rest,
    ))
}

#[tactic(auto, unfolding(crate::specs::Reading::valued_at))]
pub fn take_accept(bytes: &[u8]) -> Result<(Message<'_>, &[u8]), FieldFault>
    ensures { Gives (λ x. (x.0, x.1.now)) result (valued_at Message.Accept bytes.now) }
{
    let (ballot, rest) = take_u64(bytes)?;
    let (slot, rest) = take_u64(rest)?;
    let (value, rest) = take_value(rest)?;
    Ok((
        Message::Accept {
            ballot,
            slot,
            value,
        },
        rest,
    ))
}

#[tactic(auto, unfolding(crate::specs::Reading::two_numbers_at))]
pub fn take_accepted(bytes: &[u8]) -> Result<(Message<'_>, &[u8]), FieldFault>
    ensures { Gives (λ x. (x.0, x.1.now)) result (two_numbers_at Message.Accepted bytes.now) }
{
    let (ballot, rest) = take_u64(bytes)?;
    let (slot, rest) = take_u64(rest)?;
    Ok((Message::Accepted { ballot, slot }, rest))
}

#[tactic(auto, unfolding(crate::specs::Reading::two_numbers_at))]
pub fn take_refuse(bytes: &[u8]) -> Result<(Message<'_>, &[u8]), FieldFault>
    ensures { Gives (λ x. (x.0, x.1.now)) result (two_numbers_at Message.Refuse bytes.now) }
{
    let (ballot, rest) = take_u64(bytes)?;
    let (promised, rest) = take_u64(rest)?;
    Ok((Message::Refuse { ballot, promised }, rest))
}

#[tactic(auto, unfolding(crate::specs::Reading::valued_at))]
pub fn take_chosen(bytes: &[u8]) -> Result<(Message<'_>, &[u8]), FieldFault>
    ensures { Gives (λ x. (x.0, x.1.now)) result (valued_at Message.Chosen bytes.now) }
{
    let (slot, rest) = take_u64(bytes)?;
    let (ballot, rest) = take_u64(rest)?;
    let (value, rest) = take_value(rest)?;
    Ok((
        Message::Chosen {
            slot,
            ballot,
            value,
        },
        rest,
    ))
}

#[tactic(auto, unfolding(crate::specs::Reading::number_at))]
pub fn take_fetch(bytes: &[u8]) -> Result<(Message<'_>, &[u8]), FieldFault>
    ensures { Gives (λ x. (x.0, x.1.now)) result (number_at Message.Fetch bytes.now) }
{
    let (slot, rest) = take_u64(bytes)?;
    Ok((Message::Fetch { slot }, rest))
}

#[tactic(auto, unfolding(crate::specs::Reading::two_numbers_at))]
pub fn take_lead(bytes: &[u8]) -> Result<(Message<'_>, &[u8]), FieldFault>
    ensures { Gives (λ x. (x.0, x.1.now)) result (two_numbers_at Message.Lead bytes.now) }
{
    let (ballot, rest) = take_u64(bytes)?;
    let (length, rest) = take_u64(rest)?;
    Ok((Message::Lead { ballot, length }, rest))
}

/// The spelling of a value, or no bytes.
fn optional_bytes<'a>(value: &Option<Value<'a>>) -> &'a [u8]
    ensures { result.now ≡ optional_value value.now }
{
    match value {
        None => &[],
        Some(value) => value.as_bytes(),
    }
}

/// Appends a Promise. Without memory `out` stays as it was.
pub fn write_promise(
    out: &mut Vec<u8>,
    ballot: u64,
    log_length: u64,
    vote: u64,
    value: &Option<Value>,
) -> Result<(), NoMemory>
    ensures ok { OnOk result (out.new.items
        ≡ out.old.items ++ message_bytes (Message.Promise ballot log_length vote value.now)) }
    ensures err { OnErr result (out.new.items ≡ out.old.items) }
    ensures room { vec_len out.old + length (message_bytes (Message.Promise ballot log_length vote value.now))
        ≤ vec_capacity out.old → IsOk result }
{
    let bytes = optional_bytes(value);
    out.reserve(bytes.len().saturating_add(26))?;
    put_head(out, 2);
    put_u64(out, ballot);
    put_u64(out, log_length);
    put_u64(out, vote);
    put_bytes(out, bytes);
    Ok(())
}
