// Agents ask for ranges of ports and give them back.
ghost use Rattle.std.specs.Prelude.{◌≡◌, ◌+◌, ◌≤◌, ◌++◌, OnOk, OnErr, IsOk, length, vec_len, vec_capacity};
ghost use Rattle.wire_core.specs.Reading.{Gives};
ghost use Rattle.control_msg.specs.Messages.{message_bytes};
ghost use Rattle.control_msg.specs.Reading.{ask_at, denied_at, grant_at, number_at, two_numbers_at};

use crate::fields::{put_address, put_head, take_address, take_reason, take_start};
use crate::message::Message;
use wire_core::{FieldFault, Ip4, NoMemory, put_u8, put_u16, put_u64, take_u64};

#[tactic(auto, unfolding(crate::specs::Reading::ask_at))]
pub fn take_ask(bytes: &[u8]) -> Result<(Message<'_>, &[u8]), FieldFault>
    ensures { Gives (λ x. (x.0, x.1.now)) result (ask_at bytes.now) }
{
    let (boot, rest) = take_u64(bytes)?;
    let (machine, rest) = take_address(rest)?;
    let (seq, rest) = take_u64(rest)?;
    Ok((Message::Ask { boot, machine, seq }, rest))
}

#[tactic(auto, unfolding(crate::specs::Reading::grant_at))]
pub fn take_grant(bytes: &[u8]) -> Result<(Message<'_>, &[u8]), FieldFault>
    ensures { Gives (λ x. (x.0, x.1.now)) result (grant_at bytes.now) }
{
    let (boot, rest) = take_u64(bytes)?;
    let (machine, rest) = take_address(rest)?;
    let (seq, rest) = take_u64(rest)?;
    let (n, rest) = take_u64(rest)?;
    let (vip, rest) = take_address(rest)?;
    let (start, rest) = take_start(rest)?;
    Ok((
        Message::Grant {
            boot,
            machine,
            seq,
            n,
            vip,
            start,
        },
        rest,
    ))
}

#[tactic(auto, unfolding(crate::specs::Reading::denied_at))]
pub fn take_denied(bytes: &[u8]) -> Result<(Message<'_>, &[u8]), FieldFault>
    ensures { Gives (λ x. (x.0, x.1.now)) result (denied_at bytes.now) }
{
    let (boot, rest) = take_u64(bytes)?;
    let (machine, rest) = take_address(rest)?;
    let (seq, rest) = take_u64(rest)?;
    let (reason, rest) = take_reason(rest)?;
    let (number, rest) = take_u64(rest)?;
    Ok((
        Message::Denied {
            boot,
            machine,
            seq,
            reason,
            number,
        },
        rest,
    ))
}

#[tactic(auto, unfolding(crate::specs::Reading::two_numbers_at))]
pub fn take_return(bytes: &[u8]) -> Result<(Message<'_>, &[u8]), FieldFault>
    ensures { Gives (λ x. (x.0, x.1.now)) result (two_numbers_at Message.Return bytes.now) }
{
    let (boot, rest) = take_u64(bytes)?;
    let (n, rest) = take_u64(rest)?;
    Ok((Message::Return { boot, n }, rest))
}

#[tactic(auto, unfolding(crate::specs::Reading::two_numbers_at))]
pub fn take_returned(bytes: &[u8]) -> Result<(Message<'_>, &[u8]), FieldFault>
    ensures { Gives (λ x. (x.0, x.1.now)) result (two_numbers_at Message.Returned bytes.now) }
{
    let (boot, rest) = take_u64(bytes)?;
    let (n, rest) = take_u64(rest)?;
    Ok((Message::Returned { boot, n }, rest))
}

#[tactic(auto, unfolding(crate::specs::Reading::number_at))]
pub fn take_agent_up(bytes: &[u8]) -> Result<(Message<'_>, &[u8]), FieldFault>
    ensures { Gives (λ x. (x.0, x.1.now)) result (number_at Message.AgentUp bytes.now) }
{
    let (boot, rest) = take_u64(bytes)?;
    Ok((Message::AgentUp { boot }, rest))
}

#[tactic(auto, unfolding(crate::specs::Reading::number_at))]
pub fn take_agent_known(bytes: &[u8]) -> Result<(Message<'_>, &[u8]), FieldFault>
    ensures { Gives (λ x. (x.0, x.1.now)) result (number_at Message.AgentKnown bytes.now) }
{
    let (boot, rest) = take_u64(bytes)?;
    Ok((Message::AgentKnown { boot }, rest))
}

/// Appends an Ask. Without memory `out` stays as it was.
pub fn write_ask(out: &mut Vec<u8>, boot: u64, machine: Ip4, seq: u64) -> Result<(), NoMemory>
    ensures ok { OnOk result (out.new.items ≡ out.old.items ++ message_bytes (Message.Ask boot machine seq)) }
    ensures err { OnErr result (out.new.items ≡ out.old.items) }
    ensures room { vec_len out.old + length (message_bytes (Message.Ask boot machine seq)) ≤ vec_capacity out.old
        → IsOk result }
{
    out.reserve(22)?;
    put_head(out, 8);
    put_u64(out, boot);
    put_address(out, machine);
    put_u64(out, seq);
    Ok(())
}

/// Appends a Grant. Without memory `out` stays as it was.
pub fn write_grant(
    out: &mut Vec<u8>,
    boot: u64,
    machine: Ip4,
    seq: u64,
    n: u64,
    vip: Ip4,
    start: u16,
) -> Result<(), NoMemory>
    ensures ok { OnOk result (out.new.items
        ≡ out.old.items ++ message_bytes (Message.Grant boot machine seq n vip start)) }
    ensures err { OnErr result (out.new.items ≡ out.old.items) }
    ensures room { vec_len out.old + length (message_bytes (Message.Grant boot machine seq n vip start))
        ≤ vec_capacity out.old → IsOk result }
{
    out.reserve(36)?;
    put_head(out, 9);
    put_u64(out, boot);
    put_address(out, machine);
    put_u64(out, seq);
    put_u64(out, n);
    put_address(out, vip);
    put_u16(out, start);
    Ok(())
}

/// Appends a Denied. Without memory `out` stays as it was.
pub fn write_denied(
    out: &mut Vec<u8>,
    boot: u64,
    machine: Ip4,
    seq: u64,
    reason: u8,
    number: u64,
) -> Result<(), NoMemory>
    ensures ok { OnOk result (out.new.items
        ≡ out.old.items ++ message_bytes (Message.Denied boot machine seq reason number)) }
    ensures err { OnErr result (out.new.items ≡ out.old.items) }
    ensures room { vec_len out.old + length (message_bytes (Message.Denied boot machine seq reason number))
        ≤ vec_capacity out.old → IsOk result }
{
    out.reserve(31)?;
    put_head(out, 10);
    put_u64(out, boot);
    put_address(out, machine);
    put_u64(out, seq);
    put_u8(out, reason);
    put_u64(out, number);
    Ok(())
}
