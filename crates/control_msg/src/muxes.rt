// A primary tells the muxes which machine has which range.
ghost use Rattle.std.specs.Prelude.{◌≡◌, ◌+◌, ◌≤◌, ◌++◌, OnOk, OnErr, IsOk, length, vec_len, vec_capacity};
ghost use Rattle.wire_core.specs.Reading.{Gives};
ghost use Rattle.control_msg.specs.Messages.{message_bytes};
ghost use Rattle.control_msg.specs.Reading.{program_at, three_numbers_at, two_numbers_at, unprogram_at};

use crate::fields::{put_address, put_head, take_address, take_start};
use crate::message::Message;
use wire_core::{FieldFault, Ip4, NoMemory, put_u16, put_u64, take_u64};

#[tactic(auto, unfolding(crate::specs::Reading::two_numbers_at))]
pub fn take_mux_hello(bytes: &[u8]) -> Result<(Message<'_>, &[u8]), FieldFault>
    ensures { Gives (λ x. (x.0, x.1.now)) result (two_numbers_at Message.MuxHello bytes.now) }
{
    let (boot, rest) = take_u64(bytes)?;
    let (epoch, rest) = take_u64(rest)?;
    Ok((Message::MuxHello { boot, epoch }, rest))
}

#[tactic(auto, unfolding(crate::specs::Reading::program_at))]
pub fn take_program(bytes: &[u8]) -> Result<(Message<'_>, &[u8]), FieldFault>
    ensures { Gives (λ x. (x.0, x.1.now)) result (program_at bytes.now) }
{
    let (epoch, rest) = take_u64(bytes)?;
    let (boot, rest) = take_u64(rest)?;
    let (n, rest) = take_u64(rest)?;
    let (vip, rest) = take_address(rest)?;
    let (start, rest) = take_start(rest)?;
    let (machine, rest) = take_address(rest)?;
    Ok((
        Message::Program {
            epoch,
            boot,
            n,
            vip,
            start,
            machine,
        },
        rest,
    ))
}

#[tactic(auto, unfolding(crate::specs::Reading::three_numbers_at))]
pub fn take_programmed(bytes: &[u8]) -> Result<(Message<'_>, &[u8]), FieldFault>
    ensures { Gives (λ x. (x.0, x.1.now)) result (three_numbers_at Message.Programmed bytes.now) }
{
    let (epoch, rest) = take_u64(bytes)?;
    let (boot, rest) = take_u64(rest)?;
    let (n, rest) = take_u64(rest)?;
    Ok((Message::Programmed { epoch, boot, n }, rest))
}

#[tactic(auto, unfolding(crate::specs::Reading::unprogram_at))]
pub fn take_unprogram(bytes: &[u8]) -> Result<(Message<'_>, &[u8]), FieldFault>
    ensures { Gives (λ x. (x.0, x.1.now)) result (unprogram_at bytes.now) }
{
    let (epoch, rest) = take_u64(bytes)?;
    let (boot, rest) = take_u64(rest)?;
    let (n, rest) = take_u64(rest)?;
    let (vip, rest) = take_address(rest)?;
    let (start, rest) = take_start(rest)?;
    Ok((
        Message::Unprogram {
            epoch,
            boot,
            n,
            vip,
            start,
        },
        rest,
    ))
}

#[tactic(auto, unfolding(crate::specs::Reading::three_numbers_at))]
pub fn take_unprogrammed(bytes: &[u8]) -> Result<(Message<'_>, &[u8]), FieldFault>
    ensures { Gives (λ x. (x.0, x.1.now)) result (three_numbers_at Message.Unprogrammed bytes.now) }
{
    let (epoch, rest) = take_u64(bytes)?;
    let (boot, rest) = take_u64(rest)?;
    let (n, rest) = take_u64(rest)?;
    Ok((Message::Unprogrammed { epoch, boot, n }, rest))
}

#[tactic(auto, unfolding(crate::specs::Reading::three_numbers_at))]
pub fn take_mux_refuse(bytes: &[u8]) -> Result<(Message<'_>, &[u8]), FieldFault>
    ensures { Gives (λ x. (x.0, x.1.now)) result (three_numbers_at Message.MuxRefuse bytes.now) }
{
    let (epoch, rest) = take_u64(bytes)?;
    let (boot, rest) = take_u64(rest)?;
    let (kept, rest) = take_u64(rest)?;
    Ok((Message::MuxRefuse { epoch, boot, kept }, rest))
}

/// Appends a Program. Without memory `out` stays as it was.
pub fn write_program(
    out: &mut Vec<u8>,
    epoch: u64,
    boot: u64,
    n: u64,
    vip: Ip4,
    start: u16,
    machine: Ip4,
) -> Result<(), NoMemory>
    ensures ok { OnOk result (out.new.items
        ≡ out.old.items ++ message_bytes (Message.Program epoch boot n vip start machine)) }
    ensures err { OnErr result (out.new.items ≡ out.old.items) }
    ensures room { vec_len out.old + length (message_bytes (Message.Program epoch boot n vip start machine))
        ≤ vec_capacity out.old → IsOk result }
{
    out.reserve(36)?;
    put_head(out, 16);
    put_u64(out, epoch);
    put_u64(out, boot);
    put_u64(out, n);
    put_address(out, vip);
    put_u16(out, start);
    put_address(out, machine);
    Ok(())
}

/// Appends an Unprogram. Without memory `out` stays as it was.
pub fn write_unprogram(
    out: &mut Vec<u8>,
    epoch: u64,
    boot: u64,
    n: u64,
    vip: Ip4,
    start: u16,
) -> Result<(), NoMemory>
    ensures ok { OnOk result (out.new.items
        ≡ out.old.items ++ message_bytes (Message.Unprogram epoch boot n vip start)) }
    ensures err { OnErr result (out.new.items ≡ out.old.items) }
    ensures room { vec_len out.old + length (message_bytes (Message.Unprogram epoch boot n vip start))
        ≤ vec_capacity out.old → IsOk result }
{
    out.reserve(32)?;
    put_head(out, 18);
    put_u64(out, epoch);
    put_u64(out, boot);
    put_u64(out, n);
    put_address(out, vip);
    put_u16(out, start);
    Ok(())
}
