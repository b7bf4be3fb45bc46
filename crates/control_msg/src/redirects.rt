// A connection leaves the muxes out.
ghost use Rattle.std.specs.Prelude.{◌≡◌, ◌+◌, ◌≤◌, ◌++◌, OnOk, OnErr, IsOk, length, vec_len, vec_capacity};
ghost use Rattle.wire_core.specs.Reading.{Gives};
ghost use Rattle.control_msg.specs.Messages.{message_bytes};
ghost use Rattle.control_msg.specs.Reading.{redirect_ask_at, redirect_at};

use crate::fields::{put_address, put_head, take_address, take_side};
use crate::message::Message;
use wire_core::{FieldFault, Ip4, NoMemory, put_u8, put_u16, put_u64, take_u16, take_u64};

#[tactic(auto, unfolding(crate::specs::Reading::redirect_ask_at))]
pub fn take_redirect_ask(bytes: &[u8]) -> Result<(Message<'_>, &[u8]), FieldFault>
    ensures { Gives (λ x. (x.0, x.1.now)) result (redirect_ask_at bytes.now) }
{
    let (src, rest) = take_address(bytes)?;
    let (sport, rest) = take_u16(rest)?;
    let (dst, rest) = take_address(rest)?;
    let (dport, rest) = take_u16(rest)?;
    let (machine, rest) = take_address(rest)?;
    Ok((
        Message::RedirectAsk {
            src,
            sport,
            dst,
            dport,
            machine,
        },
        rest,
    ))
}

#[tactic(auto, unfolding(crate::specs::Reading::redirect_at))]
pub fn take_redirect(bytes: &[u8]) -> Result<(Message<'_>, &[u8]), FieldFault>
    ensures { Gives (λ x. (x.0, x.1.now)) result (redirect_at bytes.now) }
{
    let (side, rest) = take_side(bytes)?;
    let (n, rest) = take_u64(rest)?;
    let (src, rest) = take_address(rest)?;
    let (sport, rest) = take_u16(rest)?;
    let (dst, rest) = take_address(rest)?;
    let (dport, rest) = take_u16(rest)?;
    let (opener, rest) = take_address(rest)?;
    let (server, rest) = take_address(rest)?;
    Ok((
        Message::Redirect {
            side,
            n,
            src,
            sport,
            dst,
            dport,
            opener,
            server,
        },
        rest,
    ))
}

/// Appends a RedirectAsk. Without memory `out` stays as it was.
pub fn write_redirect_ask(
    out: &mut Vec<u8>,
    src: Ip4,
    sport: u16,
    dst: Ip4,
    dport: u16,
    machine: Ip4,
) -> Result<(), NoMemory>
    ensures ok { OnOk result (out.new.items
        ≡ out.old.items ++ message_bytes (Message.RedirectAsk src sport dst dport machine)) }
    ensures err { OnErr result (out.new.items ≡ out.old.items) }
    ensures room { vec_len out.old + length (message_bytes (Message.RedirectAsk src sport dst dport machine))
        ≤ vec_capacity out.old → IsOk result }
{
    out.reserve(18)?;
    put_head(out, 22);
    put_address(out, src);
    put_u16(out, sport);
    put_address(out, dst);
    put_u16(out, dport);
    put_address(out, machine);
    Ok(())
}

/// Appends a Redirect. Without memory `out` stays as it was.
pub fn write_redirect(
    out: &mut Vec<u8>,
    side: u8,
    n: u64,
    src: Ip4,
    sport: u16,
    dst: Ip4,
    dport: u16,
    opener: Ip4,
    server: Ip4,
) -> Result<(), NoMemory>
    ensures ok { OnOk result (out.new.items
        ≡ out.old.items ++ message_bytes (Message.Redirect side n src sport dst dport opener server)) }
    ensures err { OnErr result (out.new.items ≡ out.old.items) }
    ensures room { vec_len out.old + length (message_bytes (Message.Redirect side n src sport dst dport opener server))
        ≤ vec_capacity out.old → IsOk result }
{
    out.reserve(31)?;
    put_head(out, 23);
    put_u8(out, side);
    put_u64(out, n);
    put_address(out, src);
    put_u16(out, sport);
    put_address(out, dst);
    put_u16(out, dport);
    put_address(out, opener);
    put_address(out, server);
    Ok(())
}
