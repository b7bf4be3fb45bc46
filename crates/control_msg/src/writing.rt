ghost use Rattle.std.specs.Prelude.{◌≡◌, ◌+◌, ◌≤◌, ◌++◌, OnOk, OnErr, IsOk, length, vec_len, vec_capacity};
ghost use Rattle.control_msg.specs.Messages.{message_bytes};

use crate::message::Message;
use crate::{agreement, fields, leases, muxes, redirects};
use wire_core::NoMemory;

/// Appends the message's one spelling, from its version byte on. `decode` reads it again exactly where the message's
/// fields are allowed: a start is a multiple of 8 from 1024 to 65528, a reason 1 or 2, a side 0 or 1, and a Promise has
/// a value exactly where its vote isn't 0. It takes memory only where `out`
/// has no room for it, and without memory `out` stays as it was.
pub fn encode(m: &Message, out: &mut Vec<u8>) -> Result<(), NoMemory>
    ensures ok { OnOk result (out.new.items ≡ out.old.items ++ message_bytes m.now) }
    ensures err { OnErr result (out.new.items ≡ out.old.items) }
    ensures room { vec_len out.old + length (message_bytes m.now) ≤ vec_capacity out.old → IsOk result }
{
    match m {
        Message::Prepare { ballot } => fields::write_number(out, 1, *ballot),
        Message::Promise {
            ballot,
            length,
            vote,
            value,
        } => agreement::write_promise(out, *ballot, *length, *vote, value),
        Message::Accept {
            ballot,
            slot,
            value,
        } => fields::write_valued(out, 3, *ballot, *slot, value),
        Message::Accepted { ballot, slot } => fields::write_two_numbers(out, 4, *ballot, *slot),
        Message::Refuse { ballot, promised } => fields::write_two_numbers(
            out, 5, *ballot, *promised,
        ),
        Message::Chosen {
            slot,
            ballot,
            value,
        } => fields::write_valued(out, 6, *slot, *ballot, value),
        Message::Fetch { slot } => fields::write_number(out, 7, *slot),
        Message::Ask { boot, machine, seq } => leases::write_ask(out, *boot, *machine, *seq),
        Message::Grant {
            boot,
            machine,
            seq,
            n,
            vip,
            start,
        } => leases::write_grant(out, *boot, *machine, *seq, *n, *vip, *start),
        Message::Denied {
            boot,
            machine,
            seq,
            reason,
            number,
        } => leases::write_denied(out, *boot, *machine, *seq, *reason, *number),
        Message::Return { boot, n } => fields::write_two_numbers(out, 11, *boot, *n),
        Message::Returned { boot, n } => fields::write_two_numbers(out, 12, *boot, *n),
        Message::AgentUp { boot } => fields::write_number(out, 13, *boot),
        Message::AgentKnown { boot } => fields::write_number(out, 14, *boot),
        Message::MuxHello { boot, epoch } => fields::write_two_numbers(out, 15, *boot, *epoch),
        Message::Program {
            epoch,
            boot,
            n,
            vip,
            start,
            machine,
        } => muxes::write_program(out, *epoch, *boot, *n, *vip, *start, *machine),
        Message::Programmed { epoch, boot, n } => fields::write_three_numbers(
            out, 17, *epoch, *boot, *n,
        ),
        Message::Unprogram {
            epoch,
            boot,
            n,
            vip,
            start,
        } => muxes::write_unprogram(out, *epoch, *boot, *n, *vip, *start),
        Message::Unprogrammed { epoch, boot, n } => fields::write_three_numbers(
            out, 19, *epoch, *boot, *n,
        ),
        Message::MuxRefuse { epoch, boot, kept } => fields::write_three_numbers(
            out, 20, *epoch, *boot, *kept,
        ),
        Message::Lead { ballot, length } => fields::write_two_numbers(out, 21, *ballot, *length),
        Message::RedirectAsk {
            src,
            sport,
            dst,
            dport,
            machine,
        } => redirects::write_redirect_ask(out, *src, *sport, *dst, *dport, *machine),
        Message::Redirect {
            side,
            n,
            src,
            sport,
            dst,
            dport,
            opener,
            server,
        } => redirects::write_redirect(
            out, *side, *n, *src, *sport, *dst, *dport, *opener, *server,
        ),
    }
}
