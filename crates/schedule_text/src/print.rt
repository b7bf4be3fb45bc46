ghost use Rattle.std.specs.Prelude.{◌≡◌, ◌++◌, OnOk, codes, string_bytes};
ghost use Rattle.std.specs.Fmt.{decimal};
ghost use Rattle.hex.specs.Hex.{encode_lower};
ghost use Rattle.packet_spec.specs.Causes.{cause_name};
ghost use Rattle.schedule_text.specs.Transcript.{act_text, conn_text, end_text, line_text, note_text, number_text};
ghost use Rattle.schedule_text.specs.Transcript.{place_text, printed_line, proto_text, sent_to, target_text};
ghost use Rattle.schedule_text.specs.Transcript.{word_text};

use crate::line::{Line, Word};
use crate::write::{write_event, write_hex, write_node, write_socket};
use address_text::write_address;
use packet_spec::cause_name;
use std::alloc::Global;
use vip_config::{Config, Who};
use wire_core::{Act, Conn, DropCause, Ip4, NoMemory, NodeId, Note, Proto, Socket};

fn proto_text(proto: Proto) -> &'static str
    ensures { result.now ≡ proto_text proto }
{
    match proto {
        Proto::Tcp => "tcp",
        Proto::Udp => "udp",
    }
}

#[tactic(auto, unfolding(crate::specs::Transcript::place_text))]
fn write_place(out: &mut String, ip: Ip4) -> Result<(), NoMemory>
    ensures { OnOk result (string_bytes out.new ≡ string_bytes out.old ++ place_text ip) }
{
    write_address(out, ip)
}

/// An address and a port as two words.
#[tactic(auto, unfolding(crate::specs::Transcript::end_text))]
fn write_end(out: &mut String, ip: Ip4, port: u16) -> Result<(), NoMemory>
    ensures { OnOk result (string_bytes out.new ≡ string_bytes out.old ++ end_text ip port) }
{
    out.push_str(" ")?;
    write_place(out, ip)?;
    write!(out, " {port}")
}

fn write_conn(out: &mut String, c: &Conn) -> Result<(), NoMemory>
    ensures { OnOk result (string_bytes out.new ≡ string_bytes out.old ++ conn_text c.now) }
{
    out.push_str(proto_text(c.proto))?;
    write_end(out, c.vip, c.port)?;
    write_end(out, c.remote, c.rport)?;
    write_end(out, c.machine, c.sport)
}

fn write_reserve(
    out: &mut String,
    n: u64,
    vip: Ip4,
    start: u16,
    machine: Ip4,
) -> Result<(), NoMemory>
    ensures { OnOk result (string_bytes out.new
        ≡ string_bytes out.old ++ (codes "act reserve "
        ++ (decimal n ++ (end_text vip start ++ (codes " " ++ place_text machine))))) }
{
    write!(out, "act reserve {n}")?;
    write_end(out, vip, start)?;
    out.push_str(" ")?;
    write_place(out, machine)
}

fn write_hand(alloc: Global, out: &mut String, machine: Ip4, bytes: &[u8]) -> Result<(), NoMemory>
    ensures { OnOk result (string_bytes out.new
        ≡ string_bytes out.old ++ (codes "act hand "
        ++ (place_text machine ++ (codes " " ++ encode_lower bytes.now)))) }
{
    out.push_str("act hand ")?;
    write_place(out, machine)?;
    out.push_str(" ")?;
    write_hex(alloc, out, bytes)
}

fn write_act(alloc: Global, out: &mut String, act: &Act) -> Result<(), NoMemory>
    ensures { OnOk result (string_bytes out.new ≡ string_bytes out.old ++ act_text act.now) }
{
    match act {
        Act::Reserve { n, range, machine } => {
            write_reserve(out, *n, range.vip, range.start, *machine)
        }
        Act::Grant { n } => write!(out, "act grant {n}"),
        Act::Free { n } => write!(out, "act free {n}"),
        Act::Freed { n } => write!(out, "act freed {n}"),
        Act::Hold { n } => write!(out, "act hold {n}"),
        Act::Drop { n } => write!(out, "act drop {n}"),
        Act::Open { c } => {
            out.push_str("act open ")?;
            write_conn(out, c)
        }
        Act::Close { c } => {
            out.push_str("act close ")?;
            write_conn(out, c)
        }
        Act::Lose { agent } => write!(out, "act lose agent {agent}"),
        Act::Hand { machine, bytes } => write_hand(alloc, out, *machine, bytes.as_slice()),
    }
}

/// The number that some causes carry.
fn write_number(out: &mut String, cause: DropCause) -> Result<(), NoMemory>
    ensures { OnOk result (string_bytes out.new ≡ string_bytes out.old ++ number_text cause) }
{
    match cause {
        DropCause::WrongBoot(number)
        | DropCause::OldEpoch(number)
        | DropCause::OldNumber(number)
        | DropCause::OldGrant(number)
        | DropCause::StaleLease(number) => write!(out, " {number}"),
        _ => Ok(()),
    }
}

fn write_drop(out: &mut String, cause: DropCause) -> Result<(), NoMemory>
    ensures { OnOk result
        (string_bytes out.new ≡ string_bytes out.old ++ (codes "drop " ++ (cause_name cause ++ number_text cause))) }
{
    let name = cause_name(cause);
    write!(out, "drop {name}")?;
    write_number(out, cause)
}

fn write_note(out: &mut String, note: &Note) -> Result<(), NoMemory>
    ensures { OnOk result (string_bytes out.new ≡ string_bytes out.old ++ note_text note.now) }
{
    match *note {
        Note::Queued { machine, count } => {
            out.push_str("queued ")?;
            write_place(out, machine)?;
            write!(out, " {count}")
        }
        Note::Dropped { cause } => write_drop(out, cause),
    }
}

fn word_text(word: Word) -> &'static str
    ensures { result.now ≡ word_text word }
{
    match word {
        Word::NotYet => "none",
        Word::Outside => "outside",
        Word::Down => "down",
        Word::Up => "up",
        Word::Other => "other",
    }
}

fn write_target(out: &mut String, owner: Who, to: &Socket) -> Result<(), NoMemory>
    ensures { OnOk result (string_bytes out.new ≡ string_bytes out.old ++ target_text owner to.now) }
{
    match owner {
        Who::Replica(i) => write_node(out, &NodeId::Replica(i)),
        Who::Mux(i) => write_node(out, &NodeId::Mux(i)),
        Who::Agent(i) => write_node(out, &NodeId::Agent(i)),
        Who::Machine(_) | Who::Outside => write_socket(out, to),
    }
}

#[tactic(auto, unfolding(crate::specs::Transcript::sent_to))]
fn write_to(out: &mut String, cfg: &Config, to: &Socket) -> Result<(), NoMemory>
    ensures { OnOk result (string_bytes out.new ≡ string_bytes out.old ++ sent_to cfg.now to.now) }
{
    write_target(out, cfg.who(to), to)
}

fn write_tail(
    alloc: Global,
    out: &mut String,
    cfg: &Config,
    to: &Socket,
    bytes: &[u8],
) -> Result<(), NoMemory>
    ensures { OnOk result (string_bytes out.new
        ≡ string_bytes out.old ++ (codes " " ++ (sent_to cfg.now to.now ++ (codes " " ++ encode_lower bytes.now)))) }
{
    out.push_str(" ")?;
    write_to(out, cfg, to)?;
    out.push_str(" ")?;
    write_hex(alloc, out, bytes)
}

fn write_line(alloc: Global, out: &mut String, cfg: &Config, line: &Line) -> Result<(), NoMemory>
    ensures { OnOk result (string_bytes out.new ≡ string_bytes out.old ++ line_text cfg.now line.now) }
{
    match line {
        Line::Event(event) => {
            out.push_str("event ")?;
            write_event(alloc, out, event)
        }
        Line::Delivery { k } => write!(out, "event deliver {k}"),
        Line::Word(word) => {
            let text = word_text(*word);
            write!(out, "{text}")
        }
        Line::Act(act) => write_act(alloc, out, act),
        Line::Note(note) => write_note(out, note),
        Line::Sent { k, from, to, bytes } => {
            write!(out, "sent {k} ")?;
            write_node(out, from)?;
            write_tail(alloc, out, cfg, to, bytes.as_slice())
        }
    }
}

/// Appends a line of a transcript, with its end.
pub fn print_line(
    alloc: Global,
    line: &Line,
    cfg: &Config,
    out: &mut String,
) -> Result<(), NoMemory>
    ensures { OnOk result (string_bytes out.new ≡ string_bytes out.old ++ printed_line cfg.now line.now) }
{
    write_line(alloc, out, cfg, line)?;
    out.push_str("\n")?;
    Ok(())
}

/// The same into a list of bytes.
pub fn print_line_bytes(
    alloc: Global,
    line: &Line,
    cfg: &Config,
    out: &mut Vec<u8>,
) -> Result<(), NoMemory>
    ensures { OnOk result (out.new.items ≡ out.old.items ++ printed_line cfg.now line.now) }
{
    let mut text = String::new(alloc);
    print_line(alloc, line, cfg, &mut text)?;
    out.extend_from_slice(text.as_bytes())?;
    Ok(())
}
