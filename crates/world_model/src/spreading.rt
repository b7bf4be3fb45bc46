// What a step of a node adds to the datagrams and to the lines.
ghost use Rattle.std.specs.Prelude.{◌≡◌, ◌++◌, ◌∷◌, [], map, length, OnOk};
ghost use Rattle.schedule_text.specs.declared.line.Line.TheVariants as line;
ghost use Rattle.world_mail.specs.Mails.{with_posted};
ghost use Rattle.world_spec.specs.Acts.{loss};
ghost use Rattle.world_spec.specs.Steps.{act_lines, home, note_lines, sent_lines};
ghost use Rattle.world_spec.specs.World.{same_node};
ghost use Rattle.vip_config.specs.Queries.{who_of};
ghost use Rattle.world_model.specs.World.{acts_of, cut_acts, cut_lines, fallen_lines, longer_acts, node_in, opened_lines, posted_by, say, spread_lines, spread_mail};

use schedule_text::{Line, Word};
use std::alloc::{AllocError, Global};
use vip_config::{Config, Who};
use wire_core::{
    Act, ActList, Items, NoMemory, NodeId, Note, NoteList, Outgoing, SendList, Socket,
};
use world_mail::Mail;
use world_nodes::Stepped;

/// The same node.
pub fn same_node(x: NodeId, y: NodeId) -> bool
    ensures { result ≡ same_node x y }
{
    match (x, y) {
        (NodeId::Replica(i), NodeId::Replica(j)) => i == j,
        (NodeId::Mux(i), NodeId::Mux(j)) => i == j,
        (NodeId::Agent(i), NodeId::Agent(j)) => i == j,
        (NodeId::Replica(_), NodeId::Mux(_)) => false,
        (NodeId::Replica(_), NodeId::Agent(_)) => false,
        (NodeId::Mux(_), NodeId::Replica(_)) => false,
        (NodeId::Mux(_), NodeId::Agent(_)) => false,
        (NodeId::Agent(_), NodeId::Replica(_)) => false,
        (NodeId::Agent(_), NodeId::Mux(_)) => false,
    }
}

/// The socket of a node.
pub fn home(cfg: &Config, who: NodeId) -> Socket
    ensures { result ≡ home cfg.now who }
{
    match cfg.socket(&who) {
        Some(socket) => socket,
        None => cfg.router(),
    }
}

fn node_in(who: Who) -> Option<NodeId>
    ensures { result ≡ node_in who }
{
    match who {
        Who::Replica(i) => Some(NodeId::Replica(i)),
        Who::Mux(i) => Some(NodeId::Mux(i)),
        Who::Agent(i) => Some(NodeId::Agent(i)),
        Who::Machine(_) => None,
        Who::Outside => None,
    }
}

/// The line of a word.
pub fn say(lines: &mut Vec<Line>, word: Word) -> Result<(), NoMemory>
    ensures { OnOk result (lines.new.items ≡ lines.old.items ++ say word) }
{
    lines.push(Line::Word(word))?;
    Ok(())
}

#[tactic(auto, using(crate::proofs::Spreads::acts_next))]
fn say_acts(lines: &mut Vec<Line>, acts: ActList) -> Result<(), NoMemory>
    ensures { OnOk result (lines.new.items ≡ lines.old.items ++ act_lines acts) }
{
    for act in acts.into_vec() {
        lines.push(Line::Act(act))?;
    }
    Ok(())
}

#[tactic(auto, using(crate::proofs::Spreads::notes_next))]
fn say_notes(lines: &mut Vec<Line>, notes: NoteList) -> Result<(), NoMemory>
    ensures { OnOk result (lines.new.items ≡ lines.old.items ++ note_lines notes) }
{
    for note in notes.into_vec() {
        lines.push(Line::Note(note))?;
    }
    Ok(())
}

fn say_sent(
    alloc: Global,
    lines: &mut Vec<Line>,
    k: u64,
    from: NodeId,
    send: &Outgoing,
) -> Result<(), NoMemory>
    ensures { OnOk result (lines.new.items
        ≡ lines.old.items ++ line.Sent k from send.now.to send.now.bytes ∷ []) }
{
    let bytes = Items::from_vec(send.bytes.as_slice().to_vec(alloc)?);
    lines.push(Line::Sent {
        k,
        from,
        to: send.to,
        bytes,
    })?;
    Ok(())
}

fn say_all_sent(
    alloc: Global,
    lines: &mut Vec<Line>,
    from: NodeId,
    sent: u64,
    sends: &[Outgoing],
) -> Result<(), NoMemory>
    ensures { OnOk result (lines.new.items ≡ lines.old.items ++ sent_lines from sent sends.now) }
{
    let mut k = sent;
    for send in sends {
        let Some(next) = k.checked_add(1) else {
            return Err(AllocError);
        };
        k = next;
        say_sent(alloc, lines, k, from, send)?;
    }
    Ok(())
}

fn post(cfg: &Config, mail: &mut Mail, from: NodeId, send: Outgoing) -> Result<(), NoMemory>
    ensures { OnOk result (mail.new ≡ with_posted mail.old (posted_by cfg.now from send ∷ [])) }
{
    let Outgoing { to, bytes } = send;
    mail.post(from, node_in(cfg.who(&to)), bytes)
}

#[tactic(auto, using(crate::proofs::Spreads::posted_next, crate::proofs::Spreads::posted_none))]
fn post_all(cfg: &Config, mail: &mut Mail, from: NodeId, sends: SendList) -> Result<(), NoMemory>
    ensures { OnOk result (mail.new ≡ with_posted mail.old (map (posted_by cfg.now from) sends)) }
{
    for send in sends.into_vec() {
        post(cfg, mail, from, send)?;
    }
    Ok(())
}

// A replica's acts, where no log was as long as its own is now.
fn longer_acts(alloc: Global, longest: u64, learned: u64, acts: ActList) -> ActList
    ensures { result ≡ longer_acts longest (record { learned = learned; acts = acts; notes = []; sends = [] }) }
{
    if longest < learned {
        acts
    } else {
        Items::new(alloc)
    }
}

fn acts_of(alloc: Global, x: NodeId, longest: u64, learned: u64, acts: ActList) -> ActList
    ensures { result ≡ acts_of x longest (record { learned = learned; acts = acts; notes = []; sends = [] }) }
{
    match x {
        NodeId::Replica(_) => longer_acts(alloc, longest, learned, acts),
        NodeId::Mux(_) => acts,
        NodeId::Agent(_) => acts,
    }
}

/// The datagrams and the lines of a step, or the word where the node was down. `longest` is the length of the longest
/// log before it.
pub fn spread(
    alloc: Global,
    cfg: &Config,
    mail: &mut Mail,
    x: NodeId,
    longest: u64,
    stepped: Option<Stepped>,
    lines: &mut Vec<Line>,
) -> Result<(), NoMemory>
    ensures mail { OnOk result (mail.new ≡ spread_mail cfg.now mail.old x stepped) }
    ensures lines { OnOk result (lines.new.items
        ≡ lines.old.items ++ spread_lines x longest (length mail.old.posted) stepped) }
{
    let Some(stepped) = stepped else {
        return say(lines, Word::Down);
    };
    let Stepped {
        learned,
        acts,
        notes,
        sends,
    } = stepped;
    say_acts(lines, acts_of(alloc, x, longest, learned, acts))?;
    say_notes(lines, notes)?;
    say_all_sent(alloc, lines, x, mail.len() as u64, sends.as_slice())?;
    post_all(cfg, mail, x, sends)
}

// The act of a node that goes down.
fn say_loss(lines: &mut Vec<Line>, x: NodeId) -> Result<(), NoMemory>
    ensures { OnOk result (lines.new.items ≡ lines.old.items ++ act_lines (loss x)) }
{
    match x {
        NodeId::Agent(agent) => {
            lines.push(Line::Act(Act::Lose { agent }))?;
            Ok(())
        }
        NodeId::Replica(_) => Ok(()),
        NodeId::Mux(_) => Ok(()),
    }
}

/// The lines of a node that went down, or the word where nothing did.
pub fn say_fallen(lines: &mut Vec<Line>, x: NodeId, word: Word, fell: bool) -> Result<(), NoMemory>
    ensures { OnOk result (lines.new.items ≡ lines.old.items ++ fallen_lines x word fell) }
{
    if fell {
        say_loss(lines, x)
    } else {
        say(lines, word)
    }
}

/// The word of a node that was up already.
pub fn say_opened(lines: &mut Vec<Line>, opened: bool) -> Result<(), NoMemory>
    ensures { OnOk result (lines.new.items ≡ lines.old.items ++ opened_lines opened) }
{
    if opened {
        return Ok(());
    }
    say(lines, Word::Up)
}

fn cut_acts(alloc: Global, x: NodeId, longest: u64, learned: u64, acts: ActList) -> ActList
    ensures { result ≡ cut_acts x longest (record { learned = learned; acts = acts; notes = []; sends = [] }) }
{
    match x {
        NodeId::Replica(_) => longer_acts(alloc, longest, learned, acts),
        NodeId::Mux(_) => Items::new(alloc),
        NodeId::Agent(_) => Items::new(alloc),
    }
}

/// The lines of a step that a crash cut short, or the word where the node was down.
#[tactic(auto, using(crate::proofs::Spreads::lines_of_both))]
pub fn say_cut(
    alloc: Global,
    lines: &mut Vec<Line>,
    x: NodeId,
    longest: u64,
    stepped: Option<Stepped>,
) -> Result<(), NoMemory>
    ensures { OnOk result (lines.new.items ≡ lines.old.items ++ cut_lines x longest stepped) }
{
    let Some(stepped) = stepped else {
        return say(lines, Word::Down);
    };
    let Stepped { learned, acts, .. } = stepped;
    say_acts(lines, cut_acts(alloc, x, longest, learned, acts))?;
    say_loss(lines, x)
}
