ghost use Rattle.std.specs.Prelude.{◌≡◌, IfOk, Some};
ghost use Rattle.std.specs.Option.{option_copied, option_map};
ghost use Rattle.address_text.specs.Fields.{parts, parts_of};
ghost use Rattle.schedule_text.specs.Fields.{node_at};
ghost use Rattle.schedule_text.specs.Lines.{alone, crash_at, crash_with, deliver_at, during_of, during_with};
ghost use Rattle.schedule_text.specs.Lines.{event_by, event_of, kept_at, inject_head, inject_with, kept_of};
ghost use Rattle.schedule_text.specs.Lines.{restart_at, settle_of, single_at, single_by, small_at, tick_at};

use crate::event::{Event, Single};
use crate::fields::{next_word, node_at, number_at, outside_at, read_bytes};
use address_text::cut;
use std::alloc::Global;
use vip_config::Config;
use wire_core::{NoMemory, NodeId, Socket};

#[tactic(auto, unfolding(crate::specs::Lines::deliver_at))]
fn deliver_at(words: Option<&[u8]>) -> Option<(Single, Option<&[u8]>)>
    ensures { option_map (λ w. (w.0, parts_of 32 (option_copied w.1))) result
        ≡ deliver_at (parts_of 32 (option_copied words.entry)) }
{
    let (k, rest) = number_at(words)?;
    Some((Single::Deliver { k }, rest))
}

#[tactic(auto, unfolding(crate::specs::Lines::tick_at))]
fn tick_at<'a>(cfg: &Config, words: Option<&'a [u8]>) -> Option<(Single, Option<&'a [u8]>)>
    ensures { option_map (λ w. (w.0, parts_of 32 (option_copied w.1))) result
        ≡ tick_at cfg.now (parts_of 32 (option_copied words.entry)) }
{
    let (node, rest) = node_at(cfg, words)?;
    let (now, rest) = number_at(rest)?;
    Some((Single::Tick { node, now }, rest))
}

#[tactic(auto, unfolding(crate::specs::Lines::restart_at))]
fn restart_at<'a>(cfg: &Config, words: Option<&'a [u8]>) -> Option<(Single, Option<&'a [u8]>)>
    ensures { option_map (λ w. (w.0, parts_of 32 (option_copied w.1))) result
        ≡ restart_at cfg.now (parts_of 32 (option_copied words.entry)) }
{
    let (node, rest) = node_at(cfg, words)?;
    Some((Single::Restart { node }, rest))
}

/// What stands in an inject line before its bytes are read.
#[derive(Clone, Copy)]
struct Head<'a> {
    node: NodeId,
    from: Socket,
    text: &'a [u8],
    rest: Option<&'a [u8]>,
}

/// A node, a socket and the text of the bytes.
#[tactic(auto, unfolding(crate::specs::Lines::inject_head))]
fn inject_head<'a>(cfg: &Config, words: Option<&'a [u8]>) -> Option<Head<'a>>
    ensures { option_map (λ h. ((h.node, h.from, h.text.now), parts_of 32 (option_copied h.rest))) result
        ≡ inject_head cfg.now (parts_of 32 (option_copied words.entry)) }
{
    let (node, rest) = node_at(cfg, words)?;
    let (from, rest) = outside_at(cfg, rest)?;
    let (text, rest) = next_word(rest)?;
    Some(Head {
        node,
        from,
        text,
        rest,
    })
}

/// The event of an inject line.
fn inject_with<'a>(
    alloc: Global,
    head: Option<Head<'a>>,
) -> Result<Option<(Single, Option<&'a [u8]>)>, NoMemory>
    ensures { IfOk result (λ r. option_map (λ w. (w.0, parts_of 32 (option_copied w.1))) r
        ≡ inject_with
        (option_map (λ h. ((h.node, h.from, h.text.now), parts_of 32 (option_copied h.rest))) head.entry)) }
{
    let Some(head) = head else {
        return Ok(None);
    };
    match read_bytes(alloc, head.text)? {
        None => Ok(None),
        Some(bytes) => Ok(Some((
            Single::Inject {
                node: head.node,
                from: head.from,
                bytes,
            },
            head.rest,
        ))),
    }
}

/// An event that needs no bytes.
fn small_at<'a>(
    cfg: &Config,
    word: &[u8],
    words: Option<&'a [u8]>,
) -> Option<(Single, Option<&'a [u8]>)>
    ensures { option_map (λ w. (w.0, parts_of 32 (option_copied w.1))) result
        ≡ small_at cfg.now word.now (parts_of 32 (option_copied words.entry)) }
{
    if word == b"deliver".as_slice() {
        deliver_at(words)
    } else if word == b"tick".as_slice() {
        tick_at(cfg, words)
    } else if word == b"restart".as_slice() {
        restart_at(cfg, words)
    } else {
        None
    }
}

fn single_by<'a>(
    alloc: Global,
    cfg: &Config,
    word: &[u8],
    words: Option<&'a [u8]>,
) -> Result<Option<(Single, Option<&'a [u8]>)>, NoMemory>
    ensures { IfOk result (λ r. option_map (λ w. (w.0, parts_of 32 (option_copied w.1))) r
        ≡ single_by cfg.now word.now (parts_of 32 (option_copied words.entry))) }
{
    if word == b"inject".as_slice() {
        inject_with(alloc, inject_head(cfg, words))
    } else {
        Ok(small_at(cfg, word, words))
    }
}

/// An event at one node, and the words behind it.
fn single_at<'a>(
    alloc: Global,
    cfg: &Config,
    words: Option<&'a [u8]>,
) -> Result<Option<(Single, Option<&'a [u8]>)>, NoMemory>
    ensures { IfOk result (λ r. option_map (λ w. (w.0, parts_of 32 (option_copied w.1))) r
        ≡ single_at cfg.now (parts_of 32 (option_copied words.entry))) }
{
    match next_word(words) {
        None => Ok(None),
        Some((word, rest)) => single_by(alloc, cfg, word, rest),
    }
}

fn kept_of(word: &[u8]) -> Option<bool>
    ensures { result ≡ kept_of word.now }
{
    if word == b"keep".as_slice() {
        Some(true)
    } else if word == b"lose".as_slice() {
        Some(false)
    } else {
        None
    }
}

/// Whether the entry of the step is kept: the last word of the line.
#[tactic(auto, using(crate::proofs::Words::one_more), unfolding(crate::specs::Lines::kept_at))]
fn kept_at(words: Option<&[u8]>) -> Option<bool>
    ensures { result ≡ kept_at (parts_of 32 (option_copied words.entry)) }
{
    let (word, rest) = next_word(words)?;
    match rest {
        None => kept_of(word),
        Some(_) => None,
    }
}

fn during_with(node: NodeId, e: Single, keep: Option<bool>) -> Option<Event>
    ensures { result ≡ during_with node e keep }
{
    match keep {
        None => None,
        Some(keep) => Some(Event::During { node, e, keep }),
    }
}

/// What a crash falls in.
fn during_of(node: NodeId, single: Option<(Single, Option<&[u8]>)>) -> Option<Event>
    ensures { result ≡ during_of node (option_map (λ w. (w.0, parts_of 32 (option_copied w.1))) single.entry) }
{
    let (e, rest) = single?;
    during_with(node, e, kept_at(rest))
}

/// A crash, and what it falls in.
fn crash_with(
    alloc: Global,
    cfg: &Config,
    node: NodeId,
    words: Option<&[u8]>,
) -> Result<Option<Event>, NoMemory>
    ensures { IfOk result (λ r. r ≡ crash_with cfg.now node (parts_of 32 (option_copied words.entry))) }
{
    let Some((word, rest)) = next_word(words) else {
        return Ok(Some(Event::Crash { node }));
    };
    if word == b"during".as_slice() {
        Ok(during_of(node, single_at(alloc, cfg, rest)?))
    } else {
        Ok(None)
    }
}

fn crash_at(
    alloc: Global,
    cfg: &Config,
    node: Option<(NodeId, Option<&[u8]>)>,
) -> Result<Option<Event>, NoMemory>
    ensures { IfOk result (λ r. r
        ≡ crash_at cfg.now (option_map (λ w. (w.0, parts_of 32 (option_copied w.1))) node.entry)) }
{
    match node {
        None => Ok(None),
        Some((node, rest)) => crash_with(alloc, cfg, node, rest),
    }
}

#[tactic(auto, using(crate::proofs::Words::ended_more), unfolding(crate::specs::Lines::settle_of))]
fn settle_of(words: Option<&[u8]>) -> Option<Event>
    ensures { result ≡ settle_of (parts_of 32 (option_copied words.entry)) }
{
    let (n, rest) = number_at(words)?;
    match rest {
        None => Some(Event::Settle { n }),
        Some(_) => None,
    }
}

/// An event with nothing behind it.
#[tactic(auto, using(crate::proofs::Words::alone_more))]
fn alone(single: Option<(Single, Option<&[u8]>)>) -> Option<Event>
    ensures { result ≡ alone (option_map (λ w. (w.0, parts_of 32 (option_copied w.1))) single.entry) }
{
    let (e, rest) = single?;
    match rest {
        None => Some(Event::Single(e)),
        Some(_) => None,
    }
}

fn event_by(
    alloc: Global,
    cfg: &Config,
    word: &[u8],
    words: Option<&[u8]>,
) -> Result<Option<Event>, NoMemory>
    ensures { IfOk result (λ r. r ≡ event_by cfg.now word.now (parts_of 32 (option_copied words.entry))) }
{
    if word == b"settle".as_slice() {
        Ok(settle_of(words))
    } else if word == b"crash".as_slice() {
        crash_at(alloc, cfg, node_at(cfg, words))
    } else {
        Ok(alone(single_by(alloc, cfg, word, words)?))
    }
}

/// What a line says. `None` exactly where it is no event's. Its memory is that of a datagram's bytes.
pub fn event_of(alloc: Global, cfg: &Config, text: &[u8]) -> Result<Option<Event>, NoMemory>
    ensures { IfOk result (λ r. r ≡ event_of cfg.now (parts 32 text.now)) }
{
    let (word, words) = cut(text, b' ');
    event_by(alloc, cfg, word, words)
}
