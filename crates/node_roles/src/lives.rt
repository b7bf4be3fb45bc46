// A node of each role stopped at each call of its disk, crashed, and opened again. What plays it plays any core.
use crate::Role;
use crate::stories::{A_MUX, A_REPLICA, AN_AGENT, Line, SMALL, Story, Told};
use disk_model::{Fuse, MemDisk};
use journal::{Journal, Refused};
use node_core::{BOUND, Core, Node};
use outside_io::{MemLink, SentDatagram};
use std::alloc::{AllocError, Global};
use std::test::Fail;
use vip_config::Config;
use wire_core::{EntryBytes, Input, NoMemory};

pub(crate) fn small(alloc: Global) -> Result<Config, AllocError> {
    match Config::read(alloc, SMALL.as_bytes()) {
        Ok(config) => Ok(config),
        Err(_) => Err(AllocError),
    }
}

/// What a node has done before it was stopped: whether it opened, and how many lines it has taken.
#[derive(Clone, Copy)]
struct Done {
    opened: bool,
    lines: usize,
}

/// Takes lines until one fails; how many it has taken.
fn take_lines<C: Core>(node: &mut Node<C, Fuse>, link: &mut MemLink, lines: &[Line<'_>]) -> usize {
    for (taken, line) in lines.iter().enumerate() {
        if !node.is_live() {
            return taken;
        }
        if node.handle(&line.input, link).is_err() {
            return taken;
        }
    }
    lines.len()
}

/// Hears what it is asked, and whether it took all of it.
fn answer<C: Core>(node: &mut Node<C, Fuse>, link: &mut MemLink, asked: &[Input<'_>]) -> bool {
    for input in asked {
        if !node.is_live() {
            return false;
        }
        if node.handle(input, link).is_err() {
            return false;
        }
    }
    true
}

/// A first life over these disks, and the first of them afterwards.
fn lives<C: Core>(
    alloc: Global,
    cfg: &Config,
    story: &Story<'_>,
    a: Fuse,
    b: Fuse,
    link: &mut MemLink,
) -> (Done, Fuse)
    requires { C.may_open cfg.now story.now.who }
{
    match Node::<C, Fuse>::open(alloc, cfg, story.who, a, b) {
        Ok(mut node) => {
            let lines = take_lines(&mut node, link, story.lines);
            let (a, _) = node.crash();
            (
                Done {
                    opened: true,
                    lines,
                },
                a,
            )
        }
        Err(Refused { a, .. }) => (
            Done {
                opened: false,
                lines: 0,
            },
            a,
        ),
    }
}

/// A second life over these disks, which only answers; whether it has answered, and the first disk afterwards.
fn lives_again<C: Core>(
    alloc: Global,
    cfg: &Config,
    story: &Story<'_>,
    a: Fuse,
    b: Fuse,
    link: &mut MemLink,
) -> (bool, Fuse)
    requires { C.may_open cfg.now story.now.who }
{
    match Node::<C, Fuse>::open(alloc, cfg, story.who, a, b) {
        Ok(mut node) => {
            let answered = answer(&mut node, link, story.asked);
            let (a, _) = node.crash();
            (answered, a)
        }
        Err(Refused { a, .. }) => (false, a),
    }
}

// ---- what was said

/// The place behind the datagrams that these bytes to these sockets are, from a place on. `None` where others stand
/// there.
fn behind_told(told: &Told<'_>, sent: &[SentDatagram], from: usize) -> Option<usize> {
    let mut at = from;
    for to in told.to {
        let next = sent.get(at)?;
        if next.to != *to || next.bytes.as_slice() != told.bytes {
            return None;
        }
        at = at.checked_add(1)?;
    }
    Some(at)
}

fn behind_all(all: &[Told<'_>], sent: &[SentDatagram], from: usize) -> Option<usize> {
    let mut at = from;
    for told in all {
        at = behind_told(told, sent, at)?;
    }
    Some(at)
}

fn behind_lines(lines: &[Line<'_>], sent: &[SentDatagram]) -> Option<usize> {
    let mut at = 0;
    for line in lines {
        at = behind_all(line.told, sent, at)?;
    }
    Some(at)
}

// ---- what was kept

/// Whether a journal has these entries first, and then this one, if any.
fn begin_with(bodies: &[EntryBytes], entries: &[&[u8]], next: Option<&[u8]>) -> bool {
    let same = entries
        .iter()
        .zip(bodies)
        .all(|(entry, body)| body.as_slice() == *entry);
    let then = match next {
        None => true,
        Some(entry) => match bodies.get(entries.len()) {
            Some(body) => body.as_slice() == entry,
            None => false,
        },
    };
    same && then && entries.len() <= bodies.len()
}

/// How many entries a disk has, which are the first of these; `None` where it isn't such a journal.
fn count_on(alloc: Global, disk: MemDisk, entries: &[&[u8]]) -> Result<Option<usize>, NoMemory> {
    let second = MemDisk::new(alloc)?;
    match Journal::open(alloc, disk, second, BOUND) {
        Ok((_, bodies)) => Ok(count_of(bodies.as_slice(), entries)),
        Err(Refused { .. }) => Ok(None),
    }
}

fn count_of(bodies: &[EntryBytes], entries: &[&[u8]]) -> Option<usize> {
    let count = bodies.len();
    let front = entries.get(..count)?;
    if begin_with(bodies, front, None) {
        Some(count)
    } else {
        None
    }
}

/// Whether a disk has these entries first, and then this one.
fn has(alloc: Global, disk: MemDisk, entries: &[&[u8]], next: &[u8]) -> Result<bool, NoMemory> {
    let second = MemDisk::new(alloc)?;
    match Journal::open(alloc, disk, second, BOUND) {
        Ok((_, bodies)) => Ok(begin_with(bodies.as_slice(), entries, Some(next))),
        Err(Refused { .. }) => Ok(false),
    }
}

/// How many entries a node has said to be kept: its Boot, and those of the lines that it has taken.
fn kept(lines: &[Line<'_>], done: Done) -> usize {
    if !done.opened {
        return 0;
    }
    let taken = lines.iter().take(done.lines);
    taken.filter(|line| line.writes).count().saturating_add(1)
}

// ---- stops

/// A first life that was stopped: what was done, whether exactly that was said, and what a crash left of the disk.
#[derive(Drop)]
struct Cut {
    done: Done,
    said: bool,
    disk: MemDisk,
}

/// A first life over a disk that passes so many calls, and a crash that leaves as much of what was pending as is in the
/// pick.
fn cut_life<C: Core>(
    alloc: Global,
    cfg: &Config,
    story: &Story<'_>,
    calls: u64,
    pick: &[u8],
) -> Result<Cut, NoMemory>
    requires { C.may_open cfg.now story.now.who }
{
    let a = Fuse::new(MemDisk::new(alloc)?, calls);
    let b = Fuse::new(MemDisk::new(alloc)?, 0);
    let mut link = MemLink::new(alloc, Vec::new(alloc), Vec::new(alloc));
    let (done, a) = lives::<C>(alloc, cfg, story, a, b, &mut link);
    let taken = story.lines.get(..done.lines).unwrap_or(&[]);
    let said = behind_lines(taken, link.sent()) == Some(link.sent().len());
    let disk = a.disk().crash(pick);
    Ok(Cut { done, said, disk })
}

/// A second life over what was left: it has so many entries, and answers as a node with these does; and they stay, with
/// its Boot behind them.
fn goes_on<C: Core>(
    alloc: Global,
    cfg: &Config,
    story: &Story<'_>,
    disk: MemDisk,
    count: usize,
) -> Result<bool, NoMemory>
    requires { C.may_open cfg.now story.now.who }
{
    let a = Fuse::new(disk, u64::MAX);
    let b = Fuse::new(MemDisk::new(alloc)?, 0);
    let mut link = MemLink::new(alloc, Vec::new(alloc), Vec::new(alloc));
    let (answered, a) = lives_again::<C>(alloc, cfg, story, a, b, &mut link);
    let wanted = story.answers.get(count).copied().unwrap_or(&[]);
    let said = behind_all(wanted, link.sent(), 0) == Some(link.sent().len());
    let front = story.entries.get(..count).unwrap_or(&[]);
    let boot = if count == 0 {
        first(story.entries)
    } else {
        story.boot_2
    };
    let stays = has(alloc, a.disk(), front, boot)?;
    Ok(answered && said && stays)
}

fn first<'a>(entries: &'a [&'a [u8]]) -> &'a [u8] {
    entries.first().copied().unwrap_or(&[])
}

/// Whether a stop after so many calls is sound: the node has said what the lines say that it has taken, a crash leaves
/// their entries, with the next one or without, and the node goes on from there. And whether it has taken all lines.
fn stop<C: Core>(
    alloc: Global,
    cfg: &Config,
    story: &Story<'_>,
    calls: u64,
    pick: &[u8],
) -> Result<(bool, bool), NoMemory>
    requires { C.may_open cfg.now story.now.who }
{
    let Cut { done, said, disk } = cut_life::<C>(alloc, cfg, story, calls, pick)?;
    let kept = kept(story.lines, done);
    let copy = disk.copy(alloc)?;
    let Some(count) = count_on(alloc, copy, story.entries)? else {
        return Ok((false, false));
    };
    let next = count == kept || count == kept.saturating_add(1);
    let goes_on = goes_on::<C>(alloc, cfg, story, disk, count)?;
    Ok((said && next && goes_on, done.lines == story.lines.len()))
}

/// The most calls of its disk after which a node of these stories is stopped.
const CALLS: u64 = 32;

/// The first stop that isn't sound, and whether the last one was a whole life.
fn stops_of<C: Core>(
    alloc: Global,
    cfg: &Config,
    story: &Story<'_>,
    pick: &[u8],
) -> Result<(Option<u64>, bool), NoMemory>
    requires { C.may_open cfg.now story.now.who }
{
    let mut whole = false;
    for calls in 0..CALLS {
        let (sound, all) = stop::<C>(alloc, cfg, story, calls, pick)?;
        if !sound {
            return Ok((Some(calls), whole));
        }
        whole = all;
    }
    Ok((None, whole))
}

fn stops(alloc: Global, story: &Story<'_>, pick: &[u8]) -> Result<(Option<u64>, bool), NoMemory> {
    let cfg = small(alloc)?;
    if cfg.socket(&story.who).is_none() {
        return Err(AllocError);
    }
    stops_of::<Role>(alloc, &cfg, story, pick)
}

/// The file of a journal with these entries, open gates before them, and a closed one behind.
fn file(alloc: Global, entries: &[&[u8]]) -> Result<Vec<u8>, NoMemory> {
    let mut file = Vec::new(alloc);
    for entry in entries {
        file.extend_from_slice(&[1, 0, 0, 0])?;
        file.push(u8::try_from(entry.len()).unwrap_or(0))?;
        file.extend_from_slice(entry)?;
    }
    file.push(0)?;
    Ok(file)
}

/// The stops of a crash that keeps all that was pending.
fn stops_keeping(alloc: Global, story: &Story<'_>) -> Result<(Option<u64>, bool), NoMemory> {
    let file = file(alloc, story.entries)?;
    stops(alloc, story, &file)
}

/// Bytes that no node writes, with open and closed gates among them.
const OTHER: &[u8] =
    b"\x01\x00\x03\xc8\x07\x01\x00\x00\x00\x09\x05\x00\x01\x01\x00\xff\x00\x00\x01\x01";

#[test]
fn a_replica_loses_no_promise_and_no_vote(rt: HostRuntime) -> Result<(), Fail> {
    assert_eq!(rt; stops(rt.alloc(), &A_REPLICA, &[])?, (None, true));
    assert_eq!(rt; stops(rt.alloc(), &A_REPLICA, OTHER)?, (None, true));
    assert_eq!(rt; stops_keeping(rt.alloc(), &A_REPLICA)?, (None, true));
    Ok(())
}

#[test]
fn a_mux_loses_no_epoch(rt: HostRuntime) -> Result<(), Fail> {
    assert_eq!(rt; stops(rt.alloc(), &A_MUX, &[])?, (None, true));
    assert_eq!(rt; stops(rt.alloc(), &A_MUX, OTHER)?, (None, true));
    assert_eq!(rt; stops_keeping(rt.alloc(), &A_MUX)?, (None, true));
    Ok(())
}

#[test]
fn an_agent_loses_no_boot(rt: HostRuntime) -> Result<(), Fail> {
    assert_eq!(rt; stops(rt.alloc(), &AN_AGENT, &[])?, (None, true));
    assert_eq!(rt; stops(rt.alloc(), &AN_AGENT, OTHER)?, (None, true));
    assert_eq!(rt; stops_keeping(rt.alloc(), &AN_AGENT)?, (None, true));
    Ok(())
}
