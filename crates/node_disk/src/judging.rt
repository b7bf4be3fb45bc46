ghost use Rattle.std.specs.Prelude.{◌≡◌, Ok, Some, None, fold, option_map, true, IfOk, IfErr};
ghost use Rattle.journal.specs.Journal.{journal_length};
ghost use Rattle.node_spec.specs.Bodies.{entries_of, entry_in};
ghost use Rattle.node_spec.specs.Boots.{boot_after, boot_of};
ghost use Rattle.node_disk.specs.Judging.{IsJudged, foreign_from, is_foreign, is_own, judge, strange_from};

use crate::fault::NodeFault;
use crate::names::{index_of, role_of};
use std::alloc::Global;
use wire_core::{Entry, EntryBytes, NoMemory, NodeId, ValueFault};

// What a walk over a journal found that has no entry of another role: the first entry that isn't this node's, and the
// greatest boot.
struct Seen<'a> {
    strange: Option<&'a EntryBytes>,
    boot: u64,
}

// Whether a body that was read so is an entry of another role.
fn is_foreign(who: NodeId, read: &Result<Entry<'_>, ValueFault>) -> bool
    ensures { result ≡ is_foreign who read.now }
{
    match *read {
        Ok(Entry::Boot { .. }) => false,
        Ok(Entry::Promise { .. }) => role_of(who) != 1,
        Ok(Entry::Vote { .. }) => role_of(who) != 1,
        Ok(Entry::Learn { .. }) => role_of(who) != 1,
        Ok(Entry::Epoch { .. }) => role_of(who) != 2,
        Err(_) => false,
    }
}

// Whether a body that was read so may stand there in this node's journal.
fn is_own(who: NodeId, first: bool, read: &Result<Entry<'_>, ValueFault>) -> bool
    ensures { result ≡ is_own who first read.now }
{
    match *read {
        Ok(
            Entry::Boot {
                version,
                role,
                index,
                ..
            },
        ) => version == 1 && role == role_of(who) && index == index_of(who),
        Ok(Entry::Promise { .. }) => !first,
        Ok(Entry::Vote { .. }) => !first,
        Ok(Entry::Learn { .. }) => !first,
        Ok(Entry::Epoch { .. }) => !first,
        Err(_) => !first,
    }
}

// The greater of a boot and of the one that a body tells that was read so, if it tells one.
fn boot_after(boot: u64, read: &Result<Entry<'_>, ValueFault>) -> u64
    ensures { result ≡ fold boot_after boot (entry_in read.now) }
{
    match *read {
        Ok(Entry::Boot { boot: later, .. }) => boot.max(later),
        _ => boot,
    }
}

// The walk over the bodies, or the offset of the gate before the first entry of another role. `end` is the journal's
// length.
#[tactic(auto, unfolding(node_spec::specs::Boots::boot_of, node_spec::specs::Bodies::entries_of))]
fn look<'a>(who: NodeId, bodies: &'a [EntryBytes], end: u32) -> Result<Seen<'a>, u64>
    requires { journal_length bodies.now ≡ end }
    ensures own { IfOk result (λ seen. foreign_from who 0 bodies.now ≡ None) }
    ensures strange { IfOk result (λ seen. option_map (λ b. b.now) seen.strange ≡ strange_from who true bodies.now) }
    ensures boot { IfOk result (λ seen. seen.boot ≡ boot_of (entries_of bodies.now)) }
    ensures foreign { IfErr result (λ at. foreign_from who 0 bodies.now ≡ Some at) }
{
    let _ = end;
    let mut at = 0;
    let mut first = true;
    let mut strange = None;
    let mut boot = 0;
    for body in bodies {
        let read = Entry::read(body.as_slice());
        if is_foreign(who, &read) {
            return Err(at);
        }
        if strange.is_none() && !is_own(who, first, &read) {
            strange = Some(body);
        }
        boot = boot_after(boot, &read);
        first = false;
        at += body.len() as u64 + 5;
    }
    Ok(Seen { strange, boot })
}

fn copied(alloc: Global, body: &EntryBytes) -> Result<EntryBytes, NoMemory>
    ensures { IfOk result (λ copy. copy ≡ body.now) }
{
    Ok(EntryBytes::from_vec(body.as_slice().to_vec(alloc)?))
}

/// The boot of an opening of the journal with these bodies and this length in bytes, or why it isn't this node's. Reads
/// each body once.
#[tactic(auto, unfolding(crate::specs::Judging::judge))]
pub fn judge(alloc: Global, who: NodeId, bodies: &[EntryBytes], end: u32) -> Result<u64, NodeFault>
    requires { journal_length bodies.now ≡ end }
    ensures ok { IfOk result (λ boot. judge who bodies.now ≡ Ok boot) }
    ensures err { IfErr result (λ e. IsJudged e (judge who bodies.now)) }
{
    let Seen { strange, boot } = match look(who, bodies, end) {
        Ok(seen) => seen,
        Err(offset) => {
            return Err(NodeFault::Damaged {
                second: false,
                offset,
            });
        }
    };
    if let Some(entry) = strange {
        return match copied(alloc, entry) {
            Ok(entry) => Err(NodeFault::WrongDisk { entry }),
            Err(_) => Err(NodeFault::NoMemory),
        };
    }
    if boot == u64::MAX {
        return Err(NodeFault::Spent { boot });
    }
    Ok(boot + 1)
}
