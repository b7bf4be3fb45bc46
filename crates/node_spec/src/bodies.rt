// What a journal's bodies tell of a node's boot, and that a datagram is bytes.
ghost use Rattle.std.specs.Prelude.{◌≡◌, fold};
ghost use Rattle.node_spec.specs.Arriving.{IsInBytes};
ghost use Rattle.node_spec.specs.Bodies.{entries_of, entry_in};
ghost use Rattle.node_spec.specs.Boots.{boot_after, boot_of};
ghost use Rattle.node_spec.specs.Steps.{input_of};
ghost use Rattle.wire_core.specs.Entries.{read_entry};
ghost use Rattle.wire_core.specs.Numbers.{AreBytes};

use wire_core::{Entry, EntryBytes, Input};

// The greater of a boot and of the one that the body tells, if it tells one.
fn boot_after(boot: u64, body: &[u8]) -> u64
    ensures { result ≡ fold boot_after boot (entry_in (read_entry body.now)) }
{
    match Entry::read(body) {
        Ok(Entry::Boot { boot: later, .. }) => boot.max(later),
        _ => boot,
    }
}

/// The greatest boot of the entries that the bodies spell, 0 where there is none.
#[tactic(auto, unfolding(crate::specs::Boots::boot_of, crate::specs::Bodies::entries_of))]
pub fn greatest_boot(bodies: &[EntryBytes]) -> u64
    ensures { result ≡ boot_of (entries_of bodies.now) }
{
    let mut boot = 0;
    for body in bodies {
        boot = boot_after(boot, body.as_slice());
    }
    boot
}

// A slice of bytes is bytes.
fn are_bytes(bytes: &[u8])
    ensures { AreBytes bytes.now }
{
    let _ = bytes;
}

/// What arrives is bytes. It does nothing else than to say so.
pub fn is_in_bytes(input: &Input<'_>)
    ensures { IsInBytes (input_of input.now) }
{
    match *input {
        Input::Datagram { bytes, .. } => are_bytes(bytes),
        Input::Tick { .. } => {}
    }
}
