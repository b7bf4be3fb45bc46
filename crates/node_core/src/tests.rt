// A node over a stand-in core: what its file holds byte for byte, what it hands over, and a stop at each disk call.
ghost use Rattle.std.specs.Prelude.{◌≡◌, ◌+◌, ◌<◌, ◌^◌, [], ◌∷◌, true, Some, IfOk, IfSome, OnOk};
ghost use Rattle.node_core.specs.Handling.{is_ready};
ghost use Rattle.node_spec.specs.Boots.{boot_of};
ghost use Rattle.node_spec.specs.Bodies.{IsSpelled, entries_of};
ghost use Rattle.node_spec.specs.Steps.{input_of};
ghost use Rattle.wire_core.specs.Entries.{entry_bytes};
ghost use Rattle.wire_core.specs.declared.entry.Entry.TheVariants as entry;

use crate::{Core, Node};
use disk_model::{Fuse, MemDisk};
use journal::{Journal, Refused};
use node_spec::greatest_boot;
use outside_io::{Disk, MemLink};
use std::alloc::{AllocError, Global};
use std::test::Fail;
use vip_config::Config;
use wire_core::{
    BodyList, Entry, EntryBytes, Input, Items, NoMemory, NodeId, Outgoing, Socket, Step,
};

/// One mux, one agent with one machine, and one VIP.
const SMALL: &str =
    r#"{"version":1,"router":"10.7.0.1:7000","replicas":["10.0.0.1:7000","10.0.0.2:7000",
"10.0.0.3:7000","10.0.0.4:7000","10.0.0.5:7000"],"muxes":["10.9.0.1:7000"],"agents":[{"socket":"10.8.0.1:7000",
"machines":[{"address":"10.1.0.4","attach":"10.1.0.4:9000"}]}],"vips":[{"address":"192.0.2.10","low":1024,
"high":65535,"snat":["10.1.0.4"],"endpoints":[]}],"limit":16,"timers":{"lead_silent":1000,"mux_silent":5000,
"ask_retry":500,"flow_idle":60000,"range_idle":30000}}"#;

fn small(alloc: Global) -> Result<Config, AllocError> {
    match Config::read(alloc, SMALL.as_bytes()) {
        Ok(config) => Ok(config),
        Err(_) => Err(AllocError),
    }
}

fn epoch_bytes(alloc: Global, epoch: u64) -> Result<EntryBytes, NoMemory>
    ensures bytes { IfOk result (λ bytes. bytes ≡ entry_bytes (entry.Epoch epoch)) }
    ensures spelled { IfOk result IsSpelled }
{
    let mut bytes = Vec::new(alloc);
    Entry::Epoch { epoch }.write(&mut bytes)?;
    Ok(EntryBytes::from_vec(bytes))
}

// A core that counts from its boot. Whatever comes, it writes the next number as an epoch, and sends an empty datagram
// to the router.
#[derive(Drop)]
struct Counter {
    number: u64,
    router: Socket,
}

impl Core for Counter {
    ghost may_open = { λ _ _. Unit {0} };

    ghost opened = { λ cfg _ es. record { number = boot_of es; router = cfg.router } };

    ghost step = { λ c _. (
      record { number = c.number + 1; router = c.router },
      record {
        entry = Some (entry_bytes (entry.Epoch (c.number + 1)));
        acts = [];
        notes = [];
        sends = record { to = c.router; bytes = [] } ∷ [];
      },
    ) };

    ghost written = { λ c _. Some (entry.Epoch (c.number + 1)) };

    fn recover(
        _alloc: Global,
        cfg: &Config,
        _who: NodeId,
        bodies: &BodyList,
    ) -> Result<Counter, NoMemory> {
        Ok(Counter {
            number: greatest_boot(bodies.as_slice()),
            router: cfg.router(),
        })
    }

    fn handle(&mut self, alloc: Global, _input: &Input<'_>) -> Result<Step, NoMemory> {
        let Some(number) = self.number.checked_add(1) else {
            return Err(AllocError);
        };
        let mut step = Step::new(alloc);
        step.write(Some(epoch_bytes(alloc, number)?));
        step.send(Outgoing {
            to: self.router,
            bytes: Items::new(alloc),
        })?;
        self.number = number;
        Ok(step)
    }
}

// The file of mux 0 after its first opening and one step: boot 1, and epoch 2.
const STEPPED: &[u8] = b"\x01\x00\x00\x00\x0d\x01\x01\x02\x00\x00\x00\x00\x00\x00\x00\x00\x00\x01\
\x01\x00\x00\x00\x09\x05\x00\x00\x00\x00\x00\x00\x00\x02\x00";

fn holds(disk: MemDisk, want: &[u8]) -> bool {
    let mut disk = disk;
    let mut buf = [0u8; 64];
    match disk.read(0, &mut buf) {
        Ok(count) => &buf[..count.min(64)] == want,
        Err(_) => false,
    }
}

// One tick: how many datagrams were sent and lost, or None.
fn ticks<D: Disk>(node: &mut Node<Counter, D>, link: &mut MemLink) -> Option<(u64, u64)>
    requires { is_ready node.old ≡ true }
{
    match node.handle(&Input::Tick { now: 1000 }, link) {
        Ok(report) => Some((report.sent, report.failed)),
        Err(_) => None,
    }
}

// What a life of a node on this disk was: whether it opened, what its tick answered, and the disk.
fn lives<D: Disk + Drop>(
    alloc: Global,
    cfg: &Config,
    a: D,
    b: D,
    link: &mut MemLink,
) -> (bool, Option<(u64, u64)>, D) {
    match Node::<Counter, D>::open(alloc, cfg, NodeId::Mux(0), a, b) {
        Ok(mut node) => {
            let told = ticks(&mut node, link);
            let (a, _) = node.crash();
            (true, told, a)
        }
        Err(Refused { a, .. }) => (false, None, a),
    }
}

// A life on empty disks.
fn first_life(alloc: Global, cfg: &Config) -> Result<(bool, Option<(u64, u64)>, bool), NoMemory> {
    let a = MemDisk::new(alloc)?;
    let b = MemDisk::new(alloc)?;
    let mut link = MemLink::new(alloc, Vec::new(alloc), Vec::new(alloc));
    let (opened, told, a) = lives(alloc, cfg, a, b, &mut link);
    Ok((opened, told, holds(a, STEPPED)))
}

#[test]
fn an_entry_is_in_the_file_before_its_datagram_is_handed_over(rt: HostRuntime) -> Result<(), Fail> {
    let cfg = small(rt.alloc())?;
    let life = first_life(rt.alloc(), &cfg)?;
    drop(cfg);
    assert_eq!(rt; life, (true, Some((1, 0)), true));
    Ok(())
}

// How many entries a disk has: none, the Boot, the epoch too; None where it isn't a journal.
fn entries_on(alloc: Global, disk: MemDisk) -> Result<Option<usize>, NoMemory> {
    let second = MemDisk::new(alloc)?;
    match Journal::open(alloc, disk, second, 4_096) {
        Ok((_, bodies)) => Ok(Some(bodies.len())),
        Err(Refused { .. }) => Ok(None),
    }
}

// A life on a disk that passes k calls, and what a crash that keeps this much of what was pending leaves of it: whether
// it opened, how many datagrams were handed over, and the entries.
fn cut_life(
    alloc: Global,
    cfg: &Config,
    k: u64,
    pick: &[u8],
) -> Result<(bool, usize, Option<usize>), NoMemory> {
    let a = Fuse::new(MemDisk::new(alloc)?, k);
    let b = Fuse::new(MemDisk::new(alloc)?, 0);
    let mut link = MemLink::new(alloc, Vec::new(alloc), Vec::new(alloc));
    let (opened, _, a) = lives(alloc, cfg, a, b, &mut link);
    let entries = entries_on(alloc, a.disk().crash(pick))?;
    Ok((opened, link.sent().len(), entries))
}

// Of each stop: what a crash leaves is a journal; what was handed over is in it; a node that didn't open has handed
// nothing over, and one that opened has its Boot. And the last of them is a whole life.
fn stops(alloc: Global, cfg: &Config, pick: &[u8]) -> Result<(bool, bool), NoMemory> {
    let mut sound = true;
    let mut whole = false;
    for k in 0..24u64 {
        let (opened, sent, entries) = cut_life(alloc, cfg, k, pick)?;
        sound = sound
            && match entries {
                None => false,
                Some(count) => {
                    count <= 2
                        && (sent == 0 || count == 2)
                        && (!opened || count >= 1)
                        && (opened || sent == 0)
                }
            };
        whole = opened && sent == 1 && entries == Some(2);
    }
    Ok((sound, whole))
}

#[test]
fn a_stop_at_each_disk_call_loses_nothing_that_was_said(rt: HostRuntime) -> Result<(), Fail> {
    let cfg = small(rt.alloc())?;
    let none = stops(rt.alloc(), &cfg, &[])?;
    let some = stops(rt.alloc(), &cfg, &[1, 0, 3, 200, 7])?;
    drop(cfg);
    assert_eq!(rt; none, (true, true));
    assert_eq!(rt; some, (true, true));
    Ok(())
}
