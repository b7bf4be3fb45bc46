// A mux as it opens.
ghost use Rattle.std.specs.Prelude.{◌≡◌, fold, IfOk};
ghost use Rattle.mux_spec.specs.Mux.{opened_mux};
ghost use Rattle.node_spec.specs.Bodies.{entries_of, entry_in};
ghost use Rattle.node_spec.specs.Boots.{epoch_after, epoch_of};
ghost use Rattle.wire_core.specs.Entries.{read_entry};

use crate::flows::TimedFlows;
use crate::mux::Mux;
use crate::routes::Routes;
use mux_spec::Gate;
use node_spec::greatest_boot;
use std::alloc::Global;
use vip_config::Config;
use wire_core::{BodyList, Entry, EntryBytes, NoMemory};

/// The greater of an epoch and of the one that the body tells, if it tells one.
fn epoch_after(epoch: u64, body: &[u8]) -> u64
    ensures { result ≡ fold epoch_after epoch (entry_in (read_entry body.now)) }
{
    match Entry::read(body) {
        Ok(Entry::Epoch { epoch: later }) => epoch.max(later),
        _ => epoch,
    }
}

/// The greatest epoch of the entries, at first 0.
#[tactic(auto, unfolding(node_spec::specs::Boots::epoch_of, node_spec::specs::Bodies::entries_of))]
fn greatest_epoch(bodies: &[EntryBytes]) -> u64
    ensures { result ≡ epoch_of (entries_of bodies.now) }
{
    let mut epoch = 0;
    for body in bodies {
        epoch = epoch_after(epoch, body.as_slice());
    }
    epoch
}

impl Mux {
    /// A mux as it opens under a configuration: its boot and its epoch are the greatest of the entries that the bodies
    /// spell, and it has no row and no flow. It takes a copy of the configuration. The cost is linear in the bodies and
    /// in the configuration, and for each VIP in 8,192 starts times its endpoints.
    #[tactic(auto, unfolding(mux_spec::specs::Mux::opened_mux))]
    pub fn recover(
        alloc: Global,
        cfg: &Config,
        index: u16,
        bodies: &BodyList,
    ) -> Result<Mux, NoMemory>
        ensures { IfOk result (λ m. m
            ≡ record { config = cfg.now; lists = opened_mux cfg.now index (entries_of bodies.now) }) }
    {
        let gate = Gate {
            boot: greatest_boot(bodies.as_slice()),
            epoch: greatest_epoch(bodies.as_slice()),
        };
        Ok(Mux {
            routes: Routes::new(alloc, cfg, index)?,
            gate,
            flows: TimedFlows::new(alloc)?,
        })
    }
}
