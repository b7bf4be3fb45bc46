ghost use Rattle.std.specs.Prelude.{◌≡◌, ◌<◌, ◌≤◌, fold, length, true, IfOk, OnOk};
ghost use Rattle.manager_log.specs.Parts.{NumberedFrom};
ghost use Rattle.manager_spec.specs.Manager.{new_peers, opened_manager};
ghost use Rattle.node_spec.specs.Bodies.{entries_of, entry_in};
ghost use Rattle.paxos_spec.specs.Acceptor.{follow, state_of};
ghost use Rattle.paxos_spec.specs.Replica.{new_memory};
ghost use Rattle.wire_core.specs.Entries.{read_entry};

use crate::manager::Manager;
use manager_log::{LeaseLog, Pending, Queue};
use manager_spec::Peer;
use std::alloc::{AllocError, Global};
use std::collections::BTreeMap;
use vip_config::Config;
use wire_core::{BodyList, Entry, EntryBytes, LeaseRules, NoMemory, Socket};

/// Folds in a body of the journal. One that spells no entry is passed over.
fn recover_body(log: &mut LeaseLog, body: &EntryBytes) -> Result<(), NoMemory>
    requires { log.old.sound ≡ true }
    ensures { OnOk result (log.new ≡ record log.old {
      replica = record {
        acceptor = fold follow log.old.replica.acceptor (entry_in (read_entry body.now));
        memory = log.old.replica.memory;
      };
    }) }
{
    match Entry::read(body.as_slice()) {
        Ok(entry) => log.recover(&entry),
        Err(_) => Ok(()),
    }
}

/// Folds in the bodies of a journal.
#[tactic(auto, unfolding(node_spec::specs::Bodies::entries_of))]
fn recover_bodies(log: &mut LeaseLog, bodies: &[EntryBytes]) -> Result<(), NoMemory>
    requires { log.old.sound ≡ true }
    ensures { OnOk result (log.new ≡ record log.old {
      replica = record {
        acceptor = fold follow log.old.replica.acceptor (entries_of bodies.now);
        memory = log.old.replica.memory;
      };
    }) }
{
    for body in bodies {
        recover_body(log, body)?;
    }
    Ok(())
}

/// The log that these bodies leave.
#[tactic(auto, unfolding(paxos_spec::specs::Acceptor::state_of))]
fn recovered(alloc: Global, rules: LeaseRules, bodies: &[EntryBytes]) -> Result<LeaseLog, NoMemory>
    ensures { IfOk result (λ log. log ≡ record {
      rules = rules;
      replica = record { acceptor = state_of (entries_of bodies.now); memory = new_memory };
      sound = true;
    }) }
{
    let mut log = LeaseLog::new(alloc, rules)?;
    if let Err(fault) = recover_bodies(&mut log, bodies) {
        // by a call: the drops of its parts are then proved one by one, and not at this exit
        drop(log);
        return Err(fault);
    }
    Ok(log)
}

/// Each configured mux, of which nothing is known.
#[tactic(auto, using(manager_log::proofs::PeerLaws::peers_next, manager_log::proofs::PeerLaws::peers_numbered))]
fn unknown_peers(alloc: Global, sockets: &[Socket]) -> Result<Vec<Peer>, NoMemory>
    requires { length sockets.now ≤ 16 }
    ensures peers { IfOk result (λ peers. peers.items ≡ new_peers 0 sockets.now) }
    ensures numbered { IfOk result (λ peers. NumberedFrom 0 peers.items) }
    ensures few { IfOk result (λ peers. length peers.items ≤ 16) }
{
    let mut peers = Vec::new(alloc);
    for i in 0..sockets.len() {
        peers.push(Peer {
            mux: i as u16,
            boot: 0,
            heard_at: 0,
        })?;
    }
    Ok(peers)
}

impl Manager {
    /// Opens replica `index`, from 0 to 4, by the bodies of its journal: its promise, its vote and its log are what its
    /// entries say, and it follows. A body that spells no entry is passed over. Applies each value of the log once.
    #[tactic(auto, unfolding(manager_spec::specs::Manager::opened_manager))]
    pub fn recover(
        alloc: Global,
        cfg: &Config,
        index: u8,
        bodies: &BodyList,
    ) -> Result<Manager, NoMemory>
        requires { index < 5 }
        ensures { IfOk result (λ manager. manager ≡ record {
          config = cfg.now;
          lists = opened_manager cfg.now index (entries_of bodies.now);
          sound = true;
        }) }
    {
        cfg.keeps_rules();
        let muxes = unknown_peers(alloc, cfg.muxes())?;
        let rules = cfg.lease_rules(alloc)?;
        let log = recovered(alloc, rules, bodies.as_slice())?;
        let Ok(cfg) = cfg.copy(alloc) else {
            // by a call, as above
            drop(log);
            return Err(AllocError);
        };
        Ok(Manager {
            alloc,
            cfg,
            index,
            log,
            acks: BTreeMap::new(alloc),
            pending: Pending::new(alloc),
            queue: Queue::new(alloc),
            muxes,
            time: 0,
            heard: 0,
        })
    }
}
