// Serving over a stand-in core, a link and a clock in memory: which turns tick, what is counted, and how a fault ends
// it.
ghost use Rattle.std.specs.Prelude.{◌≡◌, [], ◌∷◌, None, true, IfOk};
ghost use Rattle.node_core.specs.Handling.{is_ready};
ghost use Rattle.wire_core.specs.declared.cause.DropCause.TheVariants.{BadFrame};
ghost use Rattle.wire_core.specs.declared.note.Note.TheVariants.{Dropped};

use crate::{ServeFault, Served, serve};
use disk_model::MemDisk;
use journal::Refused;
use node_core::{Core, Node};
use outside_io::{MemAnswer, MemClock, MemLink};
use std::alloc::{AllocError, Global};
use std::test::Fail;
use vip_config::Config;
use wire_core::{
    BodyList, DropCause, Input, Ip4, Items, NoMemory, NodeId, Note, Outgoing, Socket, Step,
};

/// One mux, one agent with one machine, and one VIP.
const SMALL: &str =
    r#"{"version":1,"router":"10.7.0.1:7000","replicas":["10.0.0.1:7000","10.0.0.2:7000",
"10.0.0.3:7000","10.0.0.4:7000","10.0.0.5:7000"],"muxes":["10.9.0.1:7000"],"agents":[{"socket":"10.8.0.1:7000",
"machines":[{"address":"10.1.0.4","attach":"10.1.0.4:9000"}]}],"vips":[{"address":"192.0.2.10","low":1024,
"high":65535,"snat":["10.1.0.4"],"endpoints":[]}],"limit":16,"timers":{"lead_silent":1000,"mux_silent":5000,
"ask_retry":500,"flow_idle":60000,"range_idle":30000}}"#;

pub fn small(alloc: Global) -> Result<Config, AllocError> {
    match Config::read(alloc, SMALL.as_bytes()) {
        Ok(config) => Ok(config),
        Err(_) => Err(AllocError),
    }
}

// A core that drops whatever comes, and sends an empty datagram to the router each time.
#[derive(Drop)]
pub struct Dropper {
    router: Socket,
}

impl Core for Dropper {
    ghost may_open = { λ _ _. Unit {0} };

    ghost opened = { λ cfg _ _. record { router = cfg.router } };

    ghost step = { λ c _. (
      c,
      record {
        entry = None;
        acts = [];
        notes = Dropped BadFrame ∷ [];
        sends = record { to = c.router; bytes = [] } ∷ [];
      },
    ) };

    ghost written = { λ _ _. None };

    fn recover(
        _alloc: Global,
        cfg: &Config,
        _who: NodeId,
        _bodies: &BodyList,
    ) -> Result<Dropper, NoMemory> {
        Ok(Dropper {
            router: cfg.router(),
        })
    }

    fn handle(&mut self, alloc: Global, _input: &Input<'_>) -> Result<Step, NoMemory> {
        let mut step = Step::new(alloc);
        step.note(Note::Dropped {
            cause: DropCause::BadFrame,
        })?;
        step.send(Outgoing {
            to: self.router,
            bytes: Items::new(alloc),
        })?;
        Ok(step)
    }
}

// How serving ended: what was served, or whether the link or the node failed.
#[derive(Clone, Copy, Debug, PartialEq, Eq)]
enum Ended {
    Whole(Served),
    LinkFailed,
    NodeFailed,
    NotOpened,
}

fn in_words(served: Result<Served, ServeFault>) -> Ended {
    match served {
        Ok(served) => Ended::Whole(served),
        Err(ServeFault::Link) => Ended::LinkFailed,
        Err(ServeFault::Node(_)) => Ended::NodeFailed,
    }
}

// Serves so many turns over this link and clock.
fn served(
    alloc: Global,
    cfg: &Config,
    link: &mut MemLink,
    clock: &mut MemClock,
    turns: u64,
) -> Result<Ended, NoMemory> {
    let a = MemDisk::new(alloc)?;
    let b = MemDisk::new(alloc)?;
    match Node::<Dropper, MemDisk>::open(alloc, cfg, NodeId::Mux(0), a, b) {
        Ok(mut node) => Ok(in_words(serve(alloc, &mut node, link, clock, turns))),
        Err(Refused { .. }) => Ok(Ended::NotOpened),
    }
}

// The first turn ticks; then a datagram comes; 100 milliseconds after the tick the next one; then nothing comes, and
// then a datagram again.
fn five_turns(alloc: Global, cfg: &Config) -> Result<Ended, NoMemory> {
    let from = Socket {
        ip: Ip4(0x0a00_0001),
        port: 7000,
    };
    let mut answers = Vec::new(alloc);
    answers.push(MemAnswer::Came {
        from,
        bytes: b"\x07".to_vec(alloc)?,
    })?;
    answers.push(MemAnswer::Idle)?;
    answers.push(MemAnswer::Came {
        from,
        bytes: Vec::new(alloc),
    })?;
    let times = [0, 50, 100, 120, 110].to_vec(alloc)?;
    let mut link = MemLink::new(alloc, answers, [1].to_vec(alloc)?);
    let mut clock = MemClock::new(times);
    served(alloc, cfg, &mut link, &mut clock, 5)
}

// A link whose first `next` fails.
fn failing_link(alloc: Global, cfg: &Config) -> Result<Ended, NoMemory> {
    let mut answers = Vec::new(alloc);
    answers.push(MemAnswer::Fails)?;
    let mut link = MemLink::new(alloc, answers, Vec::new(alloc));
    let mut clock = MemClock::new(Vec::new(alloc));
    served(alloc, cfg, &mut link, &mut clock, 2)
}

#[test]
fn turns_tick_and_take_what_comes(rt: HostRuntime) -> Result<(), Fail> {
    let cfg = small(rt.alloc())?;
    let ended = five_turns(rt.alloc(), &cfg)?;
    drop(cfg);
    // Of the four datagrams that were handed over the link lost the second one.
    let served = Served {
        turns: 5,
        sent: 3,
        dropped: 4,
        failed: 1,
    };
    assert_eq!(rt; ended, Ended::Whole(served));
    Ok(())
}

#[test]
fn a_link_that_fails_ends_it(rt: HostRuntime) -> Result<(), Fail> {
    let cfg = small(rt.alloc())?;
    let ended = failing_link(rt.alloc(), &cfg)?;
    drop(cfg);
    assert_eq!(rt; ended, Ended::LinkFailed);
    Ok(())
}
