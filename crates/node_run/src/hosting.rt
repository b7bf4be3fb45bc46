ghost use Rattle.std.specs.Prelude.{◌≡◌, ◌≤◌, Some, true, IsSome};
ghost use Rattle.outside_io.specs.Faults.{Rose};
ghost use Rattle.vip_config.specs.Queries.{socket_of};
ghost use Rattle.node_core.specs.Handling.{is_ready};
ghost use Rattle.node_run.specs.Hosting.{OnDisks, OnLink, Runs};
ghost use Rattle.node_run.specs.Serving.{Since, state_of};
ghost use Rattle.node_run.specs.declared.ending.NodeEnding.TheVariants.{DiskFault, LinkFault};

use crate::ending::{NodeEnding, of_fault, of_served};
use crate::names::names;
use crate::serving::serve;
use journal::Refused;
use node_core::{Core, Node};
use outside_io::{Clock, Failed, Host};
use std::alloc::Global;
use vip_config::Config;
use wire_core::{NodeId, Socket};

// Serves an open node on a link at its socket, and gives the link back.
fn on_link<C: Core, H: Host, K: Clock>(
    alloc: Global,
    host: &mut H,
    clock: &mut K,
    at: &Socket,
    node: &mut Node<C, H::D>,
    turns: u64,
) -> NodeEnding
    requires live { is_ready node.old ≡ true }
    requires bound { node.old.journal.bound ≡ 1073741824 }
    ensures calls { Since (H.calls host.old) (H.calls host.new) (λ calls. OnLink C.step 1073741824 turns at.now
        (K.times clock.old) (state_of H.D.history node.old) (K.times clock.new) (state_of H.D.history node.new)
        calls result) }
    ensures link { result ≡ LinkFault → Rose (H.link_faults host.old) (H.link_faults host.new) }
    ensures disk { result ≡ DiskFault → Rose (H.D.faults node.old.journal.first) (H.D.faults node.new.journal.first) }
    ensures disk_faults { H.disk_faults host.new ≡ H.disk_faults host.old }
    ensures second { node.new.journal.second ≡ node.old.journal.second }
{
    match host.bind(at) {
        Err(Failed) => NodeEnding::LinkFault,
        Ok(mut link) => {
            let served = serve(alloc, node, &mut link, clock, turns);
            host.back_link(link);
            of_served(&served)
        }
    }
}

// Opens the node over its disks, and serves it. Answers the disks as they are then.
fn on_disks<C: Core, H: Host, K: Clock>(
    alloc: Global,
    host: &mut H,
    clock: &mut K,
    cfg: &Config,
    who: NodeId,
    turns: u64,
    a: H::D,
    b: H::D,
) -> (NodeEnding, H::D, H::D)
    requires may { C.may_open cfg.now who }
    requires configured { IsSome (socket_of cfg.now who) }
    ensures calls { Since (H.calls host.old) (H.calls host.new) (λ calls. OnDisks C.step C.opened cfg.now who turns
        (K.times clock.old) (H.D.history a) (K.times clock.new) (H.D.history result.1) calls result.0) }
    ensures link { result.0 ≡ LinkFault → Rose (H.link_faults host.old) (H.link_faults host.new) }
    ensures disk { result.0 ≡ DiskFault → 1 ≤ H.D.faults result.1 }
    ensures disk_faults { H.disk_faults host.new ≡ H.disk_faults host.old }
    ensures second { result.2 ≡ b }
{
    let at = cfg.socket(&who).unwrap();
    match Node::<C, H::D>::open(alloc, cfg, who, a, b) {
        Err(Refused { fault, a, b }) => (of_fault(&fault), a, b),
        Ok(mut node) => {
            let ending = on_link(alloc, host, clock, &at, &mut node, turns);
            let (a, b) = node.crash();
            (ending, a, b)
        }
    }
}

/// Runs a configured node on its host for so many turns: asks for its two disks by their names, opens it over them,
/// asks for a link at its socket, serves it, and gives link and disks back, each that was handed out. How it ended is
/// told; the first fault that is met stands.
pub fn serve_on<C: Core, H: Host, K: Clock>(
    alloc: Global,
    host: &mut H,
    clock: &mut K,
    cfg: &Config,
    who: NodeId,
    turns: u64,
) -> NodeEnding
    requires may { C.may_open cfg.now who }
    requires configured { IsSome (socket_of cfg.now who) }
    ensures calls { Since (H.calls host.old) (H.calls host.new) (λ calls. Runs C.step C.opened cfg.now who turns
        (K.times clock.old) (K.times clock.new) calls result) }
    ensures link { result ≡ LinkFault → Rose (H.link_faults host.old) (H.link_faults host.new) }
    ensures disk { result ≡ DiskFault → Rose (H.disk_faults host.old) (H.disk_faults host.new) }
{
    let (first, second) = match names(alloc, who) {
        Ok(names) => names,
        Err(_) => return NodeEnding::NoMemory,
    };
    let a = match host.open_disk(&first) {
        Ok(a) => a,
        Err(Failed) => return NodeEnding::DiskFault,
    };
    let b = match host.open_disk(&second) {
        Ok(b) => b,
        Err(Failed) => {
            host.back_disk(a);
            return NodeEnding::DiskFault;
        }
    };
    let (ending, a, b) = on_disks::<C, H, K>(alloc, host, clock, cfg, who, turns, a, b);
    host.back_disk(a);
    host.back_disk(b);
    ending
}
