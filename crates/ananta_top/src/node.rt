//! The command `node`: a node of the configuration is served for so many turns, and told in one line.
ghost use Rattle.std.specs.Prelude.{◌≡◌, Err, IfOk, IfSome, IsSome, Ok, string_bytes};
ghost use Rattle.outside_io.specs.Faults.{Rose};
ghost use Rattle.vip_config.specs.Configs.{config_of};
ghost use Rattle.vip_config.specs.Queries.{socket_of};
ghost use Rattle.config_text.specs.Faults.{field};
ghost use Rattle.ananta_top.specs.Answers.{RefusedBy, bad_config, configured_node, node_id, node_path, of_node, of_site, serve};
ghost use Rattle.ananta_top.specs.Node.{IsTold, NodeRan, of_run, turns_line};
ghost use Rattle.ananta_top.specs.Run.{AfterReading, IfServed, IsRefusal, LeavesHost, Says};

use crate::check::write_count;
use crate::ending::Ending;
use crate::refusal::Refusal;
use crate::role::NodeRole;
use config_text::ConfigFault;
use node_roles::Role;
use node_run::{NodeEnding, Served, serve_on};
use outside_io::{Clock, Failed, Host, Sink};
use sink_text::write_all;
use std::alloc::{AllocError, Global};
use vip_config::Config;
use wire_core::NodeId;

/// The line of so many turns.
fn turns_line(alloc: Global, turns: u64, served: &Served) -> Result<String, AllocError>
    ensures { IfOk result (λ line. string_bytes line ≡ turns_line turns served.now) }
{
    let mut line = format!(in alloc; "turns {turns}")?;
    write_count(&mut line, "sent", served.sent)?;
    write_count(&mut line, "dropped", served.dropped)?;
    write_count(&mut line, "failed", served.failed)?;
    line.push_str("\n")?;
    Ok(line)
}

/// Tells what was served in so many turns.
fn tell<K: Sink>(alloc: Global, out: &mut K, turns: u64, served: &Served) -> Ending
    ensures told { IsTold (turns_line turns served.now) (K.written out.old) (K.written out.new) result }
    ensures write { result ≡ Ending.WriteFault → Rose (K.faults out.old) (K.faults out.new) }
    ensures kept { IsRefusal result → out.new ≡ out.old }
{
    match turns_line(alloc, turns, served) {
        Err(AllocError) => Ending::Refused(Refusal::NoMemory),
        Ok(line) => match write_all(out, line.as_bytes()) {
            Ok(()) => Ending::Done,
            Err(Failed) => Ending::WriteFault,
        },
    }
}

/// How the program ends where a node's run ended so.
fn of_run(node: NodeId, run: &NodeEnding) -> Ending
    ensures { result ≡ of_run node run.now }
{
    match *run {
        NodeEnding::Done(_) => Ending::Done,
        NodeEnding::DiskFault => Ending::DiskFault,
        NodeEnding::Damaged { second, offset } => Ending::Damaged {
            node,
            second,
            offset,
        },
        NodeEnding::WrongDisk => Ending::WrongDisk,
        NodeEnding::Spent => Ending::Spent,
        NodeEnding::Full => Ending::JournalFull,
        NodeEnding::LinkFault => Ending::LinkFault,
        NodeEnding::NoMemory => Ending::Refused(Refusal::NoMemory),
    }
}

/// Serves a configured node, and tells what was served.
#[tactic(auto, using(crate::proofs::Ran::told_says))]
fn serve<K: Sink, H: Host, C: Clock>(
    alloc: Global,
    config: &Config,
    who: NodeId,
    turns: u64,
    out: &mut K,
    host: &mut H,
    clock: &mut C,
) -> Ending
    requires configured { IsSome (socket_of config.now who) }
    ensures ran { NodeRan config.now who turns (C.times clock.old) (C.times clock.new) (H.calls host.old)
        (H.calls host.new) (K.written out.old) (K.written out.new) result }
    ensures says { Says (K.written out.old) (K.written out.new) (Ok (serve config.now who turns)) result }
    ensures link { result ≡ Ending.LinkFault → Rose (H.link_faults host.old) (H.link_faults host.new) }
    ensures disk { result ≡ Ending.DiskFault → Rose (H.disk_faults host.old) (H.disk_faults host.new) }
    ensures write { result ≡ Ending.WriteFault → Rose (K.faults out.old) (K.faults out.new) }
    ensures kept { IsRefusal result → out.new ≡ out.old }
    ensures causes { AfterReading result }
    ensures away { LeavesHost result → host.new ≡ host.old }
    ensures still { LeavesHost result → clock.new ≡ clock.old }
{
    let run = serve_on::<Role, H, C>(alloc, host, clock, config, who, turns);
    match &run {
        NodeEnding::Done(served) => tell(alloc, out, turns, served),
        _ => of_run(who, &run),
    }
}

/// The node of this role and number.
fn node_id(role: NodeRole, index: u64) -> Option<NodeId>
    ensures { result ≡ node_id role index }
{
    match role {
        NodeRole::Replica => match u8::try_from(index) {
            Ok(index) => Some(NodeId::Replica(index)),
            Err(_) => None,
        },
        NodeRole::Mux => match u16::try_from(index) {
            Ok(index) => Some(NodeId::Mux(index)),
            Err(_) => None,
        },
        NodeRole::Agent => match u16::try_from(index) {
            Ok(index) => Some(NodeId::Agent(index)),
            Err(_) => None,
        },
    }
}

/// The node of this role and number, where it is configured.
fn configured_node(config: &Config, role: NodeRole, index: u64) -> Option<NodeId>
    ensures node { result ≡ configured_node config.now role index }
    ensures configured { IfSome result (λ who. IsSome (socket_of config.now who)) }
{
    let who = node_id(role, index)?;
    match config.socket(&who) {
        Some(_) => Some(who),
        None => None,
    }
}

fn node_path(alloc: Global, role: NodeRole, index: u64) -> Result<String, AllocError>
    ensures { IfOk result (λ path. string_bytes path ≡ node_path role index) }
{
    match role {
        NodeRole::Replica => format!(in alloc; "replicas[{index}]"),
        NodeRole::Mux => format!(in alloc; "muxes[{index}]"),
        NodeRole::Agent => format!(in alloc; "agents[{index}]"),
    }
}

/// Why there is no such node to serve.
fn not_configured(alloc: Global, role: NodeRole, index: u64) -> Refusal
    ensures { RefusedBy result (Err (bad_config (field (node_path role index)))) }
{
    match node_path(alloc, role, index) {
        Ok(path) => Refusal::Field(path),
        Err(AllocError) => Refusal::NoMemory,
    }
}

/// Serves the node of this role and number, or tells that it isn't configured.
fn find_and_serve<K: Sink, H: Host, C: Clock>(
    alloc: Global,
    config: &Config,
    role: NodeRole,
    index: u64,
    turns: u64,
    out: &mut K,
    host: &mut H,
    clock: &mut C,
) -> Ending
    ensures node { IfServed (of_node config.now role index turns (configured_node config.now role index))
        (λ cfg who turns. NodeRan cfg who turns (C.times clock.old) (C.times clock.new) (H.calls host.old)
        (H.calls host.new) (K.written out.old) (K.written out.new) result) }
    ensures says { Says (K.written out.old) (K.written out.new)
        (of_node config.now role index turns (configured_node config.now role index)) result }
    ensures link { result ≡ Ending.LinkFault → Rose (H.link_faults host.old) (H.link_faults host.new) }
    ensures disk { result ≡ Ending.DiskFault → Rose (H.disk_faults host.old) (H.disk_faults host.new) }
    ensures write { result ≡ Ending.WriteFault → Rose (K.faults out.old) (K.faults out.new) }
    ensures kept { IsRefusal result → out.new ≡ out.old }
    ensures causes { AfterReading result }
    ensures away { LeavesHost result → host.new ≡ host.old }
    ensures still { LeavesHost result → clock.new ≡ clock.old }
{
    match configured_node(config, role, index) {
        Some(who) => serve(alloc, config, who, turns, out, host, clock),
        None => Ending::Refused(not_configured(alloc, role, index)),
    }
}

/// What `node` does under the configuration that a text is, or why there is none.
#[tactic(auto, using(crate::proofs::Ran::nothing_served))]
pub fn serve_node<K: Sink, H: Host, C: Clock>(
    alloc: Global,
    text: &[u8],
    role: NodeRole,
    index: u64,
    turns: u64,
    out: &mut K,
    host: &mut H,
    clock: &mut C,
) -> Ending
    ensures node { IfServed (of_site role index turns (config_of text.now)) (λ cfg who turns. NodeRan cfg who turns
        (C.times clock.old) (C.times clock.new) (H.calls host.old) (H.calls host.new) (K.written out.old)
        (K.written out.new) result) }
    ensures says { Says (K.written out.old) (K.written out.new) (of_site role index turns (config_of text.now)) result }
    ensures link { result ≡ Ending.LinkFault → Rose (H.link_faults host.old) (H.link_faults host.new) }
    ensures disk { result ≡ Ending.DiskFault → Rose (H.disk_faults host.old) (H.disk_faults host.new) }
    ensures write { result ≡ Ending.WriteFault → Rose (K.faults out.old) (K.faults out.new) }
    ensures kept { IsRefusal result → out.new ≡ out.old }
    ensures causes { AfterReading result }
    ensures away { LeavesHost result → host.new ≡ host.old }
    ensures still { LeavesHost result → clock.new ≡ clock.old }
{
    match Config::read(alloc, text) {
        Ok(config) => find_and_serve(alloc, &config, role, index, turns, out, host, clock),
        Err(ConfigFault::Json) => Ending::Refused(Refusal::Json),
        Err(ConfigFault::Field(path)) => Ending::Refused(Refusal::Field(path)),
        Err(ConfigFault::NoMemory) => Ending::Refused(Refusal::NoMemory),
    }
}
