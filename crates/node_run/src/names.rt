ghost use Rattle.std.specs.Prelude.{◌≡◌, ◌++◌, IfOk, OnOk, string_bytes};
ghost use Rattle.node_run.specs.Names.{first_name, node_name, second_name};

use std::alloc::Global;
use wire_core::{NoMemory, NodeId};

// Appends the node's role and number.
fn write_name(out: &mut String, who: NodeId) -> Result<(), NoMemory>
    ensures { OnOk result (string_bytes out.new ≡ string_bytes out.old ++ node_name who) }
{
    match who {
        NodeId::Replica(index) => write!(out, "replica-{index}"),
        NodeId::Mux(index) => write!(out, "mux-{index}"),
        NodeId::Agent(index) => write!(out, "agent-{index}"),
    }
}

// The name of the first disk.
fn first_name(alloc: Global, who: NodeId) -> Result<String, NoMemory>
    ensures { IfOk result (λ name. string_bytes name ≡ first_name who) }
{
    let mut name = String::new(alloc);
    write_name(&mut name, who)?;
    name.push_str("-a")?;
    Ok(name)
}

// The name of the second disk.
fn second_name(alloc: Global, who: NodeId) -> Result<String, NoMemory>
    ensures { IfOk result (λ name. string_bytes name ≡ second_name who) }
{
    let mut name = String::new(alloc);
    write_name(&mut name, who)?;
    name.push_str("-b")?;
    Ok(name)
}

/// The names of a node's two disks, such as `mux-0-a` and `mux-0-b`.
pub fn names(alloc: Global, who: NodeId) -> Result<(String, String), NoMemory>
    ensures first { IfOk result (λ x. string_bytes x.0 ≡ first_name who) }
    ensures second { IfOk result (λ x. string_bytes x.1 ≡ second_name who) }
{
    let first = first_name(alloc, who)?;
    let second = second_name(alloc, who)?;
    Ok((first, second))
}
