ghost use Rattle.std.specs.Prelude.{◌≡◌, ◌++◌, IfOk, OnOk, string_bytes};
ghost use Rattle.vip_config.specs.Places.{path, vip_path, endpoint_path};

use std::alloc::Global;
use wire_core::NoMemory;

/// A member of the configuration. Numbers count the members of a list from 0, those of outer lists first.
#[derive(Clone, Copy, Debug, PartialEq, Eq)]
pub enum Place {
    Router,
    Replica(usize),
    Mux(usize),
    AgentSocket(usize),
    MachineAddress(usize, usize),
    MachineAttach(usize, usize),
    VipAddress(usize),
    Low(usize),
    High(usize),
    Snat(usize, usize),
    Endpoint(usize, usize),
    Member(usize, usize, usize),
    MemberAddress(usize, usize, usize),
}

/// Appends the path of a VIP.
#[tactic(auto, unfolding(crate::specs::Places::vip_path))]
fn write_vip(out: &mut String, i: usize) -> Result<(), NoMemory>
    ensures { OnOk result (string_bytes out.new ≡ string_bytes out.old ++ vip_path i) }
{
    write!(out, "vips[{i}]")
}

/// Appends the path of an endpoint.
#[tactic(auto, unfolding(crate::specs::Places::endpoint_path))]
fn write_endpoint(out: &mut String, i: usize, j: usize) -> Result<(), NoMemory>
    ensures { OnOk result (string_bytes out.new ≡ string_bytes out.old ++ endpoint_path i j) }
{
    write_vip(out, i)?;
    write!(out, ".endpoints[{j}]")?;
    Ok(())
}

impl Place {
    /// Appends its path, such as `agents[0].machines[1].address`.
    fn write(&self, out: &mut String) -> Result<(), NoMemory>
        ensures { OnOk result (string_bytes out.new ≡ string_bytes out.old ++ path self.now) }
    {
        match *self {
            Place::Router => write!(out, "router"),
            Place::Replica(i) => write!(out, "replicas[{i}]"),
            Place::Mux(i) => write!(out, "muxes[{i}]"),
            Place::AgentSocket(i) => write!(out, "agents[{i}].socket"),
            Place::MachineAddress(i, j) => write!(out, "agents[{i}].machines[{j}].address"),
            Place::MachineAttach(i, j) => write!(out, "agents[{i}].machines[{j}].attach"),
            Place::VipAddress(i) => write!(out, "vips[{i}].address"),
            Place::Low(i) => write!(out, "vips[{i}].low"),
            Place::High(i) => write!(out, "vips[{i}].high"),
            Place::Snat(i, j) => write!(out, "vips[{i}].snat[{j}]"),
            Place::Endpoint(i, j) => write_endpoint(out, i, j),
            Place::Member(i, j, k) => {
                write_endpoint(out, i, j)?;
                write!(out, ".machines[{k}]")
            }
            Place::MemberAddress(i, j, k) => {
                write_endpoint(out, i, j)?;
                write!(out, ".machines[{k}].address")
            }
        }
    }

    /// Its path.
    pub fn path(&self, alloc: Global) -> Result<String, NoMemory>
        ensures { IfOk result (λ text. string_bytes text ≡ path self.now) }
    {
        let mut text = String::new(alloc);
        self.write(&mut text)?;
        Ok(text)
    }
}
