use config_text::{AgentList, EndpointList, IpList, SocketList, Timers};
use wire_core::{Ip4, Items, Socket};

pub type VipList = Items<VipConf>;

/// A VIP: its address, its ports for leases from `low` to `high`, both included, the machines whose connections leave
/// from it, and the ports at which machines serve it.
#[derive(Debug, Drop)]
pub struct VipConf {
    pub address: Ip4,
    /// A multiple of 8 from 1024 to 65528.
    pub low: u16,
    /// Above `low`; the number after it is a multiple of 8.
    pub high: u16,
    pub snat: IpList,
    pub endpoints: EndpointList,
}

/// The parts of a configuration.
#[derive(Debug, Drop)]
pub struct ConfigParts {
    /// 1.
    pub version: u8,
    /// Where all packets go that leave for outside.
    pub router: Socket,
    /// Exactly 5.
    pub replicas: SocketList,
    /// 1 to 16.
    pub muxes: SocketList,
    /// 1 to 256, each with 1 to 64 machines.
    pub agents: AgentList,
    /// 1 to 64.
    pub vips: VipList,
    /// The most rows of a machine, 1 to 1,024.
    pub limit: u32,
    pub timers: Timers,
}
