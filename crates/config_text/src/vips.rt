ghost use Rattle.config_text.specs.Form.{endpoint_of, member_of, vip_of};

use crate::fault::ConfigFault;
use crate::list::Entry;
use crate::place::Place;
use wire_core::{Ip4, Items, Proto};

pub type IpList = Items<Ip4>;

pub type MemberList = Items<Member>;

pub type EndpointList = Items<Endpoint>;

pub type VipTextList = Items<VipText>;

/// A machine that serves an endpoint, and the port from 1 at which it does.
#[derive(Clone, Copy, Debug, PartialEq, Eq)]
pub struct Member {
    pub address: Ip4,
    pub port: u16,
}

/// A port of a VIP, from 1, and the 1 to 64 machines that serve it.
#[derive(Debug, Drop)]
pub struct Endpoint {
    pub proto: Proto,
    pub port: u16,
    pub machines: MemberList,
}

/// A VIP as it is written: `low` and `high` may be any whole numbers of 64 bits.
#[derive(Debug, Drop)]
pub struct VipText {
    pub address: Ip4,
    pub low: u64,
    pub high: u64,
    /// The machines whose connections leave from this VIP, at most 4,096.
    pub snat: IpList,
    /// At most 1,024.
    pub endpoints: EndpointList,
}

impl Entry for Member {
    ghost entry = { member_of };

    #[tactic(auto, unfolding(crate::specs::Form::member_of))]
    fn read(place: &Place<'_>) -> Result<Member, ConfigFault> {
        place.is_object()?;
        let address = place.address("address")?;
        let port = place.port("port")?;
        place.nothing_but(&["address", "port"])?;
        Ok(Member { address, port })
    }
}

impl Entry for Endpoint {
    ghost entry = { endpoint_of };

    #[tactic(auto, unfolding(crate::specs::Form::endpoint_of))]
    fn read(place: &Place<'_>) -> Result<Endpoint, ConfigFault> {
        place.is_object()?;
        let proto = place.proto("proto")?;
        let port = place.port("port")?;
        let machines = place.list("machines", 1, 64)?;
        place.nothing_but(&["proto", "port", "machines"])?;
        Ok(Endpoint {
            proto,
            port,
            machines,
        })
    }
}

impl Entry for VipText {
    ghost entry = { vip_of };

    #[tactic(auto, unfolding(crate::specs::Form::vip_of))]
    fn read(place: &Place<'_>) -> Result<VipText, ConfigFault> {
        place.is_object()?;
        let address = place.address("address")?;
        let low = place.whole("low")?;
        let high = place.whole("high")?;
        let snat = place.list("snat", 0, 4096)?;
        let endpoints = place.list("endpoints", 0, 1024)?;
        place.nothing_but(&["address", "low", "high", "snat", "endpoints"])?;
        Ok(VipText {
            address,
            low,
            high,
            snat,
            endpoints,
        })
    }
}
