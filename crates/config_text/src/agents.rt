ghost use Rattle.config_text.specs.Form.{agent_of, attach_of};

use crate::fault::ConfigFault;
use crate::list::Entry;
use crate::place::Place;
use wire_core::{Ip4, Items, Socket};

pub type AttachList = Items<Attach>;

pub type AgentList = Items<AgentConf>;

/// A machine, and the socket from which its packets reach its agent.
#[derive(Clone, Copy, Debug, PartialEq, Eq)]
pub struct Attach {
    pub address: Ip4,
    pub attach: Socket,
}

/// An agent: its socket and its 1 to 64 machines.
#[derive(Debug, Drop)]
pub struct AgentConf {
    pub socket: Socket,
    pub machines: AttachList,
}

impl Entry for Attach {
    ghost entry = { attach_of };

    #[tactic(auto, unfolding(crate::specs::Form::attach_of))]
    fn read(place: &Place<'_>) -> Result<Attach, ConfigFault> {
        place.is_object()?;
        let address = place.address("address")?;
        let attach = place.socket("attach")?;
        place.nothing_but(&["address", "attach"])?;
        Ok(Attach { address, attach })
    }
}

impl Entry for AgentConf {
    ghost entry = { agent_of };

    #[tactic(auto, unfolding(crate::specs::Form::agent_of))]
    fn read(place: &Place<'_>) -> Result<AgentConf, ConfigFault> {
        place.is_object()?;
        let socket = place.socket("socket")?;
        let machines = place.list("machines", 1, 64)?;
        place.nothing_but(&["socket", "machines"])?;
        Ok(AgentConf { socket, machines })
    }
}
