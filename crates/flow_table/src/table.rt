ghost use Rattle.std.specs.Prelude.{◌≡◌, ◌≤◌, IfOk, OnOk, OnErr};
ghost use Rattle.std.specs.Option.{option_or};
ghost use Rattle.mux_spec.specs.Flows.{expire, flow_in, no_flows, note};

use crate::lists::Lists;
use mux_spec::{Noted, Seen};
use std::alloc::Global;
use std::marker::Model;
use wire_core::{FlowKey, Ip4, NoMemory};

/// The flows of a mux: at most 16,384 of which one packet came, and at most 65,536 of which more came.
#[derive(Drop)]
pub struct FlowTable {
    lists: Lists,
    latest: u64,
}

impl Model for FlowTable {
    ghost use Rattle.flow_table.specs.Tables.{InOrder, Table};

    ghost Value = { Table };

    ghost view = { λ t. record { flows = t.lists; latest = t.latest } };

    ghost invariant = { λ t. InOrder t.latest t.lists };
}

impl FlowTable {
    /// No flows, and the time 0.
    pub fn new(alloc: Global) -> Result<FlowTable, NoMemory>
        ensures { IfOk result (λ t. t ≡ record { flows = no_flows; latest = 0 }) }
    {
        Ok(FlowTable {
            lists: Lists::new(alloc)?,
            latest: 0,
        })
    }

    /// A packet of a flow at this time, in milliseconds: the machine that it goes to, which for a new flow is the one
    /// that was chosen, and how many packets came since the last SYN, at most 4. Of a full list of untrusted flows the
    /// oldest leaves for a new one. Without memory nothing changed. At most four look-ups by a hash.
    pub fn note(
        &mut self,
        key: &FlowKey,
        syn: bool,
        chosen: Ip4,
        now: u64,
    ) -> Result<Noted, NoMemory>
        requires { self.old.latest ≤ now }
        ensures ok { IfOk result (λ noted. (self.new.flows, noted) ≡ note self.old.flows key.now syn chosen now) }
        ensures latest { OnOk result (self.new.latest ≡ now) }
        ensures err { OnErr result (self.new ≡ self.old) }
    {
        let noted = self.lists.note(key, syn, chosen, now)?;
        self.latest = now;
        Ok(noted)
    }

    /// What is kept of the flow. `None` exactly where neither list has it. At most two look-ups by a hash.
    pub fn lookup(&self, key: &FlowKey) -> Option<Seen>
        ensures { result
            ≡ option_or (flow_in key.now self.now.flows.trusted) (flow_in key.now self.now.flows.untrusted) }
    {
        self.lists.lookup(key)
    }

    /// The flows leave whose last packet came `idle` milliseconds ago or earlier. Looks at these, and at one more of
    /// each list.
    pub fn expire(&mut self, now: u64, idle: u64)
        requires { self.old.latest ≤ now }
        ensures flows { self.new.flows ≡ expire self.old.flows now idle }
        ensures latest { self.new.latest ≡ now }
    {
        self.lists.expire(now, idle);
        self.latest = now;
    }
}
