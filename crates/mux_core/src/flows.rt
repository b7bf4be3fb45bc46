ghost use Rattle.std.specs.Prelude.{◌≡◌, max, IfOk, OnOk, OnErr};
ghost use Rattle.mux_core.specs.Seen.{timed};
ghost use Rattle.mux_spec.specs.Flows.{expire, no_flows, note};

use flow_table::FlowTable;
use mux_spec::Noted;
use std::alloc::Global;
use std::marker::Model;
use wire_core::{FlowKey, Ip4, NoMemory};

/// The flows, and the time of the mux: no flow was told a later one.
#[derive(Drop)]
pub(crate) struct TimedFlows {
    table: FlowTable,
    time: u64,
}

impl Model for TimedFlows {
    ghost use Rattle.std.specs.Prelude.{◌≤◌};
    ghost use Rattle.mux_core.specs.Seen.{Timed};

    ghost Value = { Timed };

    ghost view = { λ f. record { flows = f.table.flows; time = f.time } };

    ghost invariant = { λ f. f.table.latest ≤ f.time };
}

impl TimedFlows {
    /// No flows, and the time 0.
    pub(crate) fn new(alloc: Global) -> Result<TimedFlows, NoMemory>
        ensures { IfOk result (λ f. f ≡ record { flows = no_flows; time = 0 }) }
    {
        Ok(TimedFlows {
            table: FlowTable::new(alloc)?,
            time: 0,
        })
    }

    /// A packet of a flow comes now.
    pub(crate) fn note(&mut self, key: &FlowKey, syn: bool, chosen: Ip4) -> Result<Noted, NoMemory>
        ensures flows { IfOk result (λ noted. (self.new.flows, noted)
            ≡ note self.old.flows key.now syn chosen self.old.time) }
        ensures time { OnOk result (self.new.time ≡ self.old.time) }
        ensures err { OnErr result (self.new ≡ self.old) }
    {
        self.table.note(key, syn, chosen, self.time)
    }

    /// The time is the greater of both, and the flows leave that are idle then. Looks at these, and at one more of each
    /// list.
    pub(crate) fn tick(&mut self, now: u64, idle: u64)
        ensures { self.new ≡ record {
          flows = expire self.old.flows (max self.old.time now) idle;
          time = max self.old.time now;
        } }
    {
        self.time = self.time.max(now);
        self.table.expire(self.time, idle);
    }
}
