use crate::flows::TimedFlows;
use crate::routes::Routes;
use mux_spec::Gate;
use std::marker::Model;

/// A mux. In contracts it is its configuration and its lists.
#[derive(Drop)]
pub struct Mux {
    pub(crate) routes: Routes,
    pub(crate) gate: Gate,
    pub(crate) flows: TimedFlows,
}

impl Model for Mux {
    ghost use Rattle.mux_core.specs.Seen.{Core};

    ghost Value = { Core };

    ghost view = { λ m. record {
      config = m.routes.config;
      lists = record {
        index = m.routes.index;
        gate = m.gate;
        rows = m.routes.rows;
        flows = m.flows.flows;
        time = m.flows.time;
      };
    } };
}
