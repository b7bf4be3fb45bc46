ghost use Rattle.std.specs.Prelude.{◌≡◌, ◌<◌, IfOk};
ghost use Rattle.paxos_spec.specs.Events.{step_at};

use crate::replica::Replica;
use crate::step::ReplicaStep;
use paxos_spec::Body;
use wire_core::NoMemory;

impl Replica {
    /// A message of a replica, from 0 to 4, comes to replica `me`. `None` exactly where it doesn't count, as each
    /// message's own call says.
    pub fn on_message(&self, me: u8, from: u8, body: &Body) -> Result<Option<ReplicaStep>, NoMemory>
        requires { from < 5 }
        ensures { IfOk result (λ step. step ≡ step_at me self.now from body.now) }
    {
        match body {
            Body::Prepare { ballot } => Ok(Some(self.on_prepare(me, from, *ballot)?)),
            Body::Promise {
                ballot,
                length,
                vote,
                value: None,
            } => self.on_promise(me, from, *ballot, *length, *vote, None),
            Body::Promise {
                ballot,
                length,
                vote,
                value: Some(value),
            } => {
                let value = value.as_value();
                self.on_promise(me, from, *ballot, *length, *vote, Some(&value))
            }
            Body::Accept {
                ballot,
                slot,
                value,
            } => self.on_accept(me, from, *ballot, *slot, &value.as_value()),
            Body::Accepted { ballot, slot } => self.on_accepted(me, from, *ballot, *slot),
            Body::Refuse { ballot, promised } => Ok(self.on_refuse(*ballot, *promised)),
            Body::Chosen {
                slot,
                ballot,
                value,
            } => self.on_chosen(me, from, *slot, *ballot, &value.as_value()),
            Body::Fetch { slot } => self.on_fetch(me, from, *slot),
        }
    }
}
