ghost use Rattle.std.specs.Prelude.{◌≡◌, OnOk, map, option_map};
ghost use Rattle.std.specs.List.{flat_map};
ghost use Rattle.std.specs.Option.{option_copied};
ghost use Rattle.manager_log.specs.Parts.{with_acts};
ghost use Rattle.manager_spec.specs.Manager.{act_of, mailed, message_of};
ghost use Rattle.node_spec.specs.Steps.{body_of, outgoing, with_sends};
ghost use Rattle.paxos_replica.specs.Seen.{mails_of};
ghost use Rattle.wire_core.specs.Steps.{with_entry};

use control_msg::Message;
use node_spec::{entry_bytes, say_each};
use paxos_replica::{ReplicaStep, Said};
use paxos_spec::Body;
use port_leases::Effect;
use std::alloc::Global;
use vip_config::Config;
use wire_core::{Act, NoMemory, Step};

/// What a replica of the agreement says, as a message.
fn message(body: &Body) -> Message<'_>
    ensures { result ≡ message_of body.now }
{
    match body {
        Body::Prepare { ballot } => Message::Prepare { ballot: *ballot },
        Body::Promise {
            ballot,
            length,
            vote,
            value,
        } => Message::Promise {
            ballot: *ballot,
            length: *length,
            vote: *vote,
            value: match value {
                None => None,
                Some(value) => Some(value.as_value()),
            },
        },
        Body::Accept {
            ballot,
            slot,
            value,
        } => Message::Accept {
            ballot: *ballot,
            slot: *slot,
            value: value.as_value(),
        },
        Body::Accepted { ballot, slot } => Message::Accepted {
            ballot: *ballot,
            slot: *slot,
        },
        Body::Refuse { ballot, promised } => Message::Refuse {
            ballot: *ballot,
            promised: *promised,
        },
        Body::Chosen {
            slot,
            ballot,
            value,
        } => Message::Chosen {
            slot: *slot,
            ballot: *ballot,
            value: value.as_value(),
        },
        Body::Fetch { slot } => Message::Fetch { slot: *slot },
    }
}

/// Adds what is said, to each recipient.
#[tactic(auto, using(crate::proofs::TurnLaws::mailed_each))]
pub fn say_said(
    alloc: Global,
    cfg: &Config,
    out: &mut Step,
    said: Option<&Said>,
) -> Result<(), NoMemory>
    ensures { OnOk result (out.new
        ≡ with_sends (flat_map (outgoing cfg.now) (map mailed (mails_of (option_copied said.entry)))) out.old) }
{
    match said {
        None => Ok(()),
        Some(said) => {
            let m = message(&said.body);
            say_each(alloc, cfg, out, said.recipients(), &m)
        }
    }
}

/// Writes the step's entry.
fn write_entry(alloc: Global, out: &mut Step, step: &ReplicaStep) -> Result<(), NoMemory>
    ensures { OnOk result (out.new ≡ with_entry (option_map body_of step.now.entry) out.old) }
{
    match step.entry() {
        None => out.write(None),
        Some(entry) => out.write(Some(entry_bytes(alloc, &entry)?)),
    }
    Ok(())
}

/// Adds a step of the agreement: its entry and its messages.
pub fn spell(
    alloc: Global,
    cfg: &Config,
    out: &mut Step,
    step: &ReplicaStep,
) -> Result<(), NoMemory>
    ensures { OnOk result (out.new ≡ with_sends (flat_map (outgoing cfg.now) (map mailed step.now.sends))
        (with_entry (option_map body_of step.now.entry) out.old)) }
{
    write_entry(alloc, out, step)?;
    say_said(alloc, cfg, out, step.said())
}

/// Adds the act of an effect, if it is one.
fn add_act(out: &mut Step, effect: Effect) -> Result<(), NoMemory>
    ensures { OnOk result (out.new ≡ with_acts (act_of effect) out.old) }
{
    match effect {
        Effect::Reserved { row } => out.act(Act::Reserve {
            n: row.n,
            range: row.range,
            machine: row.machine,
        }),
        Effect::Granted { row } => out.act(Act::Grant { n: row.n }),
        Effect::Released { row } | Effect::Cleared { row } => out.act(Act::Free { n: row.n }),
        Effect::Freed { row } => out.act(Act::Freed { n: row.n }),
        Effect::Exhausted { .. } | Effect::AtLimit { .. } | Effect::Known { .. } => Ok(()),
    }
}

/// Adds the acts of effects, in their order.
pub fn add_acts(out: &mut Step, effects: &[Effect]) -> Result<(), NoMemory>
    ensures { OnOk result (out.new ≡ with_acts (flat_map act_of effects.now) out.old) }
{
    for effect in effects {
        add_act(out, *effect)?;
    }
    Ok(())
}
