// What isn't answered is said again.
ghost use Rattle.std.specs.Prelude.{◌≡◌, map, take, OnOk};
ghost use Rattle.std.specs.List.{flat_map};
ghost use Rattle.agent_spec.specs.Clock.{ask_again, renewed};
ghost use Rattle.control_msg.specs.declared.message.Message.TheVariants.{AgentUp, Return};
ghost use Rattle.node_spec.specs.Sends.{tell_all};
ghost use Rattle.node_spec.specs.Steps.{outgoing, with_sends};

use crate::host::Host;
use control_msg::Message;
use node_spec::say_each;
use std::alloc::Global;
use vip_config::Config;
use wire_core::{NoMemory, Step};

/// All replicas.
const REPLICAS: [u8; 5] = [0, 1, 2, 3, 4];

/// The message to all five replicas.
pub(crate) fn say_all(
    alloc: Global,
    cfg: &Config,
    step: &mut Step,
    m: &Message,
) -> Result<(), NoMemory>
    ensures { OnOk result (step.new ≡ with_sends (flat_map (outgoing cfg.now) (tell_all m.now)) step.old) }
{
    say_each(alloc, cfg, step, &REPLICAS, m)
}

/// Each ask that is out for so long goes to all five.
pub(crate) fn ask_each(
    alloc: Global,
    cfg: &Config,
    step: &mut Step,
    hosts: &[Host],
    boot: u64,
    now: u64,
    retry: u64,
) -> Result<(), NoMemory>
    ensures { OnOk result (step.new ≡ with_sends (flat_map (outgoing cfg.now)
        (flat_map (λ h. ask_again boot now retry h.machine h.ask) hosts.now)) step.old) }
{
    for host in hosts {
        host.ask_again(alloc, cfg, step, boot, now, retry)?;
    }
    Ok(())
}

/// Their times are renewed.
pub(crate) fn renew_each(hosts: &mut [Host], now: u64, retry: u64)
    ensures { hosts.new ≡ map (renewed now retry) hosts.old }
{
    for host in hosts.iter_mut() {
        host.renew(now, retry);
    }
}

/// Each number is given back to all five.
pub(crate) fn return_each(
    alloc: Global,
    cfg: &Config,
    step: &mut Step,
    numbers: &[u64],
    boot: u64,
) -> Result<(), NoMemory>
    ensures { OnOk result (step.new ≡ with_sends (flat_map (outgoing cfg.now)
        (flat_map (λ n. tell_all (Return boot n)) numbers.now)) step.old) }
{
    for n in numbers {
        say_all(alloc, cfg, step, &Message::Return { boot, n: *n })?;
    }
    Ok(())
}
