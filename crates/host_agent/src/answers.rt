// What replicas answer.
ghost use Rattle.std.specs.Prelude.{◌≡◌, ◌&&◌, Some, OnOk};
ghost use Rattle.vip_config.specs.Leases.{lease_rules_of};
ghost use Rattle.vip_config.specs.Serving.{has_snat};
ghost use Rattle.wire_core.specs.Ranges.{is_leasable};
ghost use Rattle.agent_spec.specs.Answers.{grant_to, on_denied, on_grant, on_known, on_returned, take_grant};
ghost use Rattle.agent_spec.specs.Agent.{Host, host_of, of_site};
ghost use Rattle.host_agent.specs.Seen.{site, with_lists};
ghost use Rattle.node_spec.specs.Steps.{turned};

use crate::notes::drop_for;
use crate::state::State;
use agent_spec::Granting;
use std::alloc::Global;
use wire_core::{DropCause, Ip4, NoMemory, Range, Step};

/// A Grant: lease `n` of a range is the machine's, which it asked for with `seq`.
#[derive(Clone, Copy, Debug, PartialEq, Eq)]
pub(crate) struct Granted {
    pub machine: Ip4,
    pub seq: u64,
    pub n: u64,
    pub range: Range,
}

impl State {
    /// AgentKnown: a primary knows this boot.
    #[tactic(auto, using(node_spec::proofs::Turning::quiet_turned, node_spec::proofs::Turning::drop_turned), unfolding(agent_spec::specs::Answers::on_known))]
    pub(crate) fn on_known(&mut self, step: &mut Step, from: u8, boot: u64) -> Result<(), NoMemory>
        ensures { OnOk result ((self.new, step.new)
            ≡ turned (with_lists self.old) self.old.config step.old (on_known self.old.lists from boot)) }
    {
        if boot != self.origin.boot {
            return drop_for(step, DropCause::WrongBoot(self.origin.boot));
        }
        self.known = true;
        self.origin.hint = from;
        Ok(())
    }

    /// Returned: the number needn't be given back again.
    #[tactic(auto, using(node_spec::proofs::Turning::quiet_turned, node_spec::proofs::Turning::drop_turned), unfolding(agent_spec::specs::Answers::on_returned))]
    pub(crate) fn on_returned(
        &mut self,
        step: &mut Step,
        from: u8,
        boot: u64,
        n: u64,
    ) -> Result<(), NoMemory>
        ensures { OnOk result ((self.new, step.new)
            ≡ turned (with_lists self.old) self.old.config step.old (on_returned self.old.lists from boot n)) }
    {
        if boot != self.origin.boot {
            return drop_for(step, DropCause::WrongBoot(self.origin.boot));
        }
        if !self.traffic.returned(n) {
            return drop_for(step, DropCause::Late);
        }
        self.origin.hint = from;
        Ok(())
    }

    /// Denied: the ask is over, and what was held for it is dropped.
    #[tactic(auto, using(node_spec::proofs::Turning::drop_turned), unfolding(agent_spec::specs::Answers::on_denied))]
    pub(crate) fn on_denied(
        &mut self,
        step: &mut Step,
        from: u8,
        boot: u64,
        machine: Ip4,
        seq: u64,
    ) -> Result<(), NoMemory>
        ensures { OnOk result ((self.new, step.new)
            ≡ turned (with_lists self.old) self.old.config step.old (on_denied self.old.lists from boot machine seq)) }
    {
        if boot != self.origin.boot {
            return drop_for(step, DropCause::WrongBoot(self.origin.boot));
        }
        let out = self.hosts.deny(&self.cfg, step, machine, seq)?;
        if !out {
            drop_for(step, DropCause::Late)?;
            return Ok(());
        }
        self.origin.hint = from;
        Ok(())
    }

    /// Grant: a range is the machine's, unless it is another boot's, not the machine's to have, or an old one.
    #[tactic(auto, using(node_spec::proofs::Turning::drop_turned), unfolding(agent_spec::specs::Answers::on_grant))]
    pub(crate) fn on_grant(
        &mut self,
        alloc: Global,
        step: &mut Step,
        from: u8,
        boot: u64,
        grant: &Granted,
    ) -> Result<(), NoMemory>
        ensures { OnOk result ((self.new, step.new)
            ≡ turned (with_lists self.old) self.old.config step.old
            (on_grant self.old.config self.old.lists from boot grant.now.machine grant.now.seq grant.now.n grant.now.range)) }
    {
        if boot != self.origin.boot {
            return drop_for(step, DropCause::WrongBoot(self.origin.boot));
        }
        self.grant_to(alloc, step, from, grant)
    }

    /// Whether the machine's connections leave from the range's VIP, and the range may be leased.
    fn may_have(&self, grant: &Granted) -> bool
        ensures { result ≡ (has_snat self.now.config.vips grant.now.range.vip grant.now.machine
            && is_leasable (lease_rules_of self.now.config) grant.now.range) }
    {
        self.cfg.has_snat(grant.range.vip, grant.machine) && self.rules.leasable(&grant.range)
    }

    /// A Grant in this boot: the machine is its own, and may have the range.
    #[tactic(auto, using(node_spec::proofs::Turning::drop_turned))]
    fn grant_to(
        &mut self,
        alloc: Global,
        step: &mut Step,
        from: u8,
        grant: &Granted,
    ) -> Result<(), NoMemory>
        ensures { OnOk result ((self.new, step.new)
            ≡ turned (with_lists self.old) self.old.config step.old
            (grant_to self.old.config self.old.lists from grant.now.seq grant.now.n grant.now.range
            (host_of self.old.lists.hosts grant.now.machine))) }
    {
        let own = self.hosts.is_own(grant.machine);
        if !own {
            drop_for(step, DropCause::NotMine)?;
            return Ok(());
        }
        let may = self.may_have(grant);
        if !may {
            drop_for(step, DropCause::NotMine)?;
            return Ok(());
        }
        match self.traffic.grant(grant.n, &grant.range, grant.machine)? {
            Granting::Old { kept } => {
                drop_for(step, DropCause::OldGrant(kept))?;
                Ok(())
            }
            Granting::Held => {
                self.origin.hint = from;
                self.take_range(alloc, step, grant)?;
                Ok(())
            }
        }
    }

    /// The range is held from now on, and the machine's held packets leave through it.
    fn take_range(
        &mut self,
        alloc: Global,
        step: &mut Step,
        grant: &Granted,
    ) -> Result<(), NoMemory>
        ensures { (h : Host) → host_of self.old.lists.hosts grant.now.machine ≡ Some h → OnOk result ((self.new, step.new)
            ≡ turned (with_lists self.old) self.old.config step.old
            (of_site self.old.lists
            (take_grant self.old.config self.old.lists.boot self.old.lists.hint (site self.old.lists.traffic h)
            grant.now.seq grant.now.n))) }
    {
        self.hosts.grant(
            alloc,
            &self.cfg,
            &self.origin,
            &mut self.traffic,
            step,
            grant.machine,
            grant.seq,
            grant.n,
        )?;
        Ok(())
    }
}
