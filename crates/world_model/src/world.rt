ghost use Rattle.std.specs.Prelude.{◌≡◌, ◌++◌, ◌∷◌, [], None, Some, true, is_some, IfErr, IfOk, OnOk, IfSome};
ghost use Rattle.node_spec.specs.Bodies.{entries_of};
ghost use Rattle.node_spec.specs.Steps.{input_of};
ghost use Rattle.vip_config.specs.Queries.{socket_of};
ghost use Rattle.world_mail.specs.Mails.{least_waiting, posted_at, taken_by};
ghost use Rattle.world_nodes.specs.Disks.{IsLent};
ghost use Rattle.world_nodes.specs.Nodes.{node_at};
ghost use Rattle.world_nodes.specs.Sites.{deciding};
ghost use Rattle.world_nodes.specs.Overflows.{FullsBy};
ghost use Rattle.world_nodes.specs.declared.fault.WorldFault.TheVariants.{NoMemory};
ghost use Rattle.world_model.specs.Firsts.{first_world};
ghost use Rattle.world_model.specs.Overflows.{cut_deliver_overflow_at, cut_input_overflow, cut_opening_overflow, cut_restart_overflow, deliver_overflow, during_overflow, event_overflow, input_overflow, restart_overflow, settle_overflow, single_overflow};
ghost use Rattle.world_model.specs.Shown.{IsLentFor, IsUpFor, StandsAfter, StandsFirst};
ghost use Rattle.world_nodes.specs.Firsts.{MayOpen};
ghost use Rattle.world_model.specs.Sound.{IsSound, world_of};
ghost use Rattle.world_model.specs.TableOverflows.{OverflowsAsTables};
ghost use Rattle.world_model.specs.World.{applied, crash, cut_deliver, cut_input, cut_opening, cut_restart, deliver, during, input, onto, restart, settle, single};

use crate::spreading::{home, same_node, say, say_cut, say_fallen, say_opened, spread};
use disk_model::MemDisk;
use node_core::{Core, Node};
use schedule_text::{Event, Line, Single, Word};
use std::alloc::Global;
use vip_config::Config;
use wire_core::{BodyList, Input, Items, NoMemory, NodeId};
use world_mail::Mail;
use world_nodes::{
    Nodes, WorldFault, bodies_of, crash_node, cut_node, cut_restart_node, first_nodes, learned_by,
    lent, longest, restart_node, step_node,
};

/// The lines of an event.
pub type LineList = Items<Line>;

/// All nodes over their disks, and all datagrams that they sent.
#[derive(Drop)]
pub struct World<C: Core> {
    pub(crate) alloc: Global,
    pub(crate) cfg: Config,
    pub(crate) nodes: Nodes<C>,
    pub(crate) mail: Mail,
}

impl<C: Core> World<C> {
    /// All nodes of a configuration, opened on empty disks.
    pub fn new(alloc: Global, cfg: Config) -> Result<World<C>, WorldFault>
        requires may { MayOpen C.may_open cfg }
        ensures sound { IfOk result (IsSound C.may_open) }
        ensures first { IfOk result (λ world. world_of world ≡ first_world C.opened cfg) }
        ensures memory { IfErr result (λ e. e ≡ NoMemory) }
        ensures stands { IfOk result (λ world. StandsFirst (deciding C.step C.written) C.opened (world_of world)) }
    {
        cfg.keeps_rules();
        let nodes = first_nodes(alloc, &cfg)?;
        Ok(World {
            alloc,
            cfg,
            nodes,
            mail: Mail::new(alloc),
        })
    }

    // An input to a node.
    fn input(
        &mut self,
        x: NodeId,
        what: &Input<'_>,
        lines: &mut Vec<Line>,
    ) -> Result<(), WorldFault>
        requires sound { IsSound C.may_open self.old }
        ensures sound { OnOk result (IsSound C.may_open self.new) }
        ensures does { OnOk result ((world_of self.new, lines.new.items)
            ≡ onto lines.old.items (input (deciding C.step C.written) (world_of self.old) x (input_of what.now))) }
        ensures full { FullsBy (input_overflow (deciding C.step C.written) (world_of self.old) x (input_of what.now)) result }
    {
        let longest = longest(&self.nodes);
        let stepped = step_node(self.alloc, &mut self.nodes, x, what)?;
        spread(
            self.alloc,
            &self.cfg,
            &mut self.mail,
            x,
            longest,
            stepped,
            lines,
        )?;
        Ok(())
    }

    // The datagram with a number arrives.
    #[tactic(auto, unfolding(crate::specs::World::deliver, crate::specs::Overflows::deliver_overflow))]
    fn deliver(&mut self, k: u64, lines: &mut Vec<Line>) -> Result<(), WorldFault>
        requires sound { IsSound C.may_open self.old }
        ensures sound { OnOk result (IsSound C.may_open self.new) }
        ensures does { OnOk result ((world_of self.new, lines.new.items)
            ≡ onto lines.old.items (deliver (deciding C.step C.written) (world_of self.old) k)) }
        ensures full { FullsBy (deliver_overflow (deciding C.step C.written) (world_of self.old) k) result }
    {
        let Some(posted) = self.mail.get(k) else {
            return Ok(say(lines, Word::NotYet)?);
        };
        let Some(x) = posted.to else {
            return Ok(say(lines, Word::Outside)?);
        };
        let what = Input::Datagram {
            from: home(&self.cfg, posted.from),
            bytes: posted.bytes.as_slice(),
        };
        let longest = longest(&self.nodes);
        let stepped = step_node(self.alloc, &mut self.nodes, x, &what)?;
        self.mail.take(k);
        spread(
            self.alloc,
            &self.cfg,
            &mut self.mail,
            x,
            longest,
            stepped,
            lines,
        )?;
        Ok(())
    }

    // A node goes down.
    fn crash(&mut self, x: NodeId, lines: &mut Vec<Line>) -> Result<(), WorldFault>
        requires sound { IsSound C.may_open self.old }
        ensures sound { OnOk result (IsSound C.may_open self.new) }
        ensures does { OnOk result ((world_of self.new, lines.new.items)
            ≡ onto lines.old.items (crash (world_of self.old) x)) }
        ensures full { FullsBy None result }
    {
        let fell = crash_node(&mut self.nodes, x);
        say_fallen(lines, x, Word::Down, fell)?;
        Ok(())
    }

    // A node opens its disk.
    fn restart(&mut self, x: NodeId, lines: &mut Vec<Line>) -> Result<(), WorldFault>
        requires sound { IsSound C.may_open self.old }
        ensures sound { OnOk result (IsSound C.may_open self.new) }
        ensures does { OnOk result ((world_of self.new, lines.new.items)
            ≡ onto lines.old.items (restart C.opened (world_of self.old) x)) }
        ensures full { FullsBy (restart_overflow (world_of self.old) x) result }
    {
        if self.cfg.socket(&x).is_none() {
            return Ok(());
        }
        let opened = restart_node(self.alloc, &self.cfg, &mut self.nodes, x)?;
        say_opened(lines, opened)?;
        Ok(())
    }

    // An input to node y in which node x goes down.
    #[tactic(auto, using(crate::proofs::Spreads::kept_mail))]
    fn cut_input(
        &mut self,
        x: NodeId,
        y: NodeId,
        what: &Input<'_>,
        keep: bool,
        lines: &mut Vec<Line>,
    ) -> Result<(), WorldFault>
        requires sound { IsSound C.may_open self.old }
        ensures sound { OnOk result (IsSound C.may_open self.new) }
        ensures does { OnOk result ((world_of self.new, lines.new.items)
            ≡ onto lines.old.items (cut_input (deciding C.step C.written) (world_of self.old) self.old.mail x y
            (input_of what.now) keep)) }
        ensures full { FullsBy (cut_input_overflow (deciding C.step C.written) (world_of self.old) x y
            (input_of what.now) keep) result }
    {
        if !same_node(x, y) {
            return Ok(say(lines, Word::Other)?);
        }
        let longest = longest(&self.nodes);
        let stepped = cut_node(self.alloc, &mut self.nodes, x, what, keep)?;
        say_cut(self.alloc, lines, x, longest, stepped)?;
        Ok(())
    }

    // The datagram with a number arrives, and the node goes down in that step.
    fn cut_deliver(
        &mut self,
        x: NodeId,
        k: u64,
        keep: bool,
        lines: &mut Vec<Line>,
    ) -> Result<(), WorldFault>
        requires sound { IsSound C.may_open self.old }
        ensures sound { OnOk result (IsSound C.may_open self.new) }
        ensures does { OnOk result ((world_of self.new, lines.new.items)
            ≡ onto lines.old.items (cut_deliver (deciding C.step C.written) (world_of self.old) x k keep)) }
        ensures full { FullsBy (cut_deliver_overflow_at (deciding C.step C.written) (world_of self.old) x keep
            (posted_at self.old.mail k)) result }
    {
        let Some(posted) = self.mail.get(k) else {
            return Ok(say(lines, Word::NotYet)?);
        };
        let Some(y) = posted.to else {
            return Ok(say(lines, Word::Outside)?);
        };
        if !same_node(x, y) {
            return Ok(say(lines, Word::Other)?);
        }
        let what = Input::Datagram {
            from: home(&self.cfg, posted.from),
            bytes: posted.bytes.as_slice(),
        };
        let longest = longest(&self.nodes);
        let stepped = cut_node(self.alloc, &mut self.nodes, x, &what, keep)?;
        if stepped.is_some() {
            self.mail.take(k);
        }
        say_cut(self.alloc, lines, x, longest, stepped)?;
        Ok(())
    }

    // An opening in which the node goes down.
    fn cut_opening(
        &mut self,
        x: NodeId,
        keep: bool,
        lines: &mut Vec<Line>,
    ) -> Result<(), WorldFault>
        requires sound { IsSound C.may_open self.old }
        ensures sound { OnOk result (IsSound C.may_open self.new) }
        ensures does { OnOk result ((world_of self.new, lines.new.items)
            ≡ onto lines.old.items (cut_opening C.opened (world_of self.old) x keep)) }
        ensures full { FullsBy (cut_opening_overflow (world_of self.old) x keep) result }
    {
        if self.cfg.socket(&x).is_none() {
            return Ok(());
        }
        let opened = cut_restart_node(self.alloc, &self.cfg, &mut self.nodes, x, keep)?;
        say_fallen(lines, x, Word::Up, opened)?;
        Ok(())
    }

    // An opening of node y in which node x goes down.
    fn cut_restart(
        &mut self,
        x: NodeId,
        y: NodeId,
        keep: bool,
        lines: &mut Vec<Line>,
    ) -> Result<(), WorldFault>
        requires sound { IsSound C.may_open self.old }
        ensures sound { OnOk result (IsSound C.may_open self.new) }
        ensures does { OnOk result ((world_of self.new, lines.new.items)
            ≡ onto lines.old.items (cut_restart C.opened (world_of self.old) x y keep)) }
        ensures full { FullsBy (cut_restart_overflow (world_of self.old) x y keep) result }
    {
        if same_node(x, y) {
            self.cut_opening(x, keep, lines)
        } else {
            Ok(say(lines, Word::Other)?)
        }
    }

    // An event at one node.
    fn single(&mut self, event: &Single, lines: &mut Vec<Line>) -> Result<(), WorldFault>
        requires sound { IsSound C.may_open self.old }
        ensures sound { OnOk result (IsSound C.may_open self.new) }
        ensures does { OnOk result ((world_of self.new, lines.new.items)
            ≡ onto lines.old.items (single (deciding C.step C.written) C.opened (world_of self.old) event.now)) }
        ensures full { FullsBy (single_overflow (deciding C.step C.written) (world_of self.old) event.now) result }
    {
        match event {
            Single::Deliver { k } => self.deliver(*k, lines),
            Single::Inject { node, from, bytes } => {
                let what = Input::Datagram {
                    from: *from,
                    bytes: bytes.as_slice(),
                };
                self.input(*node, &what, lines)
            }
            Single::Tick { node, now } => self.input(*node, &Input::Tick { now: *now }, lines),
            Single::Restart { node } => self.restart(*node, lines),
        }
    }

    // The same event, in which node x goes down.
    fn during(
        &mut self,
        x: NodeId,
        event: &Single,
        keep: bool,
        lines: &mut Vec<Line>,
    ) -> Result<(), WorldFault>
        requires sound { IsSound C.may_open self.old }
        ensures sound { OnOk result (IsSound C.may_open self.new) }
        ensures does { OnOk result ((world_of self.new, lines.new.items)
            ≡ onto lines.old.items (during (deciding C.step C.written) C.opened (world_of self.old) x event.now keep)) }
        ensures full { FullsBy (during_overflow (deciding C.step C.written) (world_of self.old) x event.now keep) result }
    {
        match event {
            Single::Deliver { k } => self.cut_deliver(x, *k, keep, lines),
            Single::Inject { node, from, bytes } => {
                let what = Input::Datagram {
                    from: *from,
                    bytes: bytes.as_slice(),
                };
                self.cut_input(x, *node, &what, keep, lines)
            }
            Single::Tick { node, now } => {
                self.cut_input(x, *node, &Input::Tick { now: *now }, keep, lines)
            }
            Single::Restart { node } => self.cut_restart(x, *node, keep, lines),
        }
    }

    /// A settle of one delivery. Answers whether a datagram waited.
    pub(crate) fn settle_one(&mut self, lines: &mut Vec<Line>) -> Result<bool, WorldFault>
        requires sound { IsSound C.may_open self.old }
        ensures sound { OnOk result (IsSound C.may_open self.new) }
        ensures does { OnOk result ((world_of self.new, lines.new.items)
            ≡ onto lines.old.items (settle (deciding C.step C.written) 1 (world_of self.old))) }
        ensures waited { IfOk result (λ more. more ≡ is_some (least_waiting self.old.mail)) }
        ensures full { FullsBy (settle_overflow (deciding C.step C.written) 1 (world_of self.old)) result }
    {
        let Some(k) = self.mail.least() else {
            return Ok(false);
        };
        lines.push(Line::Delivery { k })?;
        self.deliver(k, lines)?;
        Ok(true)
    }

    // At most so many deliveries, each of the least datagram that waits.
    fn settle(&mut self, n: u64, lines: &mut Vec<Line>) -> Result<(), WorldFault>
        requires sound { IsSound C.may_open self.old }
        ensures sound { OnOk result (IsSound C.may_open self.new) }
        ensures does { OnOk result ((world_of self.new, lines.new.items)
            ≡ onto lines.old.items (settle (deciding C.step C.written) n (world_of self.old))) }
        ensures full { FullsBy (settle_overflow (deciding C.step C.written) n (world_of self.old)) result }
    {
        let mut left = n;
        while left > 0 {
            if !self.settle_one(lines)? {
                return Ok(());
            }
            left -= 1;
        }
        Ok(())
    }

    // An event, with its lines behind those before.
    #[tactic(auto, unfolding(crate::specs::World::applied, crate::specs::Overflows::event_overflow))]
    pub(crate) fn happen(&mut self, event: &Event, lines: &mut Vec<Line>) -> Result<(), WorldFault>
        requires sound { IsSound C.may_open self.old }
        ensures sound { OnOk result (IsSound C.may_open self.new) }
        ensures does { OnOk result ((world_of self.new, lines.new.items)
            ≡ onto lines.old.items (applied (deciding C.step C.written) C.opened (world_of self.old) event.now)) }
        ensures full { FullsBy (event_overflow (deciding C.step C.written) (world_of self.old) event.now) result }
    {
        match event {
            Event::Single(single) => self.single(single, lines),
            Event::Settle { n } => self.settle(*n, lines),
            Event::Crash { node } => self.crash(*node, lines),
            Event::During { node, e, keep } => self.during(*node, e, *keep, lines),
        }
    }

    // An event finds no room where the tables find none.
    fn overflows_as_tables(&self, event: &Event)
        ensures { OverflowsAsTables (deciding C.step C.written) C.opened (world_of self.now) event.now }
    {
        let _ = event;
        self.cfg.keeps_rules();
    }

    /// An event happens. Gives its lines behind the event's own. `Full` comes exactly where the journal of the node
    /// has no room for what the event makes it write.
    pub fn apply(&mut self, event: &Event) -> Result<LineList, WorldFault>
        requires sound { IsSound C.may_open self.old }
        ensures sound { OnOk result (IsSound C.may_open self.new) }
        ensures does { IfOk result (λ lines. (world_of self.new, lines)
            ≡ applied (deciding C.step C.written) C.opened (world_of self.old) event.now) }
        ensures stands { IfOk result (λ lines. StandsAfter (deciding C.step C.written) C.opened (world_of self.old)
            event.now (world_of self.new) lines) }
        ensures full { FullsBy (event_overflow (deciding C.step C.written) (world_of self.old) event.now) result }
        ensures tables { OverflowsAsTables (deciding C.step C.written) C.opened (world_of self.old) event.now }
    {
        self.overflows_as_tables(event);
        self.cfg.keeps_rules();
        let mut lines = Vec::new(self.alloc);
        self.happen(event, &mut lines)?;
        Ok(Items::from_vec(lines))
    }

    /// Lends the node that the world runs. `None` where it is down or isn't configured.
    pub fn node(&self, who: NodeId) -> Option<&Node<C, MemDisk>>
        requires sound { IsSound C.may_open self.now }
        ensures lent { IfSome result (λ node. IsLent (node_at (world_of self.now).nodes who) node.now) }
        ensures up { is_some result ≡ is_some (node_at (world_of self.now).nodes who).up }
        ensures stands { IfSome result (λ node. IsLentFor (world_of self.now) who node.now) }
        ensures none { IsUpFor (world_of self.now) who (is_some result) }
    {
        let Some(node) = lent(&self.nodes, who) else {
            return None;
        };
        Some(node)
    }

    /// Lends the configuration that the world runs under.
    pub fn config(&self) -> &Config
        ensures { result.now ≡ (world_of self.now).cfg }
    {
        &self.cfg
    }

    /// The bodies of the entries on the node's disk, whether the node is up or down: none where it isn't configured.
    /// They are read off a copy of the disk, which takes time and memory in all that was ever written to it.
    pub fn bodies(&self, who: NodeId) -> Result<BodyList, NoMemory>
        requires sound { IsSound C.may_open self.now }
        ensures { IfOk result (λ bodies. entries_of bodies ≡ (node_at (world_of self.now).nodes who).entries) }
    {
        bodies_of(self.alloc, &self.nodes, who)
    }

    /// How many values the log on the node's disk has, whether the node is up or down: 0 where it isn't configured.
    pub fn log_length(&self, who: NodeId) -> u64
        ensures { result ≡ (node_at (world_of self.now).nodes who).learned }
    {
        learned_by(&self.nodes, who)
    }
}
