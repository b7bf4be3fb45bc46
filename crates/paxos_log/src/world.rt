ghost use Rattle.std.specs.Prelude.{◌≡◌, ◌<◌, IfOk, OnErr, OnOk, length, option_map, slice_get};
ghost use Rattle.paxos_acceptor.specs.Seen.{pair_of};
ghost use Rattle.paxos_log.specs.World.{apply, cut_at, cut_while, delivered, falls, handles, happens, new_replica};
ghost use Rattle.paxos_log.specs.World.{reopens, replica, start, waiting};
ghost use Rattle.paxos_log.specs.declared.event.PaxosEvent.TheVariants.{Campaign, Offer};
ghost use Rattle.paxos_spec.specs.Acceptor.{state_of};
ghost use Rattle.paxos_spec.specs.Events.{or_quiet};

use crate::event::PaxosEvent;
use crate::posts::{Post, copy_of_mail, posts_of, take, waiting};
use crate::site::Site;
use paxos_replica::ReplicaStep;
use paxos_spec::Mail;
use std::alloc::Global;
use std::marker::Model;
use wire_core::{NoMemory, Value};

/// Five replicas of one log, and every message that was ever sent between them.
#[derive(Debug, Drop)]
pub struct PaxosWorld {
    alloc: Global,
    sites: [Site; 5],
    posts: Vec<Post>,
}

impl Model for PaxosWorld {
    ghost use Rattle.paxos_log.specs.World.{World};

    ghost Value = { World };

    ghost view = { λ w. record { replicas = w.sites; posts = w.posts.items } };
}

impl PaxosWorld {
    /// Five replicas that have done nothing.
    pub fn new(alloc: Global) -> PaxosWorld
        ensures { result ≡ start }
    {
        PaxosWorld {
            alloc,
            sites: [
                Site::new(alloc),
                Site::new(alloc),
                Site::new(alloc),
                Site::new(alloc),
                Site::new(alloc),
            ],
            posts: Vec::new(alloc),
        }
    }

    /// The ballot and value that this replica, from 0 to 4, learned at this slot. `None` exactly from its log's length
    /// on.
    pub fn learned(&self, i: u8, slot: u64) -> Option<(u64, Value<'_>)>
        requires { i < 5 }
        ensures { result ≡ option_map pair_of (slice_get (state_of (replica self.now i).entries).log slot) }
    {
        self.sites[usize::from(i)].learned(slot)
    }

    /// Every message that was ever sent, from the first on.
    pub fn posts(&self) -> &[Post]
        ensures { result.now ≡ self.now.posts }
    {
        self.posts.as_slice()
    }

    /// The event happens. One that names no replica, no message or no value changes nothing. Without memory nothing
    /// changed. A crash costs a step for each entry of the replica, and a look at each message; the others cost the
    /// same however long the world has run.
    pub fn step(&mut self, e: &PaxosEvent) -> Result<(), NoMemory>
        ensures ok { OnOk result (self.new ≡ happens self.old e.now) }
        ensures err { OnErr result (self.new ≡ self.old) }
    {
        match e {
            PaxosEvent::Campaign(i) => {
                if *i < 5 {
                    self.campaign(*i)?;
                }
            }
            PaxosEvent::Offer(i, bytes) => {
                if *i < 5 {
                    self.offer(*i, bytes.as_slice())?;
                }
            }
            PaxosEvent::Deliver(number) => {
                if *number > 0 {
                    self.deliver(*number - 1)?;
                }
            }
            PaxosEvent::Crash(i, false) => {
                if *i < 5 {
                    self.reopen(*i)?;
                }
            }
            PaxosEvent::Crash(i, true) => {
                if *i < 5 {
                    self.cut_short(*i)?;
                }
            }
        }
        Ok(())
    }

    /// The replica takes this step: its entry and its messages are kept.
    #[tactic(auto, unfolding(crate::specs::World::apply))]
    fn take(&mut self, i: u8, step: ReplicaStep) -> Result<(), NoMemory>
        requires { i < 5 }
        ensures ok { OnOk result (self.new ≡ apply self.old i step) }
        ensures err { OnErr result (self.new ≡ self.old) }
    {
        let mut posts = match step.said() {
            None => Vec::new(self.alloc),
            Some(said) => posts_of(self.alloc, said)?,
        };
        self.posts.reserve(posts.len())?;
        self.sites[usize::from(i)].take(self.alloc, step)?;
        self.posts.append(&mut posts).unwrap();
        Ok(())
    }

    /// The same, where there is a step.
    #[tactic(auto, using(crate::proofs::Posting::none_applied))]
    fn act(&mut self, i: u8, step: Option<ReplicaStep>) -> Result<(), NoMemory>
        requires { i < 5 }
        ensures ok { OnOk result (self.new ≡ apply self.old i (or_quiet (replica self.old i).memory step)) }
        ensures err { OnErr result (self.new ≡ self.old) }
    {
        match step {
            None => Ok(()),
            Some(step) => self.take(i, step),
        }
    }

    fn campaign(&mut self, i: u8) -> Result<(), NoMemory>
        requires { i < 5 }
        ensures ok { OnOk result (self.new ≡ happens self.old (Campaign i)) }
        ensures err { OnErr result (self.new ≡ self.old) }
    {
        let step = self.sites[usize::from(i)].campaign(i)?;
        self.act(i, step)
    }

    #[tactic(auto, unfolding(crate::specs::World::apply))]
    fn offer(&mut self, i: u8, bytes: &[u8]) -> Result<(), NoMemory>
        requires { i < 5 }
        ensures ok { OnOk result (self.new ≡ happens self.old (Offer i bytes.now)) }
        ensures err { OnErr result (self.new ≡ self.old) }
    {
        match Value::read(bytes) {
            Err(_) => Ok(()),
            Ok((value, len)) => {
                if len == bytes.len() {
                    let step = self.sites[usize::from(i)].offer(i, &value)?;
                    self.act(i, step)
                } else {
                    Ok(())
                }
            }
        }
    }

    /// The replica goes down and opens again.
    #[tactic(auto, unfolding(crate::specs::World::apply))]
    fn reopen(&mut self, i: u8) -> Result<(), NoMemory>
        requires { i < 5 }
        ensures ok { OnOk result (self.new ≡ reopens self.old i) }
        ensures err { OnErr result (self.new ≡ self.old) }
    {
        self.sites[usize::from(i)].reopen(self.alloc)
    }

    /// The replica handles the message of this place.
    #[tactic(auto, using(crate::proofs::Posting::set_front), unfolding(crate::specs::World::apply))]
    fn handle(&mut self, at: usize, i: u8, mail: Mail) -> Result<(), NoMemory>
        requires place { at < length self.old.posts }
        requires replica { i < 5 }
        ensures ok { OnOk result (self.new ≡ handles self.old at i mail) }
        ensures err { OnErr result (self.new ≡ self.old) }
    {
        let step = self.sites[usize::from(i)].on_mail(i, &mail)?;
        self.act(i, step)?;
        take(&mut self.posts, at, mail);
        Ok(())
    }

    /// The message of this place arrives, if there is one.
    fn deliver(&mut self, at: u64) -> Result<(), NoMemory>
        ensures ok { OnOk result (self.new ≡ delivered self.old at (slice_get self.old.posts at)) }
        ensures err { OnErr result (self.new ≡ self.old) }
    {
        let at = at as usize;
        match self.posts.get(at) {
            None => Ok(()),
            Some(post) => {
                let target = post.mail.target;
                if target >= 5 {
                    return Ok(());
                }
                let mail = copy_of_mail(self.alloc, &post.mail)?;
                self.handle(at, target, mail)
            }
        }
    }

    /// The replica goes down while it handles the message of this place: of its step the entry alone is kept.
    #[tactic(auto, using(crate::proofs::Posting::none_added), unfolding(crate::specs::World::apply))]
    fn fall(&mut self, at: usize, i: u8, mail: Mail) -> Result<(), NoMemory>
        requires place { at < length self.old.posts }
        requires replica { i < 5 }
        ensures ok { OnOk result (self.new ≡ falls self.old at i mail) }
        ensures err { OnErr result (self.new ≡ self.old) }
    {
        match self.sites[usize::from(i)].on_mail(i, &mail)? {
            None => self.reopen(i)?,
            Some(step) => self.sites[usize::from(i)].fall(self.alloc, step)?,
        }
        take(&mut self.posts, at, mail);
        Ok(())
    }

    /// The same, if there is such a message.
    fn cut_at(&mut self, i: u8, at: usize) -> Result<(), NoMemory>
        requires { i < 5 }
        ensures ok { OnOk result (self.new ≡ cut_at self.old i at (slice_get self.old.posts at)) }
        ensures err { OnErr result (self.new ≡ self.old) }
    {
        match self.posts.get(at) {
            None => self.reopen(i),
            Some(post) => {
                let mail = copy_of_mail(self.alloc, &post.mail)?;
                self.fall(at, i, mail)
            }
        }
    }

    /// The replica goes down while it handles the least message to it that was never delivered, if there is one.
    fn cut_short(&mut self, i: u8) -> Result<(), NoMemory>
        requires { i < 5 }
        ensures ok { OnOk result (self.new ≡ cut_while self.old i (waiting i self.old.posts)) }
        ensures err { OnErr result (self.new ≡ self.old) }
    {
        match waiting(&self.posts, i) {
            None => self.reopen(i),
            Some(at) => self.cut_at(i, at),
        }
    }
}
