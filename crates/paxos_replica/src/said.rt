ghost use Rattle.std.specs.Prelude.{◌≡◌, ◌==◌, ◌∷◌, [], Some, not, filter, IfOk};
ghost use Rattle.paxos_replica.specs.Seen.{mails_of, recipients_of};
ghost use Rattle.paxos_spec.specs.Five.{five};
ghost use Rattle.paxos_spec.specs.Replica.{accept_out, mail};

use paxos_leader::Leader;
use paxos_spec::Body;
use std::alloc::Global;
use std::array::from_ref;
use wire_core::{NoMemory, OwnedValue};

/// All five replicas.
const FIVE: [u8; 5] = [0, 1, 2, 3, 4];

/// To which replicas something is said.
#[derive(Clone, Copy, Debug, PartialEq, Eq)]
pub enum Recipients {
    /// To this one, from 0 to 4.
    One(u8),
    /// To all five.
    All,
    /// To all but the sender.
    Others,
}

/// What a replica says, to each recipient alike.
#[derive(Debug, Drop)]
pub struct Said {
    /// Who says it, from 0 to 4.
    pub sender: u8,
    pub recipients: Recipients,
    pub body: Body,
}

/// All replicas but this one.
fn others(me: u8) -> &'static [u8]
    ensures { result.now ≡ filter (λ i. not (i == me)) five }
{
    match me {
        0 => &[1, 2, 3, 4],
        1 => &[0, 2, 3, 4],
        2 => &[0, 1, 3, 4],
        3 => &[0, 1, 2, 4],
        4 => &[0, 1, 2, 3],
        _ => &FIVE,
    }
}

/// The Accept of what is outstanding, to all five, for the slot at the log's end.
pub fn accepts(alloc: Global, me: u8, at: u64, leader: &Leader) -> Result<Option<Said>, NoMemory>
    ensures { IfOk result (λ said. mails_of said ≡ accept_out me at leader.now) }
{
    match leader.outstanding() {
        None => Ok(None),
        Some(value) => Ok(Some(Said {
            sender: me,
            recipients: Recipients::All,
            body: Body::Accept {
                ballot: leader.ballot(),
                slot: at,
                value: OwnedValue::of(alloc, &value)?,
            },
        })),
    }
}

impl Said {
    /// This is said to one replica.
    pub(crate) fn to(sender: u8, body: Body, target: u8) -> Said
        ensures { mails_of (Some result) ≡ mail sender body target ∷ [] }
    {
        Said {
            sender,
            recipients: Recipients::One(target),
            body,
        }
    }

    /// The recipients, in ascending order.
    pub fn recipients(&self) -> &[u8]
        ensures { result.now ≡ recipients_of self.now.sender self.now.recipients }
    {
        match &self.recipients {
            Recipients::One(target) => from_ref(target).as_slice(),
            Recipients::All => &FIVE,
            Recipients::Others => others(self.sender),
        }
    }
}
