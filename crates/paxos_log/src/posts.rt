ghost use Rattle.std.specs.Prelude.{◌≡◌, ◌<◌, Some, map, position, slice_set, true, vec_len, IfOk};
ghost use Rattle.paxos_log.specs.World.{posted, waits_for};
ghost use Rattle.paxos_replica.specs.Seen.{mails_of};

use paxos_replica::Said;
use paxos_spec::{Body, Mail};
use std::alloc::Global;
use wire_core::NoMemory;

/// A message that was sent, and whether it was ever delivered.
#[derive(Debug, Drop)]
pub struct Post {
    pub mail: Mail,
    pub taken: bool,
}

/// A copy of what is said.
fn copy_of_body(alloc: Global, body: &Body) -> Result<Body, NoMemory>
    ensures { IfOk result (λ copy. copy ≡ body.now) }
{
    Ok(match body {
        Body::Prepare { ballot } => Body::Prepare { ballot: *ballot },
        Body::Promise {
            ballot,
            length,
            vote,
            value,
        } => Body::Promise {
            ballot: *ballot,
            length: *length,
            vote: *vote,
            value: match value {
                None => None,
                Some(value) => Some(value.copy(alloc)?),
            },
        },
        Body::Accept {
            ballot,
            slot,
            value,
        } => Body::Accept {
            ballot: *ballot,
            slot: *slot,
            value: value.copy(alloc)?,
        },
        Body::Accepted { ballot, slot } => Body::Accepted {
            ballot: *ballot,
            slot: *slot,
        },
        Body::Refuse { ballot, promised } => Body::Refuse {
            ballot: *ballot,
            promised: *promised,
        },
        Body::Chosen {
            slot,
            ballot,
            value,
        } => Body::Chosen {
            slot: *slot,
            ballot: *ballot,
            value: value.copy(alloc)?,
        },
        Body::Fetch { slot } => Body::Fetch { slot: *slot },
    })
}

/// A copy of the message.
pub fn copy_of_mail(alloc: Global, mail: &Mail) -> Result<Mail, NoMemory>
    ensures { IfOk result (λ copy. copy ≡ mail.now) }
{
    Ok(Mail {
        sender: mail.sender,
        target: mail.target,
        body: copy_of_body(alloc, &mail.body)?,
    })
}

/// What a step says, to each of its recipients.
pub fn posts_of(alloc: Global, said: &Said) -> Result<Vec<Post>, NoMemory>
    ensures { IfOk result (λ posts. posts.items ≡ map posted (mails_of (Some said.now))) }
{
    let mut posts = Vec::new(alloc);
    for target in said.recipients() {
        let body = copy_of_body(alloc, &said.body)?;
        posts.push(Post {
            mail: Mail {
                sender: said.sender,
                target: *target,
                body,
            },
            taken: false,
        })?;
    }
    Ok(posts)
}

/// The message of this place counts as delivered.
pub fn take(posts: &mut Vec<Post>, at: usize, mail: Mail)
    requires { at < vec_len posts.old }
    ensures { posts.new.items ≡ slice_set posts.old.items at (record { mail = mail; taken = true }) }
{
    posts[at] = Post { mail, taken: true };
}

/// The place of the least message to this replica that was never delivered. Costs a look at each message before it.
pub fn waiting(posts: &[Post], me: u8) -> Option<usize>
    ensures { result ≡ position (waits_for me) posts.now }
{
    posts
        .iter()
        .position(|post| post.mail.target == me && !post.taken)
}
