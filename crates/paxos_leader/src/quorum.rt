ghost use Rattle.std.specs.Prelude.{◌≡◌, ◌<◌, length, nat_le};
ghost use Rattle.paxos_spec.specs.Five.{has, how_many, joined, nobody};

/// Which of the five replicas.
pub type Members = [bool; 5];

/// None of them.
pub const NOBODY: Members = [false; 5];

/// How many of them make a majority.
const MAJORITY: usize = 3;

/// Whether the replica is one of them.
pub fn has(members: &Members, i: u8) -> bool
    requires { i < 5 }
    ensures { result ≡ has members.now i }
{
    members[usize::from(i)]
}

/// With one replica more.
pub fn joined(members: &Members, i: u8) -> Members
    requires { i < 5 }
    ensures { result ≡ joined members.now i }
{
    let mut more = *members;
    more[usize::from(i)] = true;
    more
}

/// How many they are.
#[tactic(auto, using(crate::proofs::Members::counted_members))]
fn how_many(members: &[bool]) -> usize
    ensures { result ≡ how_many members.now }
{
    members.iter().filter(|is_member| **is_member).count()
}

/// Whether they are a majority of the five.
pub fn is_majority(members: &Members) -> bool
    ensures { result ≡ nat_le 3 (how_many members.now) }
{
    how_many(members) >= MAJORITY
}
