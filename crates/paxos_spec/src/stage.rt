/// How far a replica is on the way to leading.
#[derive(Clone, Copy, Debug, PartialEq, Eq)]
pub enum Stage {
    /// It follows.
    Follower,
    /// It asked for promises at its ballot.
    Candidate,
    /// Three promised, and one of them has a longer log: it fetches what it lacks.
    Catching,
    /// It proposes a value again that a lower ballot may have chosen.
    Inheriting,
    /// It may propose: its log has every slot that a lower ballot chose, or ever will.
    Primary,
}
