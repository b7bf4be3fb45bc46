use wire_core::{ActList, NoteList, SendList};

/// What a step of a node tells.
#[derive(Debug, Drop)]
pub struct Stepped {
    /// How many values the node's log then has.
    pub learned: u64,
    pub acts: ActList,
    pub notes: NoteList,
    pub sends: SendList,
}
