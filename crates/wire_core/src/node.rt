/// A node by its role and its place in the configuration's list of that role, from 0.
#[derive(Clone, Copy, Debug, PartialEq, Eq, PartialOrd, Ord, Hash)]
pub enum NodeId {
    Replica(u8),
    Mux(u16),
    Agent(u16),
}
