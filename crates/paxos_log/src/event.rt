use wire_core::ValueBytes;

/// What may happen next to five replicas and their messages.
#[derive(Debug, Drop)]
pub enum PaxosEvent {
    /// This replica runs for election, unless it is primary.
    Campaign(u8),
    /// These bytes are offered to this replica, which proposes them where they spell a value, it is primary and nothing
    /// is outstanding.
    Offer(u8, ValueBytes),
    /// The message of this number arrives, once more perhaps. The first that was ever sent has number 1.
    Deliver(u64),
    /// This replica goes down and opens again from its entries. Where the flag is set, it goes down while it handles
    /// the least message to it that was never delivered: the entry of that step is kept, and its messages are never
    /// sent.
    Crash(u8, bool),
}
