//! The ground: addresses, port ranges, flows, nodes, the rules of leasing, and the values of the log.
//!
//! Everything above promises in these words. A number on the wire or on disk is big-endian.
//!
//! | module | what a reader finds |
//! |---|---|
//! | `address` | [`Ip4`], [`Socket`] |
//! | `flow` | [`Proto`], [`FlowKey`] |
//! | `range` | [`Range`]: eight contiguous ports of a VIP |
//! | `rules`, `leasable` | [`LeaseRules`]: which ranges may be leased, and by whom |
//! | `same` | when two keys are the same |
//! | `command`, `value`, `builder` | [`Command`], [`Value`], [`ValueBuilder`]: what the managers agree on |
//! | `entry` | [`Entry`]: what a node makes durable |
//! | `input`, `step` | [`Input`]: what a node handles at once; [`Step`]: what it then does |
//! | `act`, `note`, `outgoing`, `connection` | what a step is made of |
//! | `numbers`, `reading`, `writing` | numbers in bytes, fields from the left, appended fields |
//! | `items` | [`Items`]: a `Vec` that contracts see as a list |
#![tactic(auto)]

mod act;
mod address;
mod builder;
mod cause;
mod command;
mod connection;
mod entry;
mod flow;
mod fnv;
mod input;
mod items;
mod laws;
mod leasable;
mod memory;
mod node;
mod note;
mod numbers;
mod outgoing;
mod owned;
mod range;
mod reading;
mod rules;
mod same;
mod step;
mod value;
mod writing;

pub use act::{Act, ActList, PacketBytes};
pub use address::{Ip4, Socket};
pub use builder::ValueBuilder;
pub use cause::DropCause;
pub use command::{Command, MuxBoot};
pub use connection::Conn;
pub use entry::{BodyList, Entry, EntryBytes};
pub use flow::{FlowKey, Proto};
pub use input::Input;
pub use items::Items;
pub use laws::{entry_spelling, value_spelling};
pub use memory::NoMemory;
pub use node::NodeId;
pub use note::{Note, NoteList};
pub use numbers::{read_u16, read_u32, read_u64};
pub use outgoing::{FrameBytes, Outgoing, SendList};
pub use owned::{OwnedValue, is_same_value};
pub use range::Range;
pub use reading::{FieldFault, take_count, take_u8, take_u16, take_u32, take_u64};
pub use rules::{LeaseRules, MachineRule, MachineRuleList, PortList, VipRule, VipRuleList};
pub use same::{equality_is_sameness, sameness_is_equality};
pub use step::Step;
pub use value::{Value, ValueBytes, ValueFault, take_value};
pub use writing::{put_bytes, put_u8, put_u16, put_u32, put_u64};

#[cfg(test)]
mod tests;
