//! The windows to the outside: all that the program reads, writes, sends, stores and asks of the time goes through
//! these traits.
//!
//! | trait | is | tells, where it is known |
//! |---|---|---|
//! | [`Source`] | a stream of bytes to read | what is left |
//! | [`Sink`] | a stream of bytes to write | what was written |
//! | [`Link`] | a socket for datagrams | each answer of `next`, each datagram handed to `send` |
//! | [`Disk`] | a file that a crash may tear | what a read gives, what a crash may leave now and at each moment |
//! | [`Clock`] | the time in milliseconds | its answers |
//! | [`Host`] | what hands out links and disks | what it was asked for, what it handed out, what it took back |
//!
//! Each object counts its faults, and the count never falls. A call answers [`Failed`] only where a count rose in that
//! call, so that no caller can blame an object that did its part. A count stands still at its greatest value.
//!
//! | objects | for |
//! |---|---|
//! | [`MemSource`], [`MemSink`], [`MemClock`] | tests and replays: data in memory, with the calls that are to fail |
//! | [`MemLink`], [`MemHost`] | the same for links and a host; both keep their calls; its disks are [`Snapshot`]s |
//! | [`SureSource`], [`SureSink`] | streams that never fail; the sink keeps nothing |
//! | [`Reading`], [`Writing`] | any reader and writer of std |
//! | [`NoHost`], [`NoLink`], [`NoDisk`] | a program that needs none: each call fails |
//!
//! What a real file, socket or terminal holds is not known, so its adapter tells nothing of content.
#![tactic(auto)]

mod adapters;
mod clock;
mod disk;
mod failed;
mod host;
mod laws;
mod link;
mod mem_host;
mod mem_link;
mod memory;
mod nothing;
mod snapshot;
mod streams;
mod sure;
#[cfg(test)]
mod tests;

pub use adapters::{Reading, Writing};
pub use clock::{Clock, MemClock};
pub use disk::{Disk, Span};
pub use failed::Failed;
pub use host::Host;
pub use laws::a_call_keeps_the_images_before_it;
pub use link::{Arrival, Link, MAX_DATAGRAM};
pub use mem_host::{KeptCall, LinkScript, MemHost, NamedDisk};
pub use mem_link::{MemAnswer, MemLink, SentDatagram};
pub use memory::{MemSink, MemSource};
pub use nothing::{NoDisk, NoHost, NoLink};
pub use snapshot::Snapshot;
pub use streams::{Sink, Source};
pub use sure::{SureSink, SureSource};
