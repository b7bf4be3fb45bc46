//! Plain schedules: one lease table and its connections without nodes, driven by lines of text.
//!
//! The first line is `plain`. Empty lines and lines that begin with `#` are skipped.
//!
//! | line | what it does | what it prints |
//! |---|---|---|
//! | `vip ADDRESS LOW HIGH` | the ports of a new VIP may be leased from now on | nothing |
//! | `ask VIP MACHINE` | one slot of the log: the machine asks for a range | `leased N START` or `exhausted PLACE` |
//! | `return N` | one slot: lease N is released and freed, and its connections end | `freed N`, or `unknown N` |
//! | `packet HEX` | a machine sends a packet, through its connection or a new one | `public HEX`, or `drop CAUSE` |
//! | `reply HEX` | a remote end answers with a packet | `machine ADDRESS HEX`, or `drop CAUSE` |
//!
//! [`plain_lines`] reads the whole text and answers all that it prints, or its first bad line. What a text prints is
//! the definition `plain_lines` of `specs/Schedule.antt`: a fold of the lines over the lease table and the connections
//! that were opened. A connection stands while its lease does. At each moment of every text no two machines hold one
//! range, no two live connections share the numbers of their packets on either side, and a reply reaches the machine
//! that opened its connection and no other: [`always_safe`].
#![tactic(auto)]

mod choice;
mod connections;
mod full_leases;
mod laws;
mod line;
mod packets;
mod replay;
mod state;

pub use connections::{Connection, Connections};
pub use laws::always_safe;
pub use line::Line;
pub use replay::{PlainFault, plain_lines};

#[cfg(test)]
mod tests;
