//! What an IPv4 packet with a TCP or UDP segment is, as definitions: the words in which every contract on packets
//! is written. The only code here is the types that these definitions share with the code above, the reading and
//! writing of a 16-bit word and an address, and the cause of a fault.
//!
//! | file of `specs/` | what it defines | standard |
//! |---|---|---|
//! | `Words` | bytes and 16-bit words by their place, and what a write leaves | RFC 791, appendix B |
//! | `Sums` | the one's complement sum and the checksum | RFC 1071, section 1 |
//! | `Folds` | the plain sum of the words, and the carries folded in at the end | RFC 1071, section 2 |
//! | `Headers` | the fields of the IPv4 header, and its faults in order | RFC 791, section 3.1 |
//! | `Segments` | TCP and UDP segments, the pseudo-header, and their faults in order | RFC 9293, section 3.1; RFC 768 |
//! | `Options` | where a TCP segment carries its maximum segment size | RFC 9293, section 3.2 |
//! | `Packets` | a whole packet: its first fault, its key, its flags | |
//! | `Edits` | source or destination set, the maximum segment size clamped, the sums computed | |
//! | `Layouts` | a layout within so many bytes | |
//! | `Causes` | why a packet with a fault is dropped, and how a cause is printed | |
//! | `Laws` | what each edit makes of a packet: [`edits_of_packets`], [`whole_packets`] | |
//!
//! A packet is the list of its bytes. Bytes past its total length are no part of it.
#![tactic(auto)]

mod cause;
mod fault;
mod header;
mod laws;
mod layout;
mod options;
mod words;

pub use cause::{cause_name, ip_cause, packet_cause};
pub use fault::{IpFault, PacketFault, SegmentFault};
pub use header::Ip4Header;
pub use laws::{edits_of_packets, whole_packets};
pub use layout::Layout;
pub use options::OptionStep;
pub use words::{address_at, address_words, put_address, put_word, word_at, word_bytes};
