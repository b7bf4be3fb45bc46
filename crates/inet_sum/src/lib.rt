//! The Internet checksum (RFC 1071): the one's complement of the one's complement sum of 16-bit words.
//!
//! IPv4 headers (RFC 791), TCP segments (RFC 9293) and UDP datagrams (RFC 768) carry it. Where it is right, the sum
//! over everything that it covers, itself included, is FFFF.
//!
//! | call | answers |
//! |---|---|
//! | [`ones_sum`], [`ones_sum_parts`] | the sum, as a receiver tests it |
//! | [`checksum`], [`checksum_parts`] | its complement, as a sender writes it |
//!
//! The sum is worked out eight bytes at a time: two sums of 32-bit halves, whose carries are folded in at the end.
//! RFC 1071 calls this deferring the carries, and notes that the order of the bytes within a word doesn't matter
//! but for one swap at the end. The contracts know nothing of it: each result is the definition's.
#![tactic(auto)]

mod blocks;
mod sums;

pub use sums::{checksum, checksum_parts, ones_sum, ones_sum_parts};

#[cfg(test)]
mod tests;
