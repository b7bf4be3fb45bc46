//! What a mux looks up for a packet and for a command, each by a hash.
//!
//! | type | what one look-up tells |
//! |---|---|
//! | [`Ranges`] | whether a range may be leased, its kept number, and the machine of its row |
//! | [`Endpoints`] | whether there is an endpoint, and the machine that a hash chooses |
//! | [`Vips`] | whether an address is a VIP |
//! | [`Leaving`] | whether a machine's connections leave from a VIP |
#![tactic(auto)]

mod endpoints;
mod leaving;
mod ranges;
mod vips;

pub use endpoints::Endpoints;
pub use leaving::Leaving;
pub use ranges::Ranges;
pub use vips::Vips;

#[cfg(test)]
mod tests;
