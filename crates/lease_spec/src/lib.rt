//! What the log means: the lease table as a fold of commands at places, and all that the commands did.
//!
//! | subject | file of `specs/` |
//! |---|---|
//! | places of commands in a log | `Places` |
//! | the least free range of a VIP | `Free` |
//! | the table, one command, a list of commands | `Table` |
//! | the life of a lease: born, granted, dying, gone | `Lives` |
//! | who holds a range | `Holders` |
//! | what rows, outcomes and the order of effects say of what was done | `Truths` |
//! | what an effect says of the table just before its command | `Moments` |
//! | what only rises | `Rises` |
//! | nothing comes back | `Once` |
//!
//! The table says what stands now. The effects say all that was ever done, in order: they are the history of which
//! every safety fact above speaks. What was done stays done, each effect has its command, a lease that was born stands
//! or is gone, of two leases on one range the earlier one is gone, and nothing comes back: [`lives`]. No two leases
//! that stand are on one range, and no machine has more than the limit: [`holders`]. Rows and outcomes say what was
//! done, and effects come in the order of a life, each true of the table just before its command: [`truths`]. Known
//! boots and last pairs only rise: [`rises`]. What the least free range is says [`least_free`], and that a table grows
//! slot by slot says [`slots`].
#![tactic(auto)]

mod effect;
mod laws;
mod row;

pub use effect::{Effect, EffectList};
pub use laws::{holders, least_free, lives, rises, slots, truths};
pub use row::{Outcome, Phase, Row};
