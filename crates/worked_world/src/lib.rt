//! The worked run, from the first tick to the reply that its machine gets, as the world's transcript.
#![tactic(auto)]

mod laws;

pub use laws::worked_transcript;
