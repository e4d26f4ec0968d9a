// The ring of full slots on the board: what was made from what. Each slot is followed by what was made from it, deeper.
#![tactic(auto)]

pub mod laws;
mod links;
mod walks;

pub use links::{insert_after, shift};
pub use walks::{sweep, take_out};
