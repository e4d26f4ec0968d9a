// The world that an image means, made.
#![tactic(auto)]

mod errors;
mod objects;
mod places;
mod rows;
mod runs;
mod slots;
mod starts;
#[cfg(test)]
mod tests;
mod threads;

pub use errors::StartError;
pub use rows::carry_out_row;
pub use runs::{FRAMES, Replayed, run, run_inputs};
pub use starts::start;
