// The kernel: the start from an image, and rows of events.
#![tactic(auto)]

mod find;
mod steps;
pub mod theorems;

pub use find::{find_line, find_thread};
pub use steps::{Event, carry_out, come_in, step, tick};
