// The calls of threads, over the board and what lies beside it.
#![tactic(auto)]

mod capabilities;
mod dispatch;
mod lines;
mod outcomes;
mod slots;
pub mod theorems;
mod threads;

pub use dispatch::call;
pub use outcomes::Outcome;
