// The RV32I core: what one instruction does.
#![tactic(auto)]

mod arithmetic;
mod decoding;
mod forms;
mod loads;
mod registers;
mod steps;
mod theorems;

pub use arithmetic::{computed, holds};
pub use decoding::decode;
pub use forms::{Comparison, Instruction, Loading, Operation, Width};
pub use loads::{Memory, loaded};
pub use registers::Cpu;
pub use steps::{Step, act};
pub use theorems::{
    accounts, examples, one_page, reads_back, reads_named, starts_sound, stays_sound, stops_as_new,
    stores_inside, zero_register,
};
