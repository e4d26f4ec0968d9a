// An assembler for RV32I: lines of a program, as the bytes of a page.
#![tactic(auto)]

mod encoding;
mod lines;
mod registers;

pub use encoding::encode;
pub use lines::{Line, assemble};
pub use registers::{A0, A1, A2, A3, A4, A5, A6, A7, RA, S0, S1, SP, T0, T1, T2, T3, T4, ZERO};
