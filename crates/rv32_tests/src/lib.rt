// Tests of the core: each instruction at its corner cases, and programs that were compiled for RV32I.
#![tactic(auto)]

#[cfg(test)]
mod compiled;
#[cfg(test)]
mod instructions;
mod ram;
mod ticks;
