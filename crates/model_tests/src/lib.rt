// Rows of calls, carried out by the world as a program: what comes back, and what is left.
#![tactic(auto)]

#[cfg(test)]
mod rows;
mod start;
