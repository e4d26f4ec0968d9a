// Tests of spaces and lines, as they run.
#![tactic(auto)]

#[cfg(test)]
mod spaces;
