// Tests of the ring against links that are worked out by hand.
#![tactic(auto)]

#[cfg(test)]
mod rings;
