// Tests of the board against bytes that are written out by hand from the layout of a slot.
#![tactic(auto)]

#[cfg(test)]
mod layout;
