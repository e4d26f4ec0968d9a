// Whole programs, run from images: what they say, and what is left. What is expected is worked out by
// hand from the rules of the calls and the core, and the working stands beside each.
#![tactic(auto)]

#[cfg(test)]
mod caller;
#[cfg(test)]
mod lines;
#[cfg(test)]
mod lists;
#[cfg(test)]
mod pages;
#[cfg(test)]
mod pools;
#[cfg(test)]
mod ports;
#[cfg(test)]
mod refusals;
#[cfg(test)]
mod rows;
mod setting;
#[cfg(test)]
mod threads;
#[cfg(test)]
mod trial;
mod turns;
