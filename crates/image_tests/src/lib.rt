// Tests of the check of images and of rows of events. What is expected is worked out by hand from
// the format; no test asks the code under test where something lies.
#![tactic(auto)]

#[cfg(test)]
mod cuts;
#[cfg(test)]
mod faults;
#[cfg(test)]
mod fits;
mod images;
#[cfg(test)]
mod limits;
#[cfg(test)]
mod outcome;
#[cfg(test)]
mod rows;
#[cfg(test)]
mod values;
