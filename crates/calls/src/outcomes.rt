// How a call ends.
use rights::{Answer, Said};

// An answer comes back, or a byte is said, and 0 comes back.
#[derive(Clone, Copy, Debug, PartialEq, Eq)]
pub enum Outcome {
    Answered(Answer),
    Said(Said),
}

// A thread may not do what it asks for.
#[derive(Clone, Copy, Debug, PartialEq, Eq)]
pub struct Refused;
