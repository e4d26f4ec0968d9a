// The abstract world as a program: vectors of objects, with numbers and births that are never used again.
#![tactic(auto)]

mod calls;
mod cuts;
mod ends;
mod events;
mod lends;
mod marks;
mod meets;
mod objects;
mod parts;
mod revokes;
mod says;
mod spaces;
mod sweeps;
mod theorems;
mod threads;

pub use ends::{CallError, Outcome, Refused};
pub use marks::{LentMarks, Marks};
pub use objects::{Capability, Fault, Letter, Mapping, Object, State, Thread, Wait, World};
pub use theorems::{
    always_left, calls_agree, events_agree, rows_agree, says_agree, small_is_sound, stays_full,
    stays_sound,
};
