// The board, which is the lent memory: units of 64 bytes, the slots and links in them, and the parts
// that belong to one object.
#![tactic(auto)]

mod counted;
pub mod links;
pub mod parts;
mod slots;
pub mod theorems;
mod words;

pub use counted::Board;
pub use slots::{Capability, Object, put_slot, slot_at};
pub use words::there;
