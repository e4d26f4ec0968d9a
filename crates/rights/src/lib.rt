// The vocabulary of the kernel: rights, kinds of objects, calls, refusals and what comes back.
// The abstract world that they speak of is specs/World.antt.
#![tactic(auto)]

mod answers;
mod bits;
mod calls;
mod kinds;
mod refusals;
mod said;

pub use answers::Answer;
pub use bits::{Rights, UnknownRights};
pub use calls::{Call, NewObject};
pub use kinds::{Kind, UnknownKind};
pub use refusals::Refusal;
pub use said::Said;
