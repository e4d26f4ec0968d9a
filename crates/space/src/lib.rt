// What lies beside the board: threads with their spaces, and lines.
#![tactic(auto)]

mod bytes;
mod entries;
mod lines;
mod side;
mod tables;
pub mod theorems;

pub use bytes::{Space, store};
pub use entries::{Entry, Mapping};
pub use lines::Line;
pub use side::{Side, State, Table, Thread, sizes, unmap_everywhere};
pub use tables::PageTables;
