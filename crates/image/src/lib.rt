// Images and rows of events: whether they are taken, and if not, why and where.
#![tactic(auto)]

mod census;
mod content;
mod fields;
mod files;
mod frames;
mod headers;
mod limits;
mod rows;
mod theorems;
mod verdicts;

pub use census::{Census, Kinds};
pub use fields::{one, two};
pub use files::{EVENTS_LIMIT, IMAGE_LIMIT, Inputs, Part, Unreadable};
pub use frames::{frames_for, place_of};
pub use headers::{Image, head_at, kind_of, size_at};
pub use limits::{check_events_part, check_part};
pub use rows::check_events;
pub use theorems::{
    decided_early, event_faults_told, events_limit_holds, faults_told, goes_on, holds_all,
    instances, length_by_headers, lies_apart, limit_holds, means_allowed, never_taken, one_length,
    rows_named,
};
pub use verdicts::{check, check_with};
