// Images, written field by field, for tests.
#![tactic(auto)]

mod builder;

pub use builder::ImageBuilder;
