// One subobject of an include or exclude list, where its form is right: what it names, and the walk along a list.
#![tactic(auto)]

pub mod item;
pub mod types;
pub mod walk;
