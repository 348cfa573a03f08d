// What an include list means on any profile: `read_include`.
#![tactic(auto)]

pub mod exrs;
pub mod read;
