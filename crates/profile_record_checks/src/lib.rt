// The checks that the header and each record of a profile pass by themselves or beside the record before: numbers 10 to 18.
#![tactic(auto)]

pub mod domain;
pub mod header;
pub mod hop;
pub mod run;
