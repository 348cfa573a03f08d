// The header and the records of a profile, read by value; and the area of a domain record beside one that a list names.
#![tactic(auto)]

pub mod area;
pub mod domain;
pub mod header;
pub mod hop;
pub mod layout;
