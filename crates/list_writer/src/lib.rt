// A sequence of domains as a list: `write_list`.
#![tactic(auto)]

pub mod parts;
pub mod sizes;
pub mod writable;
pub mod writer;

// A sequence of domains as lent lists give it: of each domain its index, its mark, 1 where it has an entry constraint, that one's node, and how many of the EXRS' bytes
// are its own.
#[derive(Clone, Copy)]
pub struct Lent<'a> {
    pub indexes: &'a [u16],
    pub marks: &'a [u8],
    pub nodes: &'a [u32],
    pub counts: &'a [u32],
    pub exrs: &'a [u8],
}
