// The reserved ranges of AS numbers (RFC 5398) and of addresses (RFC 5737), and what the two classes of profile ask; the AS numbers that are nobody's.
#![tactic(auto)]

ghost use Rattle.std.specs.Prelude.{◌≡◌, cond, not, ◌&&◌, eqb, leb};
ghost use Rattle.std.specs.List.{list_any};
ghost use Rattle.model.specs.Reserved.{as_ranges, address_ranges, misplaced, nobodys};

use model::NodeAddress;

// The first and the last number of a range.
#[derive(Clone, Copy)]
pub struct Range {
    pub first: u32,
    pub last: u32,
}

// AS numbers, then addresses.
const RESERVED: [Range; 5] = [
    Range {
        first: 64496,
        last: 64511,
    },
    Range {
        first: 65536,
        last: 65551,
    },
    Range {
        first: 0xC0000200,
        last: 0xC00002FF,
    },
    Range {
        first: 0xC6336400,
        last: 0xC63364FF,
    },
    Range {
        first: 0xCB007100,
        last: 0xCB0071FF,
    },
];

impl Range {
    fn contains(self, x: u32) -> bool
        ensures { result ≡ leb self.first x && leb x self.last }
    {
        (self.first <= x) & (x <= self.last)
    }
}

// Whether x lies in one of these ranges.
fn lies_in(ranges: &[Range], x: u32) -> bool
    ensures { result ≡ list_any (λ (r : Range). leb r.first x && leb x r.last) ranges.now }
{
    ranges.iter().any(|range| range.contains(x))
}

// What the class asks of a number that lies inside the ranges or not: wrong outside them in class 0, and inside them in class 1.
fn misplaced_by(class: u8, inside: bool) -> bool
    ensures { result ≡ cond (eqb class 0) (not inside) inside }
{
    if class == 0 {
        return !inside;
    }
    inside
}

// An AS number from the wrong ranges.
pub fn as_misplaced(class: u8, x: u32) -> bool
    ensures { result ≡ misplaced class as_ranges x }
{
    misplaced_by(class, lies_in(&RESERVED[..2], x))
}

// An address from the wrong ranges.
pub fn address_misplaced(class: u8, x: NodeAddress) -> bool
    ensures { result ≡ misplaced class address_ranges x.0 }
{
    misplaced_by(class, lies_in(&RESERVED[2..], x.0))
}

// AS 0 (RFC 7607) and AS_TRANS, 23456 (RFC 6793), in no class and in no list.
pub fn as_nobodys(x: u32) -> bool
    ensures { result ≡ nobodys x }
{
    (x == 0) | (x == 23456)
}
