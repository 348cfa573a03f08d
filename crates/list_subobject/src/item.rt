// One subobject of a list, where its form is right: what it names, and where the next one starts.
ghost use Rattle.std.specs.Prelude.{◌≡◌, ◌+◌, ◌<◌};
ghost use Rattle.model.specs.Subobject.{length_at};
ghost use Rattle.list_subobject.specs.Items.{Readable, NamedIs, ItemAt};

use crate::types::{SubobjectType, type_there};
use model::NodeAddress;
use wire::{u16_at, u32_at, wide};

// What a subobject names. The bytes of an area, and those of a whole EXRS, are left where they stand: in the list, from `start` on.
#[derive(Clone, Copy)]
pub enum Named {
    Prefix {
        address: NodeAddress,
        bits: u8,
    },
    System {
        asn: u32,
    },
    Area {
        kind: u8,
        start: usize,
        count: usize,
    },
    Exrs {
        start: usize,
        count: usize,
    },
}

// A subobject: its offset, its top bit (L or X), what it names, and where the next one starts.
#[derive(Clone, Copy)]
pub struct Item {
    pub offset: usize,
    pub top: bool,
    pub named: Named,
    pub next: usize,
}

// What a subobject of right form names.
#[inline(always)]
fn named_at(list: &[u8], at: usize) -> Named
    requires { Readable list.now at }
    ensures { NamedIs list.now at result }
{
    match type_there(list, at) {
        SubobjectType::Prefix => Named::Prefix {
            address: NodeAddress(u32_at(list, at + 2)),
            bits: list[at + 6],
        },
        SubobjectType::WideSystem => Named::System {
            asn: u32_at(list, at + 4),
        },
        SubobjectType::OspfArea => Named::Area {
            kind: 1,
            start: at + 4,
            count: 4,
        },
        SubobjectType::IsisArea => Named::Area {
            kind: 2,
            start: at + 4,
            count: wide(list[at + 2]),
        },
        SubobjectType::Exrs => Named::Exrs {
            start: at,
            count: wide(list[at + 1]),
        },
        SubobjectType::System => Named::System {
            asn: u16_at(list, at + 2) as u32,
        },
    }
}

// Where the subobject after the one at an offset starts. Type 1 has the same length always; to know it without a look makes a long list faster.
#[inline(always)]
pub(crate) fn next_at(list: &[u8], at: usize) -> usize
    requires { Readable list.now at }
    ensures { result ≡ at + length_at list.now at }
{
    if list[at] % 128 == SubobjectType::Prefix as u8 {
        return at + 8;
    }
    at + wide(list[at + 1])
}

// The subobject at an offset where the form is right.
#[inline(always)]
pub(crate) fn item_at(list: &[u8], at: usize) -> Item
    requires { Readable list.now at }
    ensures { ItemAt list.now at result }
{
    Item {
        offset: at,
        top: 128 <= list[at],
        named: named_at(list, at),
        next: next_at(list, at),
    }
}
