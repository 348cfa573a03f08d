// Where an entry node stands in one domain's part of the tree, by halving: its addresses ascend, so the entry in the middle says on which side to go on.
#![tactic(auto)]

ghost use Rattle.std.specs.Prelude.{◌≡◌, suc, ◌<◌, length, get_or};
ghost use Rattle.tree_lookup.specs.LookUp.{Part, Found};

use model::NodeAddress;

// Where an address stands, and how many entries were looked at to find it.
#[derive(Clone, Copy)]
pub struct LookUp {
    pub place: Option<usize>,
    pub looks: u32,
}

// The address of the entry looked at, and the looks so far.
#[derive(Clone, Copy)]
struct Seen {
    pub address: u32,
    pub looks: u32,
}

// One look at an entry, and it is counted; there is none after five. Entries are read here alone.
fn look(addresses: &[u32], i: usize, looks: u32) -> Seen
    requires { (i < length addresses.now) × (looks < 5) }
    ensures { (result.address ≡ get_or addresses.now i 0) × (result.looks ≡ suc looks) }
{
    Seen {
        address: addresses[i],
        looks: looks + 1,
    }
}

// Where a node stands among the `count` entries from place `at` on.
pub fn find_entry(addresses: &[u32], at: usize, count: usize, node: NodeAddress) -> LookUp
    requires { Part addresses.now at count }
    ensures { Found addresses.now at count node.0 result }
{
    let mut low = at;
    let mut high = at + count;
    let mut looks: u32 = 0;
    while low < high {
        let middle = low + (high - low) / 2;
        let seen = look(addresses, middle, looks);
        let here = NodeAddress(seen.address);
        looks = seen.looks;
        if here == node {
            return LookUp {
                place: Some(middle),
                looks,
            };
        }
        if here < node {
            low = middle + 1;
        } else {
            high = middle;
        }
    }
    LookUp { place: None, looks }
}
