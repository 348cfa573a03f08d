// Addresses kept ascending in a part of a list: where one stands, and one put in.
ghost use Rattle.std.specs.Prelude.{◌≡◌, ◌&&◌, ◌∷◌, ◌+◌, ◌≤◌, ◌<◌, eqb, ltb, length, get_or};
ghost use Rattle.std.proofs.Math.Seq.{slice};
ghost use Rattle.model.specs.Lists.{insert};
ghost use Rattle.tree_levels.specs.Entries.{FoundNode, placed};

use model::NodeAddress;

// Whether the cell at `at`, if it is before `end`, has this node.
pub fn is_at(addresses: &[u32; 242], at: usize, end: usize, node: NodeAddress) -> bool
    requires { end ≤ 242 }
    ensures { result ≡ ltb at end && eqb (get_or addresses.now at 0) node.0 }
{
    at < end && addresses[at] == node.0
}

// The first cell from `from` on, before `end`, whose address isn't below the node; else `end`.
fn seek(addresses: &[u32; 242], from: usize, end: usize, node: NodeAddress) -> usize
    requires { (from ≤ end) × (end ≤ 242) }
    ensures { FoundNode addresses.now from end node.0 result }
{
    for at in from..end {
        if node.0 <= addresses[at] {
            return at;
        }
    }
    end
}

// The node into the cell at `at`, and what stands from there up to `end` one cell further.
fn put_before(addresses: &mut [u32; 242], at: usize, end: usize, node: NodeAddress)
    requires { (at ≤ end) × (end < 242) × (length addresses.old ≡ 242) }
    ensures { addresses.new ≡ placed at (node.0 ∷ slice at end addresses.old) addresses.old }
{
    addresses.copy_within(at..end, at + 1);
    addresses[at] = node.0;
}

// Where a part ends after a node was put in, and where the node stands.
#[derive(Clone, Copy)]
pub struct Inserted {
    pub end: usize,
    pub at: usize,
}

// The node in its place of the cells from `from` up to `end`, if it isn't there yet.
pub fn insert_at(addresses: &mut [u32; 242], from: usize, end: usize, node: NodeAddress) -> Inserted
    requires { (from ≤ end) × (end ≤ 242) × (from + length (insert node.0 (slice from end addresses.old)) ≤ 242) × (length addresses.old ≡ 242) }
    ensures end_value { (result.end ≡ from + length (insert node.0 (slice from end addresses.old))) × (from ≤ result.at) × (result.at < result.end) }
    ensures addresses_after { addresses.new ≡ placed from (insert node.0 (slice from end addresses.old)) addresses.old }
{
    let at = seek(&*addresses, from, end, node);
    if is_at(&*addresses, at, end, node) {
        return Inserted { end, at };
    }
    put_before(addresses, at, end, node);
    Inserted { end: end + 1, at }
}
