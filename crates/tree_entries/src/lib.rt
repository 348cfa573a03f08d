// The backward tree in a lent slice of entries, filled from the numbers that were worked out. (Document 01: "in a lent list
// of such records".)
#![tactic(auto)]

ghost use Rattle.std.specs.Prelude.{◌≡◌, ◌<◌, ◌≤◌, length};
ghost use Rattle.model.specs.Lists.{over};
ghost use Rattle.tree_entries.specs.Entries.{entry_at, entries_of};

use model::{NodeAddress, TreeEntry};
use tree_reaches::UNREACHABLE;

// A tree as it is worked out, its entries' numbers in their order: level, address, and how the destination is reached in one number.
#[derive(Clone, Copy, Drop)]
pub struct TreeTable {
    pub level: [u32; 241],
    pub addresses: [u32; 242],
    pub reaches: [u32; 242],
}

fn entry_of(tree: &TreeTable, i: usize) -> TreeEntry
    requires { i < 241 }
    ensures { result ≡ entry_at tree.now.level tree.now.addresses tree.now.reaches i }
{
    let level = tree.level[i];
    let address = NodeAddress(tree.addresses[i]);
    let reach = tree.reaches[i];
    if reach == UNREACHABLE {
        return TreeEntry {
            level,
            address,
            reachable: false,
            cost: 0,
        };
    }
    TreeEntry {
        level,
        address,
        reachable: true,
        cost: reach,
    }
}

// The first `n` entries of the tree over the start of the lent slice.
pub fn fill(entries: &mut [TreeEntry], tree: TreeTable, n: usize)
    requires { (n ≤ 241) × (n ≤ length entries.old) }
    ensures { entries.new ≡ over (entries_of n tree.level tree.addresses tree.reaches) entries.old }
{
    for (i, entry) in entries[..n].iter_mut().enumerate() {
        *entry = entry_of(&tree, i);
    }
}
