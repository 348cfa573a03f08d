// A path's addresses from a place of the sequence on, by recursion over the places: the first of the cheapest suffixes, and the first above a given list.
// An address is written only on the way back from success, so that nothing found leaves the lent list as it was.
#![tactic(auto)]

ghost use Rattle.std.specs.Prelude.{◌≡◌, suc, ◌≤◌, ◌<◌, length, drop};
ghost use Rattle.model.specs.Request.{Search};
ghost use Rattle.laws.specs.Descent.{next_after};
ghost use Rattle.path_step.specs.Worked.{Worked, Stands, Ways};
ghost use Rattle.path_step.specs.Onward.{legs_from};
ghost use Rattle.path_descent.specs.Routes.{first_by, Written};

use model::NodeAddress;
use path_step::{Heads, WorkedTree, next_hop};

// The first suffix from a node at place i through the first wanted head.
pub fn first_by(
    tree: &WorkedTree<'_>,
    i: usize,
    node: NodeAddress,
    here: u32,
    which: Heads,
    path: &mut [u32],
) -> bool
    requires inside { (i ≤ tree.now.query.count) × (tree.now.query.count < length path.old) }
    requires ways { Ways tree.now i node.0 here }
    ensures { (S : Search) → Worked S tree.now → Stands S i node.0 here
        → Written i (first_by S (legs_from S i) i node.0 which) path.old result path.new }
{
    if i == tree.query.count {
        path[i] = node.0;
        return true;
    }
    let Some(on) = next_hop(tree, i, node, here, which) else {
        return false;
    };
    first_by(tree, i + 1, on.head, on.reach, Heads::Any, path);
    path[i] = node.0;
    true
}

// The first suffix from a node at place i whose addresses behind the node are above those of the given list behind place i.
pub fn next_after(
    tree: &WorkedTree<'_>,
    i: usize,
    node: NodeAddress,
    here: u32,
    given: &[u32],
    path: &mut [u32],
) -> bool
    requires inside { (i ≤ tree.now.query.count) × (tree.now.query.count < length path.old) × (length given.now ≡ suc tree.now.query.count) }
    requires ways { Ways tree.now i node.0 here }
    ensures { (S : Search) → Worked S tree.now → Stands S i node.0 here
        → Written i (next_after S (legs_from S i) i node.0 (drop (suc i) given.now)) path.old result path.new }
{
    if i == tree.query.count {
        return false;
    }
    let y = NodeAddress(given[i + 1]);
    if let Some(on) = next_hop(tree, i, node, here, Heads::Only(y)) {
        let deeper = next_after(tree, i + 1, on.head, on.reach, given, path);
        if deeper {
            path[i] = node.0;
            return true;
        }
    }
    first_by(tree, i, node, here, Heads::Above(y), path)
}
