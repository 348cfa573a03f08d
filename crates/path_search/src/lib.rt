// The first of the shortest paths above a given list of addresses, in the round that applies: the tree is worked out, the bound asked once, and the path
// found by going down the tree.
#![tactic(auto)]

ghost use Rattle.std.specs.Prelude.{◌≡◌, suc, ◌≤◌, ◌<◌, length};
ghost use Rattle.model.specs.Request.{Search};
ghost use Rattle.laws.specs.Descent.{next_from};
ghost use Rattle.laws.specs.Lists.{lists_of};
ghost use Rattle.profile_records.specs.Layout.{layout_of, SoundLayout};
ghost use Rattle.request.specs.Query.{Ready};
ghost use Rattle.path_step.specs.Worked.{Worked, Stands, Ways};
ghost use Rattle.path_step.specs.Onward.{legs_from};
ghost use Rattle.path_descent.specs.Routes.{Written};
ghost use Rattle.path_search.specs.Searched.{start_of, ResultFor};

use model::NodeAddress;
use path_answers::{SearchResult, found_in, nothing_in};
use path_descent::{first_by, next_after};
use path_step::{Heads, WorkedTree};
use profile_records::layout::Layout;
use request::Query;
use std::cmp::Ordering;
use tree_levels::Levels;
use tree_rounds::{admissible, settle};

// How a given list starts against the source: before it (or not at all), with it, or behind it.
fn start_of(given: &[u32], source: NodeAddress) -> Ordering
    ensures { result ≡ start_of given.now source.0 }
{
    match given.first() {
        None => Ordering::Less,
        Some(x) => NodeAddress(*x).cmp(&source),
    }
}

// The first of the cheapest paths above the given list, from the source with `here` left.
fn above(tree: &WorkedTree<'_>, here: u32, given: &[u32], path: &mut [u32]) -> bool
    requires count_in_bounds { (tree.now.query.count < length path.old) × (1 ≤ length given.now → length given.now ≡ suc tree.now.query.count) }
    requires ways { Ways tree.now 0 tree.now.query.source.0 here }
    ensures { (S : Search) → Worked S tree.now → Stands S 0 tree.now.query.source.0 here
        → Written 0 (next_from S (legs_from S 0) 0 tree.now.query.source.0 given.now) path.old result path.new }
{
    let source = tree.query.source;
    match start_of(given, source) {
        Ordering::Less => first_by(tree, 0, source, here, Heads::Any, path),
        Ordering::Equal => next_after(tree, 0, source, here, given, path),
        Ordering::Greater => false,
    }
}

// The first of the shortest paths above the given list, in the round that applies; of all where the list is empty.
pub fn search(
    s: &[u8],
    layout: Layout,
    include: &[u8],
    exclude: &[u8],
    q: Query,
    given: &[u32],
) -> SearchResult
    requires sound_layout { SoundLayout (layout_of layout) × Ready (layout_of layout) s.now (lists_of include.now exclude.now) q }
    requires given_len { 1 ≤ length given.now → length given.now ≡ suc q.count }
    ensures { ResultFor (layout_of layout) s.now (lists_of include.now exclude.now) q given.now result }
{
    let mut levels = Levels::empty();
    let mut reaches = [0u32; 242];
    let settled = settle(s, layout, include, exclude, q, &mut levels, &mut reaches);
    let here = reaches[0];
    let query = settled.query;
    let round = query.round;
    if !admissible(query.limits, here) {
        return nothing_in(round);
    }
    let tree = WorkedTree {
        profile: s,
        layout,
        query,
        levels: &levels,
        reaches: &reaches,
    };
    let mut path = [0u32; 17];
    if !above(&tree, here, given, &mut path) {
        return nothing_in(round);
    }
    found_in(round, here, path)
}
