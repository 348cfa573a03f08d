// The hop record by which a shortest path goes on from an entry: the first, by ascending head, whose cost with what is left at its head is what is left here.
#![tactic(auto)]

ghost use Rattle.std.specs.Prelude.{◌≡◌, true, ◌≤◌, ◌<◌};
ghost use Rattle.std.proofs.Math.Seq.{slice};
ghost use Rattle.model.specs.Floats.{in_range};
ghost use Rattle.model.specs.Profile.{hops, hop_count, cost_limit};
ghost use Rattle.model.specs.Request.{Search};
ghost use Rattle.laws.specs.Descent.{on_shortest};
ghost use Rattle.profile_records.specs.Layout.{layout_of, RightProfile};
ghost use Rattle.tree_reaches.specs.Reaches.{unreachable, reach_of, Small};
ghost use Rattle.path_step.specs.Worked.{Worked, Stands, Ways};
ghost use Rattle.path_step.specs.Onward.{is_wanted, Fit, is_taken, onward, onward_if, FirstTaken, OnwardIs};

use model::{Hop, NodeAddress};
use profile_hop_range::{HopRange, tail_range};
use profile_records::hop::accepted_hop;
use profile_records::layout::Layout;
use request::Query;
use tree_levels::Levels;
use tree_reaches::{UNREACHABLE, reach_of};
use tree_vspt::next_domain;

// What a path is found by, the same at every place of the sequence: the profile, the query, and the tree that was worked out for it.
#[derive(Clone, Copy)]
pub struct WorkedTree<'a> {
    pub profile: &'a [u8],
    pub layout: Layout,
    pub query: Query,
    pub levels: &'a Levels,
    pub reaches: &'a [u32; 242],
}

// Which heads are wanted.
#[derive(Clone, Copy, Debug, PartialEq, Eq)]
pub enum Heads {
    Any,
    Only(NodeAddress),
    Above(NodeAddress),
}

// The head of the hop record found, and what is left there.
#[derive(Clone, Copy, Debug, PartialEq, Eq)]
pub struct Onward {
    pub head: NodeAddress,
    pub reach: u32,
}

// What a hop record is judged by: the bandwidth asked for, what is left at its tail, the heads that are wanted, and the next place's part of the tree.
#[derive(Clone, Copy)]
struct Judge<'a> {
    asked: f32,
    here: u32,
    which: Heads,
    levels: &'a Levels,
    reaches: &'a [u32; 242],
    from: usize,
    to: usize,
}

fn wanted(which: Heads, head: NodeAddress) -> bool
    ensures { result ≡ is_wanted which head.0 }
{
    match which {
        Heads::Any => true,
        Heads::Only(y) => head == y,
        Heads::Above(y) => y < head,
    }
}

// The hop's cost with what is left at its head is what is left here.
fn on_shortest(h: Hop, here: u32, there: u32) -> bool
    requires { (h.cost ≤ cost_limit) × Small there × (here < unreachable) }
    ensures { result ≡ on_shortest (reach_of here) h (reach_of there) }
{
    if there == UNREACHABLE {
        return false;
    }
    h.cost + there == here
}

// One hop record, if it is taken.
fn tried(h: Hop, by: Judge<'_>) -> Option<Onward>
    requires cost_le_cost_limit { (h.cost ≤ cost_limit) × (in_range h.bandwidth ≡ true) }
    requires fit { Fit by }
    ensures { result ≡ onward_if (is_taken by.entry h) (onward by.entry h) }
{
    let head = h.head;
    if !wanted(by.which, head) {
        return None;
    }
    if !(by.asked <= h.bandwidth) {
        return None;
    }
    let addresses = &by.levels.addresses;
    let reaches = by.reaches;
    let reach = reach_of(addresses, reaches, by.from, by.to, head);
    if !on_shortest(h, by.here, reach) {
        return None;
    }
    Some(Onward { head, reach })
}

// The first of some hop records that is taken.
fn scan(s: &[u8], layout: Layout, range: HopRange, by: Judge<'_>) -> Option<Onward>
    requires right_profile { RightProfile (layout_of layout) s.now }
    requires first_le_last { (range.first ≤ range.last) × (range.last ≤ hop_count s.now) }
    requires fit { Fit by }
    ensures { FirstTaken by.entry (slice range.first range.last (hops (layout_of layout) s.now)) result }
{
    for i in range.first..range.last {
        let on = tried(accepted_hop(s, layout, i), by);
        if on.is_some() {
            return on;
        }
    }
    None
}

// The first wanted hop on a shortest way from a node at place i of the sequence, from which `here` is left.
pub fn next_hop(
    tree: &WorkedTree<'_>,
    i: usize,
    node: NodeAddress,
    here: u32,
    which: Heads,
) -> Option<Onward>
    requires { (i < tree.now.query.count) × Ways tree.now i node.0 here }
    ensures { (S : Search) → Worked S tree.now → Stands S i node.0 here → OnwardIs S i node.0 which result }
{
    let profile = tree.profile;
    let levels = tree.levels;
    let reaches = tree.reaches;
    let from = tree.query.stops[i].domain;
    let to = next_domain(&tree.query.stops, tree.query.count, i);
    let pair = HopRange {
        first: tree.levels.firsts[i],
        last: tree.levels.lasts[i],
    };
    let range = tail_range(profile, tree.layout, pair, from, to, node);
    let by = Judge {
        asked: tree.query.limits.bandwidth,
        here,
        which,
        levels,
        reaches,
        from: tree.levels.starts[i + 1],
        to: tree.levels.starts[i + 2],
    };
    scan(profile, tree.layout, range, by)
}
