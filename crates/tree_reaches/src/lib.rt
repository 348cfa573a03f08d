// How one entry reaches the destination, by the hop records that leave it and what is known of the next place's entries.
// A reach is one number: the least cost, or `UNREACHABLE`.
#![tactic(auto)]

ghost use Rattle.std.specs.Prelude.{◌≡◌, true, ◌-◌, ◌≤◌, ◌<◌, length};
ghost use Rattle.std.proofs.Math.Seq.{slice};
ghost use Rattle.model.specs.Floats.{in_range};
ghost use Rattle.model.specs.Profile.{hops, hop_count, cost_limit};
ghost use Rattle.laws.specs.Reach.{unreached, better, via, best_from};
ghost use Rattle.profile_records.specs.Layout.{layout_of, RightProfile};
ghost use Rattle.tree_lookup.specs.LookUp.{Part};
ghost use Rattle.tree_reaches.specs.Reaches.{reach_of, Small, beside, way_on, NextPlace};

use model::{Hop, NodeAddress};
use profile_records::hop::accepted_hop;
use profile_records::layout::Layout;
use tree_lookup::find_entry;

pub const UNREACHABLE: u32 = 4294967295;

// The better of what was found so far and a hop of this cost with this reach behind it.
fn relax(best: u32, cost: u32, there: u32) -> u32
    requires { (cost ≤ cost_limit) × Small there }
    ensures { reach_of result ≡ better (reach_of best) (via cost (reach_of there)) }
{
    if there == UNREACHABLE {
        return best;
    }
    let new = cost + there;
    if new < best {
        return new;
    }
    best
}

// The reach that stands beside a node, found by halving.
pub fn reach_of(
    addresses: &[u32],
    reaches: &[u32],
    from: usize,
    to: usize,
    node: NodeAddress,
) -> u32
    requires { (from ≤ to) × Part addresses.now from (to - from) × (to ≤ length reaches.now) }
    ensures { result ≡ beside (slice from to addresses.now) (slice from to reaches.now) node.0 }
{
    let found = find_entry(addresses, from, to - from, node);
    match found.place {
        Some(i) => reaches[i],
        None => UNREACHABLE,
    }
}

// The better of what was found so far and one hop record, where its bandwidth is enough.
fn taken(
    best: u32,
    h: Hop,
    asked: f32,
    addresses: &[u32],
    reaches: &[u32],
    from: usize,
    to: usize,
) -> u32
    requires cost_le_cost_limit { (h.cost ≤ cost_limit) × (in_range asked ≡ true) × (in_range h.bandwidth ≡ true) }
    requires next_place { NextPlace addresses.now reaches.now from to }
    ensures { reach_of result ≡ better (reach_of best) (way_on asked (slice from to addresses.now) (slice from to reaches.now) h) }
{
    if asked <= h.bandwidth {
        let there = reach_of(addresses, reaches, from, to, h.head);
        return relax(best, h.cost, there);
    }
    best
}

// The best of the hop records from `first` up to `last`, by what stands beside their heads among the next place's entries.
pub fn best_from(
    s: &[u8],
    layout: Layout,
    first: usize,
    last: usize,
    asked: f32,
    addresses: &[u32],
    reaches: &[u32],
    from: usize,
    to: usize,
) -> u32
    requires right_profile { RightProfile (layout_of layout) s.now }
    requires first_le_last { (first ≤ last) × (last ≤ hop_count s.now) × (in_range asked ≡ true) }
    requires next_place { NextPlace addresses.now reaches.now from to }
    ensures { reach_of result ≡ best_from unreached (way_on asked (slice from to addresses.now) (slice from to reaches.now)) (slice first last (hops (layout_of layout) s.now)) }
{
    let mut best = UNREACHABLE;
    for i in first..last {
        let h = accepted_hop(s, layout, i);
        best = taken(best, h, asked, addresses, reaches, from, to);
    }
    best
}
