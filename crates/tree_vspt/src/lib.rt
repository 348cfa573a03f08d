// The backward tree (RFC 5441's virtual shortest path tree): how each entry reaches the destination, from the last domain to the first.
#![tactic(auto)]

ghost use Rattle.std.specs.Prelude.{◌≡◌, not, List, ℕ, suc, ◌+◌, ◌<◌, ◌≤◌, length, get_or};
ghost use Rattle.model.specs.Verdict.{Pass};
ghost use Rattle.model.specs.declared.ListKind.TheVariants.{Exclude};
ghost use Rattle.model.specs.Exclusion.{in_force, excluded_node};
ghost use Rattle.model.specs.Subobject.{form_verdict, subobjects};
ghost use Rattle.profile_records.specs.Layout.{layout_of, SoundLayout};
ghost use Rattle.tree_levels.specs.Levels.{LaidOut};
ghost use Rattle.tree_reaches.specs.Reaches.{code_if};
ghost use Rattle.laws.specs.Stops.{stop_at, stretch_start};
ghost use Rattle.tree_vspt.specs.Leg.{next_place, LegFor};
ghost use Rattle.tree_vspt.specs.Tree.{Holds, HoldsFrom, filled_at, filled_from, TreeCodes};
ghost use Rattle.tree_vspt.specs.Laid.{lists_in, search_in, ReadyIn, LaidIn};

use list_exclusion::excludes_node;
use list_exclusion::exrs::first_exrs;
use list_exclusion::place::excludes_domain_there;
use model::{DomainIndex, NamedStop, NodeAddress, Round};
use profile_hop_range::HopRange;
use profile_records::domain::domain_at;
use profile_records::layout::Layout;
use request::Query;
use tree_levels::Levels;
use tree_reaches::UNREACHABLE;
use tree_step::{Leg, Step, fill_level};

// What a tree is filled by, the same at every place of the sequence: the profile, both lists, the query in its round, and its places and legs as they are laid out.
#[derive(Clone, Copy)]
pub struct LaidTree<'a> {
    pub profile: &'a [u8],
    pub layout: Layout,
    pub include: &'a [u8],
    pub exclude: &'a [u8],
    pub query: Query,
    pub levels: &'a Levels,
}

// Behind the last domain: the destination reaches itself at no cost, unless it is excluded in the round.
fn arrival(exclude: &[u8], round: Round, destination: NodeAddress) -> u32
    requires { form_verdict Exclude exclude.now ≡ Pass }
    ensures { result ≡ code_if (not (excluded_node (in_force round (subobjects exclude.now)) destination.0)) 0 }
{
    if excludes_node(exclude, round, destination) {
        return UNREACHABLE;
    }
    0
}

// The domain after place i of the sequence: the next one, or, at the last, the same.
pub fn next_domain(stops: &[NamedStop; 16], count: usize, i: usize) -> DomainIndex
    requires { (length stops.now ≡ 16) × (count ≤ 16) × (i < count) }
    ensures { result ≡ (stop_at stops.now (next_place count i)).domain }
{
    let next = i + 1;
    if next < count {
        return stops[next].domain;
    }
    stops[i].domain
}

// Where in the include list the EXRS of domain i of a sequence start to stand: behind the subobject that named the one before it.
fn stretch_start(stops: &[NamedStop; 16], i: usize) -> usize
    requires { (length stops.now ≡ 16) × (i < 16) }
    ensures { result ≡ stretch_start stops.now i }
{
    if i == 0 {
        return 0;
    }
    stops[i - 1].named as usize
}

// The leg from place i of the sequence. Whether its domain is excluded in the round, and whether it has EXRS at all, is asked here, once for all its entries.
fn leg_at(laid: &LaidTree<'_>, i: usize) -> Leg
    requires { ReadyIn laid.now × (i < laid.now.query.count) }
    ensures { (addresses : List ℕ) (tally : ℕ) → LaidOut (search_in laid.now) (layout_of laid.now.layout) laid.now.profile.now addresses laid.now.levels.now.starts laid.now.levels.now.firsts laid.now.levels.now.lasts tally → LegFor (layout_of laid.now.layout) laid.now.profile.now (search_in laid.now) (lists_in laid.now) i result }
{
    let stops = &laid.query.stops;
    let stop = stops[i];
    let named = stop.named as usize;
    let d = domain_at(laid.profile, stop.domain.0 as usize);
    let round = laid.query.round;
    let exrs = first_exrs(laid.include, stretch_start(stops, i), named);
    let excluded = excludes_domain_there(laid.include, laid.exclude, exrs, named, round, d);
    Leg {
        from: stop.domain,
        to: next_domain(stops, laid.query.count, i),
        hops: HopRange {
            first: laid.levels.firsts[i],
            last: laid.levels.lasts[i],
        },
        round,
        excluded,
        pin: stop.pin,
        exrs,
        named,
        start: laid.levels.starts[i],
        next: laid.levels.starts[i + 1],
        end: laid.levels.starts[i + 2],
    }
}

// The reaches of place i, from those of the place after it. Apart from the recursion, so that its leg isn't kept while the places behind it are worked out.
fn fill_place(laid: &LaidTree<'_>, i: usize, reaches: &mut [u32])
    requires sound_layout { SoundLayout (layout_of laid.now.layout) × ReadyIn laid.now × (i < laid.now.query.count) }
    requires laid_out_for { LaidIn laid.now × (length reaches.old ≡ 242) }
    requires holds { Holds (search_in laid.now) (suc i) reaches.old }
    ensures { reaches.new ≡ filled_at (search_in laid.now) i reaches.old }
{
    let leg = leg_at(laid, i);
    let addresses = &laid.levels.addresses;
    let step = Step {
        profile: laid.profile,
        layout: laid.layout,
        include: laid.include,
        exclude: laid.exclude,
        leg,
        asked: laid.query.limits.bandwidth,
        addresses,
    };
    fill_level(&step, reaches);
}

// The reaches of the places from i on, `left` domains and the end behind them: the last first, each from the one after it.
fn fill_from(laid: &LaidTree<'_>, i: usize, left: usize, reaches: &mut [u32])
    requires sound_layout { SoundLayout (layout_of laid.now.layout) × ReadyIn laid.now × (i + left ≡ laid.now.query.count) }
    requires laid_out_for { LaidIn laid.now × (length reaches.old ≡ 242) }
    ensures { reaches.new ≡ filled_from (search_in laid.now) i (suc left) reaches.old }
{
    if left == 0 {
        let at = laid.levels.starts[i];
        reaches[at] = arrival(laid.exclude, laid.query.round, laid.query.destination);
        return;
    }
    fill_from(laid, i + 1, left - 1, reaches);
    fill_place(laid, i, reaches);
}

// The reaches of the places before place n, the last first, each from the one after it. Those from place n on stand, and aren't touched.
pub fn fill_before(laid: &LaidTree<'_>, n: usize, reaches: &mut [u32])
    requires sound_layout { SoundLayout (layout_of laid.now.layout) × ReadyIn laid.now × (n ≤ laid.now.query.count) }
    requires laid_out_for { LaidIn laid.now × (length reaches.old ≡ 242) }
    requires holds_from { HoldsFrom (search_in laid.now) n reaches.old }
    ensures { (reaches.new ≡ filled_from (search_in laid.now) 0 n reaches.old) × TreeCodes (search_in laid.now) reaches.new }
{
    if n == 0 {
        return;
    }
    let i = n - 1;
    fill_place(laid, i, reaches);
    fill_before(laid, i, reaches);
}

// The whole tree of a query in its round, over the entries that are laid out: how each reaches the destination. The first place is filled apart: were
// `fill_place` called by one recursion alone, the compiler would draw it in, and with it some 300 bytes into the frame of each place.
pub fn fill_tree(laid: &LaidTree<'_>, reaches: &mut [u32; 242])
    requires sound_layout { SoundLayout (layout_of laid.now.layout) × ReadyIn laid.now }
    requires laid_out_for { LaidIn laid.now × (length reaches.old ≡ 242) }
    ensures { TreeCodes (search_in laid.now) reaches.new × (length reaches.new ≡ 242) }
{
    fill_from(laid, 1, laid.query.count - 1, reaches);
    fill_before(laid, 1, reaches);
}
