// One domain's step: the reaches of its entries, worked out from those of the next place. What is excluded stands in both lists of the request: the exclude list, and
// the EXRS of the domain in the include list.
#![tactic(auto)]

ghost use Rattle.std.specs.Prelude.{◌≡◌, true, ◌≤◌, ◌-◌};
ghost use Rattle.std.proofs.Math.Seq.{slice, paste};
ghost use Rattle.model.specs.Verdict.{Pass};
ghost use Rattle.model.specs.declared.ListKind.TheVariants.{Exclude};
ghost use Rattle.model.specs.Floats.{in_range};
ghost use Rattle.model.specs.Path.{keeps_pin};
ghost use Rattle.model.specs.Subobject.{form_verdict};
ghost use Rattle.laws.specs.Stops.{pin_as};
ghost use Rattle.laws.specs.Exrs.{Stretch};
ghost use Rattle.laws.specs.Lists.{lists_of};
ghost use Rattle.profile_records.specs.Layout.{layout_of, RightProfile};
ghost use Rattle.profile_hop_range.specs.Ranges.{PairRange};
ghost use Rattle.tree_reaches.specs.Reaches.{reach_of, NextPlace};
ghost use Rattle.tree_step.specs.Step.{leg_exclusions, allowed_by};
ghost use Rattle.tree_step.specs.Taken.{reach_by, codes_by};

use list_exclusion::place::excludes_node_there;
use model::{DomainIndex, NodeAddress, Round};
use profile_hop_range::{HopRange, tail_range};
use profile_records::layout::Layout;
use tree_reaches::{UNREACHABLE, best_from};

// A leg of the sequence as a step needs it: its two domains and their hop records; the round, whether the first domain is excluded in it,
// its entry constraint, and the stretch of the include list that has its EXRS; where its entries start, where those of the next place start, and where these end.
#[derive(Clone, Copy)]
pub struct Leg {
    pub from: DomainIndex,
    pub to: DomainIndex,
    pub hops: HopRange,
    pub round: Round,
    pub excluded: bool,
    pub pin: Option<NodeAddress>,
    pub exrs: usize,
    pub named: usize,
    pub start: usize,
    pub next: usize,
    pub end: usize,
}

// What a step is taken by: the profile, both lists, the leg, the bandwidth that is asked for, and the addresses of all places.
#[derive(Clone, Copy)]
pub struct Step<'a> {
    pub profile: &'a [u8],
    pub layout: Layout,
    pub include: &'a [u8],
    pub exclude: &'a [u8],
    pub leg: Leg,
    pub asked: f32,
    pub addresses: &'a [u32],
}

// The entry constraint, if there is one, is kept by a node.
fn keeps_pin(pin: Option<NodeAddress>, node: NodeAddress) -> bool
    ensures { result ≡ keeps_pin (pin_as pin) node.0 }
{
    pin.is_none_or(|pinned| node == pinned)
}

// A node may be an entry of the leg's domain.
fn allowed_at(include: &[u8], exclude: &[u8], leg: Leg, node: NodeAddress) -> bool
    requires { (form_verdict Exclude exclude.now ≡ Pass) × Stretch include.now leg.exrs leg.named }
    ensures { result ≡ allowed_by (leg_exclusions (lists_of include.now exclude.now) leg) leg.excluded leg.pin node.0 }
{
    !leg.excluded
        && keeps_pin(leg.pin, node)
        && !excludes_node_there(include, exclude, leg.exrs, leg.named, leg.round, node)
}

// How one entry reaches the destination.
fn entry_reach(step: &Step<'_>, node: NodeAddress, reaches: &[u32]) -> u32
    requires right_profile { RightProfile (layout_of step.now.layout) step.now.profile.now }
    requires exclude_value { (form_verdict Exclude step.now.exclude.now ≡ Pass) × (in_range step.now.asked ≡ true) × Stretch step.now.include.now step.now.leg.exrs step.now.leg.named }
    requires pair_range { PairRange (layout_of step.now.layout) step.now.profile.now step.now.leg.from.0 step.now.leg.to.0 step.now.leg.hops.first step.now.leg.hops.last }
    requires next_place { NextPlace step.now.addresses.now reaches.now step.now.leg.next step.now.leg.end }
    ensures { reach_of result ≡ reach_by step.now reaches.now node.0 }
{
    let leg = step.leg;
    if !allowed_at(step.include, step.exclude, leg, node) {
        return UNREACHABLE;
    }
    let range = tail_range(step.profile, step.layout, leg.hops, leg.from, leg.to, node);
    best_from(
        step.profile,
        step.layout,
        range.first,
        range.last,
        step.asked,
        step.addresses,
        reaches,
        leg.next,
        leg.end,
    )
}

// The reaches of one domain's entries, from those of the next place. No others change.
pub fn fill_level(step: &Step<'_>, reaches: &mut [u32])
    requires right_profile { RightProfile (layout_of step.now.layout) step.now.profile.now }
    requires exclude_value { (form_verdict Exclude step.now.exclude.now ≡ Pass) × (in_range step.now.asked ≡ true) × Stretch step.now.include.now step.now.leg.exrs step.now.leg.named }
    requires pair_range { PairRange (layout_of step.now.layout) step.now.profile.now step.now.leg.from.0 step.now.leg.to.0 step.now.leg.hops.first step.now.leg.hops.last }
    requires start_le_next { (step.now.leg.start ≤ step.now.leg.next) × NextPlace step.now.addresses.now reaches.old step.now.leg.next step.now.leg.end }
    ensures { reaches.new ≡ paste reaches.old step.now.leg.start (codes_by step.now reaches.old) (step.now.leg.next - step.now.leg.start) }
{
    let addresses = step.addresses;
    for j in step.leg.start..step.leg.next {
        reaches[j] = entry_reach(step, NodeAddress(addresses[j]), &*reaches);
    }
}
