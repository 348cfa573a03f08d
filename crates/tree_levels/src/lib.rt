// The entries of the tree, place by place of the sequence of domains, ascending; the hop records of each leg, and their number (document 01's tally).
#![tactic(auto)]

ghost use Rattle.std.specs.Prelude.{◌≡◌, ◌+◌, ◌-◌, ◌≤◌, ◌<◌, length, set};
ghost use Rattle.model.specs.Request.{Search};
ghost use Rattle.profile_records.specs.Layout.{layout_of, RightProfile};
ghost use Rattle.tree_levels.specs.Levels.{Several, Covers, Noted};
ghost use Rattle.tree_levels.specs.Laid.{RoomIn, LaidOutIn};

use crate::heads::collect;
use model::{DomainIndex, NamedStop, NodeAddress};
use profile_hop_range::{HopRange, pair_range};
use profile_records::layout::Layout;

pub mod entries;
pub mod heads;

// The places of a tree and its legs: the addresses of all places, one place after the other, where each place starts, and each leg's hop records, from the first up to the last.
#[derive(Clone, Copy)]
pub struct Levels {
    pub addresses: [u32; 242],
    pub starts: [usize; 18],
    pub firsts: [usize; 16],
    pub lasts: [usize; 16],
}

impl Levels {
    // Nothing is laid out yet.
    pub fn empty() -> Levels
        ensures { RoomIn result }
    {
        Levels {
            addresses: [0; 242],
            starts: [0; 18],
            firsts: [0; 16],
            lasts: [0; 16],
        }
    }
}

// The hop records of leg i, from one domain to another.
fn note_leg(
    s: &[u8],
    layout: Layout,
    from: DomainIndex,
    to: DomainIndex,
    i: usize,
    firsts: &mut [usize; 16],
    lasts: &mut [usize; 16],
) -> HopRange
    requires right_profile { RightProfile (layout_of layout) s.now }
    requires i_bound { i < 16 }
    ensures { Noted (layout_of layout) s.now firsts.old lasts.old from.0 to.0 i firsts.new lasts.new result.first result.last }
{
    let range = pair_range(s, layout, from, to);
    firsts[i] = range.first;
    lasts[i] = range.last;
    range
}

// The tally with a leg's hop records.
fn tallied(examined: usize, leg: HopRange) -> usize
    requires { (examined ≤ 1000000) × (leg.first ≤ leg.last) × (leg.last < 65536) }
    ensures { result ≡ examined + (leg.last - leg.first) }
{
    examined + (leg.last - leg.first)
}

// The destination behind the last domain's entries, at place i.
fn put_destination(
    destination: NodeAddress,
    i: usize,
    end: usize,
    addresses: &mut [u32; 242],
    starts: &mut [usize; 18],
)
    requires { (i ≤ 16) × (end < 242) × (length addresses.old ≡ 242) × (length starts.old ≡ 18) }
    ensures { (addresses.new ≡ set addresses.old end destination.0) × (starts.new ≡ set starts.old (i + 1) (end + 1)) }
{
    addresses[end] = destination.0;
    starts[i + 1] = end + 1;
}

// Lays out the places' addresses one after the other, where each place starts, and the hop records of each leg: how many of these there are in all.
pub fn lay_out(
    s: &[u8],
    layout: Layout,
    stops: &[NamedStop; 16],
    count: usize,
    source: NodeAddress,
    destination: NodeAddress,
    levels: &mut Levels,
) -> usize
    requires right_profile { RightProfile (layout_of layout) s.now }
    requires several { Several stops.now count × RoomIn levels.old }
    ensures { (S : Search) → Covers S (layout_of layout) s.now stops.now count source.0 destination.0 → LaidOutIn S (layout_of layout) s.now levels.new result }
{
    levels.addresses[0] = source.0;
    levels.starts[0] = 0;
    levels.starts[1] = 1;
    let mut end: usize = 1;
    let mut examined: usize = 0;
    let last = count - 1;
    for i in 0..last {
        let leg = note_leg(
            s,
            layout,
            stops[i].domain,
            stops[i + 1].domain,
            i,
            &mut levels.firsts,
            &mut levels.lasts,
        );
        examined = tallied(examined, leg);
        end = collect(s, layout, leg.first, leg.last, &mut levels.addresses, end);
        levels.starts[i + 2] = end;
    }
    let leg = note_leg(
        s,
        layout,
        stops[last].domain,
        stops[last].domain,
        last,
        &mut levels.firsts,
        &mut levels.lasts,
    );
    examined = tallied(examined, leg);
    put_destination(
        destination,
        count,
        end,
        &mut levels.addresses,
        &mut levels.starts,
    );
    examined
}
