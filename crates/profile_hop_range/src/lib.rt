// Where the hop records of a pair of domains stand, and those of them that leave one node: found by halving, without a pass over all records.
#![tactic(auto)]

ghost use Rattle.std.specs.Prelude.{◌≡◌};
ghost use Rattle.profile_records.specs.Layout.{layout_of, RightProfile};
ghost use Rattle.profile_hop_range.specs.Ranges.{find_key, PairRange, TailRange};

use crate::search::key_range;
use model::{DomainIndex, NodeAddress};
use profile_records::header::hop_count;
use profile_records::layout::Layout;

pub mod search;

// Hop records from `first` up to, not including, `last`.
#[derive(Clone, Copy)]
pub struct HopRange {
    pub first: usize,
    pub last: usize,
}

// The key of a hop record of a pair of domains that leaves a node.
fn find_key(from: DomainIndex, to: DomainIndex, tail: NodeAddress) -> u64
    ensures { result ≡ find_key from.0 to.0 tail.0 }
{
    let d = from.0 as u64;
    let e = to.0 as u64;
    let node = tail.0 as u64;
    (d * 65536 + e) * 4294967296 + node
}

// The hop records of a pair of domains.
pub fn pair_range(s: &[u8], layout: Layout, from: DomainIndex, to: DomainIndex) -> HopRange
    requires { RightProfile (layout_of layout) s.now }
    ensures { PairRange (layout_of layout) s.now from.0 to.0 result.first result.last }
{
    let hops = hop_count(s) as usize;
    let all = HopRange {
        first: 0,
        last: hops,
    };
    let key = find_key(from, to, NodeAddress(0));
    key_range(s, layout, all, key, 4294967296)
}

// Those of a pair's hop records that leave a node.
pub fn tail_range(
    s: &[u8],
    layout: Layout,
    pair: HopRange,
    from: DomainIndex,
    to: DomainIndex,
    tail: NodeAddress,
) -> HopRange
    requires right_profile { RightProfile (layout_of layout) s.now }
    requires pair_range { PairRange (layout_of layout) s.now from.0 to.0 pair.first pair.last }
    ensures { TailRange (layout_of layout) s.now from.0 to.0 tail.0 result.first result.last }
{
    let key = find_key(from, to, tail);
    key_range(s, layout, pair, key, 1)
}
