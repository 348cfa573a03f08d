// Searches by halving among the hop records of an accepted profile, which ascend by their keys.
ghost use Rattle.std.specs.Prelude.{◌≡◌, ◌≤◌};
ghost use Rattle.model.specs.Profile.{hop_count, hop_at};
ghost use Rattle.profile_records.specs.Layout.{layout_of, RightProfile, HopWithin};
ghost use Rattle.profile_hop_range.specs.Ranges.{key_of};
ghost use Rattle.profile_hop_range.specs.Search.{LowerBound, KeyRange};

use crate::HopRange;
use profile_records::hop::hop_start;
use profile_records::layout::Layout;
use wire::u32_at;

// The key of hop record i, its first eight bytes.
fn key_at(s: &[u8], layout: Layout, i: usize) -> u64
    requires { HopWithin (layout_of layout) s.now i }
    ensures { result ≡ key_of (hop_at (layout_of layout) s.now i) }
{
    let at = hop_start(s, layout, i);
    let pair = u32_at(s, at) as u64;
    let tail = u32_at(s, at + 4) as u64;
    pair * 4294967296 + tail
}

// The first of the records from `from` up to `to` whose key is not below `key`, or `to` where there is none.
fn lower_bound(s: &[u8], layout: Layout, from: usize, to: usize, key: u64) -> usize
    requires right_profile { RightProfile (layout_of layout) s.now }
    requires from_le_to { (from ≤ to) × (to ≤ hop_count s.now) }
    ensures { LowerBound (layout_of layout) s.now from to key result }
{
    let mut low = from;
    let mut high = to;
    while low < high {
        let middle = low + (high - low) / 2;
        let here = key_at(s, layout, middle);
        if here < key {
            low = middle + 1;
        } else {
            high = middle;
        }
    }
    low
}

// Those of the records `within` whose keys lie from `key` up to `key + width`. Where no key is `key` or more there is no second search, so the sum of the two fits.
pub fn key_range(s: &[u8], layout: Layout, within: HopRange, key: u64, width: u64) -> HopRange
    requires right_profile { RightProfile (layout_of layout) s.now }
    requires first_le_last { (within.first ≤ within.last) × (within.last ≤ hop_count s.now) × (width ≤ 4294967296) }
    ensures { KeyRange (layout_of layout) s.now within.first within.last key width result.first result.last }
{
    let first = lower_bound(s, layout, within.first, within.last, key);
    if first == within.last {
        return HopRange { first, last: first };
    }
    let last = lower_bound(s, layout, first, within.last, key + width);
    HopRange { first, last }
}
