// The heads of hop records: the entry nodes that they bring.
ghost use Rattle.std.specs.Prelude.{◌≡◌, ◌+◌, ◌≤◌, ◌<◌, length};
ghost use Rattle.model.specs.Profile.{hop_count};
ghost use Rattle.profile_records.specs.Layout.{layout_of, RightProfile};
ghost use Rattle.tree_levels.specs.Entries.{placed, heads_of};

use crate::entries::{insert_at, is_at};
use model::NodeAddress;
use profile_records::hop::hop_start;
use profile_records::layout::Layout;
use wire::u32_at;

// The cell behind `at`, or the first one.
fn cell_after(from: usize, end: usize, at: usize) -> usize
    requires { (from ≤ at) × (at < end) }
    ensures { (from ≤ result) × (result ≤ end) }
{
    if at + 1 < end {
        return at + 1;
    }
    from
}

// The different heads of the hop records from `first` up to `last` in the cells from `from` on, ascending: where they end. The records of one tail come with
// ascending heads, so the next head is looked for first behind the one before.
pub fn collect(
    s: &[u8],
    layout: Layout,
    first: usize,
    last: usize,
    addresses: &mut [u32; 242],
    from: usize,
) -> usize
    requires right_profile { RightProfile (layout_of layout) s.now }
    requires first_le_last { (first ≤ last) × (last ≤ hop_count s.now) × (length (heads_of (layout_of layout) s.now first last) ≤ 16) }
    requires from_bound { (from + 16 ≤ 242) × (length addresses.old ≡ 242) }
    ensures value { result ≡ from + length (heads_of (layout_of layout) s.now first last) }
    ensures addresses_after { addresses.new ≡ placed from (heads_of (layout_of layout) s.now first last) addresses.old }
{
    if last <= first {
        return from;
    }
    let mut start = hop_start(s, layout, first);
    let mut end = from;
    let mut next = from;
    for _ in first..last {
        let head = NodeAddress(u32_at(s, start + 8));
        if !is_at(&*addresses, next, end, head) {
            let put = insert_at(addresses, from, end, head);
            end = put.end;
            next = put.at;
        }
        next = cell_after(from, end, next);
        start += layout.hop_size;
    }
    end
}
