// Hop records read by value.
ghost use Rattle.std.specs.Prelude.{◌≡◌, ◌<◌};
ghost use Rattle.model.specs.Profile.{hop_count, hop_start, bandwidth_bits, hop_at};
ghost use Rattle.profile_records.specs.Layout.{layout_of, HopWithin, RightProfile, RightHop};

use crate::header::domain_count;
use crate::layout::Layout;
use model::{DomainIndex, Hop, NodeAddress};
use wire::{u16_at, u32_at};

// Where hop record i starts.
pub fn hop_start(s: &[u8], layout: Layout, i: usize) -> usize
    requires { HopWithin (layout_of layout) s.now i }
    ensures { result ≡ hop_start (layout_of layout) s.now i }
{
    let domains = domain_count(s) as usize;
    12 + 20 * domains + layout.hop_size * i
}

// Hop record i.
pub fn hop_at(s: &[u8], layout: Layout, i: usize) -> Hop
    requires hop_within { HopWithin (layout_of layout) s.now i }
    requires i_bound { bandwidth_bits (layout_of layout) s.now i < 0x7f800000 }
    ensures { result ≡ hop_at (layout_of layout) s.now i }
{
    let at = hop_start(s, layout, i);
    let cost_at = layout.cost_at;
    let from = DomainIndex(u16_at(s, at));
    let to = DomainIndex(u16_at(s, at + 2));
    let tail = NodeAddress(u32_at(s, at + 4));
    let head = NodeAddress(u32_at(s, at + 8));
    let cost = u32_at(s, at + cost_at);
    let bandwidth = f32::from_bits(u32_at(s, at + 16));
    Hop {
        from,
        to,
        tail,
        head,
        cost,
        bandwidth,
    }
}

// Hop record i of an accepted profile.
pub fn accepted_hop(s: &[u8], layout: Layout, i: usize) -> Hop
    requires { RightProfile (layout_of layout) s.now × (i < hop_count s.now) }
    ensures { RightHop (layout_of layout) s.now i result }
{
    hop_at(s, layout, i)
}
