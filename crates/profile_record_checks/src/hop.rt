// Checks 17, 18 and 16 of each hop record.
ghost use Rattle.std.specs.Prelude.{◌≡◌, ◌<◌};
ghost use Rattle.model.specs.Verdict.{in_turn};
ghost use Rattle.model.specs.Profile.{hop_count, hop_malformed, hop_misordered, hop_verdict};
ghost use Rattle.profile_records.specs.Layout.{layout_of, HopWithin, HopsWithin};
ghost use Rattle.profile_record_checks.specs.Misplaced.{hop_misplaced};

use crate::run::run_end;
use model::{NodeAddress, Reason, Verdict};
use profile_records::header::{class_of, domain_count, hop_count};
use profile_records::hop::hop_start;
use profile_records::layout::Layout;
use profile_reserved::address_misplaced;
use refusal::refuse_if;
use wire::order::record_below;
use wire::u32_at;

// A domain not below the count, a cost over the limit, or bandwidth bits out of range.
fn hop_malformed(s: &[u8], layout: Layout, i: usize) -> bool
    requires { HopWithin (layout_of layout) s.now i }
    ensures { result ≡ hop_malformed (layout_of layout) s.now i }
{
    let domains = domain_count(s) as u32;
    let at = hop_start(s, layout, i);
    let cost_at = layout.cost_at;
    let other_at = layout.other_at;
    let pair = u32_at(s, at);
    let cost = u32_at(s, at + cost_at);
    let other = u32_at(s, at + other_at);
    let bits = u32_at(s, at + 16);
    (domains <= pair / 65536)
        | (domains <= pair % 65536)
        | (layout.most_cost < cost)
        | (layout.most_cost < other)
        | (0x7F800000 <= bits)
}

// Not above the record before it by the first 12 bytes.
fn hop_misordered(s: &[u8], layout: Layout, i: usize) -> bool
    requires { HopWithin (layout_of layout) s.now i }
    ensures { result ≡ hop_misordered (layout_of layout) s.now i }
{
    if i == 0 {
        return false;
    }
    let before = hop_start(s, layout, i - 1);
    let at = hop_start(s, layout, i);
    !record_below(s, before, at, 3)
}

// One of its two nodes from the wrong ranges.
fn hop_misplaced(s: &[u8], layout: Layout, i: usize) -> bool
    requires { HopWithin (layout_of layout) s.now i }
    ensures { result ≡ hop_misplaced (layout_of layout) s.now i }
{
    let class = class_of(s);
    let at = hop_start(s, layout, i);
    let tail = NodeAddress(u32_at(s, at + 4));
    let head = NodeAddress(u32_at(s, at + 8));
    address_misplaced(class, tail) | address_misplaced(class, head)
}

fn hop_verdict(s: &[u8], layout: Layout, i: usize) -> Verdict
    requires i_bound { i < 65536 }
    requires hop_within { HopWithin (layout_of layout) s.now i }
    ensures { result ≡ hop_verdict (layout_of layout) s.now i }
{
    let place = (domain_count(s) as usize + i) as u32;
    refuse_if(hop_malformed(s, layout, i), Reason::MalformedHop, place)?;
    refuse_if(hop_misordered(s, layout, i), Reason::MisorderedHop, place)?;
    refuse_if(hop_misplaced(s, layout, i), Reason::Misplaced, place)
}

// Every hop record in turn: the first of each tail by all its checks, the others of that tail by those that are left for them.
pub fn hops_verdict(s: &[u8], layout: Layout) -> Verdict
    requires { HopsWithin (layout_of layout) s.now (hop_count s.now) }
    ensures { result ≡ in_turn (hop_verdict (layout_of layout) s.now) 0 (hop_count s.now) }
{
    let hops = hop_count(s) as usize;
    let mut i = 0;
    while i < hops {
        hop_verdict(s, layout, i)?;
        i = run_end(s, layout, i, hops);
    }
    Ok(())
}
