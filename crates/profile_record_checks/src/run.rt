// Hop records that leave one node of a pair of domains stand together, a run. One that has the first eight bytes of a record that passed has passed the tests of its
// domains and of its tail with it, and is in order where its head is above: so most records want only head, costs and bandwidth looked at.
ghost use Rattle.std.specs.Prelude.{◌≡◌, true, ◌+◌, ◌<◌, ◌≤◌, length};
ghost use Rattle.model.specs.Bytes.{number};
ghost use Rattle.model.specs.Verdict.{Pass};
ghost use Rattle.model.specs.Profile.{hop_verdict};
ghost use Rattle.profile_records.specs.Layout.{layout_of, SoundLayout, HopsWithin};
ghost use Rattle.profile_record_checks.specs.Run.{GoesOn, RunTo};

use model::NodeAddress;
use profile_records::header::class_of;
use profile_records::hop::hop_start;
use profile_records::layout::Layout;
use profile_reserved::address_misplaced;
use wire::u32_at;

// The first words of a record: its two domains as one number, its tail and its head.
#[derive(Clone, Copy)]
struct Key {
    pair: u32,
    tail: u32,
    head: u32,
}

fn key_at(s: &[u8], at: usize) -> Key
    requires { at + 12 ≤ length s.now }
    ensures { (result.pair ≡ number 4 s.now at) × (result.tail ≡ number 4 s.now (at + 4)) × (result.head ≡ number 4 s.now (at + 8)) }
{
    Key {
        pair: u32_at(s, at),
        tail: u32_at(s, at + 4),
        head: u32_at(s, at + 8),
    }
}

// The record at an offset goes on with the run of the record before it, and nothing else is wrong with it.
fn goes_on(s: &[u8], layout: Layout, at: usize, class: u8, before: Key) -> bool
    requires { SoundLayout (layout_of layout) × (at + layout.hop_size ≤ length s.now) }
    ensures { result ≡ true → GoesOn (layout_of layout) s.now at class before.pair before.tail before.head }
{
    let cost_at = layout.cost_at;
    let other_at = layout.other_at;
    let here = key_at(s, at);
    let cost = u32_at(s, at + cost_at);
    let other = u32_at(s, at + other_at);
    let bits = u32_at(s, at + 16);
    let misplaced = address_misplaced(class, NodeAddress(here.head));
    (here.pair == before.pair)
        & (here.tail == before.tail)
        & (before.head < here.head)
        & (cost <= layout.most_cost)
        & (other <= layout.most_cost)
        & (bits < 0x7F800000)
        & !misplaced
}

// Where the run of a hop record that passed ends, as far as its records surely pass: the first one behind it that is left to be checked.
pub fn run_end(s: &[u8], layout: Layout, first: usize, hops: usize) -> usize
    requires hops_within { HopsWithin (layout_of layout) s.now hops × (first < hops) × (hops < 65536) }
    requires first_value { hop_verdict (layout_of layout) s.now first ≡ Pass }
    ensures { RunTo (layout_of layout) s.now first hops result }
{
    let class = class_of(s);
    let mut at = hop_start(s, layout, first);
    let mut before = key_at(s, at);
    for i in first + 1..hops {
        at += layout.hop_size;
        if !goes_on(s, layout, at, class, before) {
            return i;
        }
        before.head = u32_at(s, at + 8);
    }
    hops
}
