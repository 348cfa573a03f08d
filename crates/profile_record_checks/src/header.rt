// The header of a profile: mark, version, class, the two counts and the zero bytes after them; checks 10 to 13.
ghost use Rattle.std.specs.Prelude.{◌≡◌, ◌≤◌, length};
ghost use Rattle.model.specs.Profile.{header_wrong, counts_wrong, length_wrong, header_verdict};
ghost use Rattle.profile_records.specs.Layout.{layout_of, SoundLayout};

use model::{Reason, Verdict};
use profile_records::header::{class_of, domain_count, hop_count};
use profile_records::layout::Layout;
use refusal::{refuse, refuse_if};
use wire::{u16_at, u32_at};

// Mark, version or zero bytes wrong.
fn header_wrong(s: &[u8], layout: Layout) -> bool
    requires { 12 ≤ length s.now }
    ensures { result ≡ header_wrong (layout_of layout) s.now }
{
    let mark = u32_at(s, 0) / 256;
    let version = u16_at(s, 3);
    let zero = u16_at(s, 10);
    (mark != 0x445350) | (version != layout.version) | (zero != 0)
}

// Class or a count out of range.
fn counts_wrong(s: &[u8], layout: Layout) -> bool
    requires { 12 ≤ length s.now }
    ensures { result ≡ counts_wrong (layout_of layout) s.now }
{
    let class = class_of(s);
    let domains = domain_count(s);
    let hops = hop_count(s);
    (1 < class) | (domains == 0) | (64 < domains) | (layout.most_hops < hops)
}

// Length not that of the header and as many records as it says.
fn length_wrong(s: &[u8], layout: Layout) -> bool
    requires in_bounds { 12 ≤ length s.now }
    requires sound_layout { SoundLayout (layout_of layout) }
    ensures { result ≡ length_wrong (layout_of layout) s.now }
{
    let domains = domain_count(s) as usize;
    let hops = hop_count(s) as usize;
    s.len() != 12 + 20 * domains + layout.hop_size * hops
}

pub fn header_verdict(s: &[u8], layout: Layout) -> Verdict
    requires { SoundLayout (layout_of layout) }
    ensures { result ≡ header_verdict (layout_of layout) s.now }
{
    if s.len() < 12 {
        return refuse(Reason::ShortProfile, 0);
    }
    refuse_if(header_wrong(s, layout), Reason::WrongHeader, 0)?;
    refuse_if(counts_wrong(s, layout), Reason::WrongCounts, 0)?;
    refuse_if(length_wrong(s, layout), Reason::WrongLength, 0)
}
