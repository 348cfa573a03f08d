// The domains of a profile that a subobject can mean.
ghost use Rattle.std.specs.Prelude.{◌≡◌, ℕ, Bool, ◌+◌, ◌≤◌, ◌<◌, length};
ghost use Rattle.model.specs.Lists.{count_from, keep};
ghost use Rattle.model.specs.Bytes.{part};
ghost use Rattle.model.specs.Profile.{domains, domain_at, domain_start};
ghost use Rattle.model.specs.Sequence.{of_system, of_area};
ghost use Rattle.profile_records.specs.Domains.{WholeDomains, ShortAreas};
ghost use Rattle.list_include.specs.NamedDomain.{found_of, found_as, area_is};

use model::DomainIndex;
use profile_records::area::has_area;
use profile_records::domain::domain_at;
use profile_records::header::domain_count;
use wire::u32_at;

// None, one (by its index) or several.
#[derive(Clone, Copy)]
pub enum NamedDomain {
    Nothing,
    One { domain: DomainIndex },
    Several,
}

fn told(hits: usize, last: usize) -> NamedDomain
    requires { last ≤ 65535 }
    ensures { result ≡ found_as hits last }
{
    match hits {
        0 => NamedDomain::Nothing,
        1 => NamedDomain::One {
            domain: DomainIndex(last as u16),
        },
        _ => NamedDomain::Several,
    }
}

// Which of the domains below `n` pass a test.
fn scan<F: Fn(usize) -> bool>(n: usize, test: F) -> NamedDomain
    requires few { n ≤ 64 }
    requires each { (i : ℕ) → i < n → F.pre test i }
    ensures { (p : ℕ → Bool) → ((i : ℕ) (b : Bool) → i < n → F.post test i b → b ≡ p i) → result ≡ found_of (keep p (count_from 0 n)) }
{
    let mut hits: usize = 0;
    let mut last: usize = 0;
    for i in 0..n {
        if test(i) {
            hits += 1;
            last = i;
        }
    }
    told(hits, last)
}

// The domains of an AS.
pub fn of_system(profile: &[u8], asn: u32) -> NamedDomain
    requires { WholeDomains profile.now }
    ensures { result ≡ found_of (of_system (domains profile.now) asn) }
{
    scan(domain_count(profile) as usize, |i| {
        u32_at(profile, 12 + 20 * i) == asn
    })
}

// The domains of an AS that have the area of this kind whose bytes are the `count` bytes of the list from `start` on.
pub fn of_area(
    profile: &[u8],
    asn: u32,
    list: &[u8],
    kind: u8,
    start: usize,
    count: usize,
) -> NamedDomain
    requires { WholeDomains profile.now × ShortAreas profile.now × (start + count ≤ length list.now) }
    ensures { result ≡ found_of (of_area (domains profile.now) asn (record { kind = kind; bytes = part list.now start count })) }
{
    scan(domain_count(profile) as usize, |i| {
        names(profile, i, asn, list, kind, start, count)
    })
}

// A domain record is of this AS and has this area.
fn names(
    profile: &[u8],
    i: usize,
    asn: u32,
    list: &[u8],
    kind: u8,
    start: usize,
    count: usize,
) -> bool
    requires { (domain_start i + 20 ≤ length profile.now) × ((domain_at profile.now i).length ≤ 13) × (start + count ≤ length list.now) }
    ensures { result ≡ area_is profile.now asn (record { kind = kind; bytes = part list.now start count }) i }
{
    let d = domain_at(profile, i);
    d.asn == asn && has_area(d, list, kind, start, count)
}
