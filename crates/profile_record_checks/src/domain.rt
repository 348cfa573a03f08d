// Checks 14, 15 and 16 of each domain record.
ghost use Rattle.std.specs.Prelude.{◌≡◌, ◌+◌, ◌≤◌, ◌<◌, ◌&&◌, length, drop};
ghost use Rattle.model.specs.Bytes.{all_zero};
ghost use Rattle.model.specs.Verdict.{in_turn};
ghost use Rattle.model.specs.Profile.{domain_count, domain_start, area_length_fits, domain_malformed, domain_misordered, domain_verdict};

use model::{Reason, Verdict};
use profile_records::domain::domain_at;
use profile_records::header::{class_of, domain_count};
use profile_reserved::{as_misplaced, as_nobodys};
use refusal::refuse_if;
use wire::all_zero;
use wire::order::record_below;

// Whether an area of this kind may have this length.
fn area_length_fits(kind: u8, length: u8) -> bool
    ensures { result ≡ area_length_fits kind length }
{
    let none = (kind == 0) & (length == 0);
    let ospf = (kind == 1) & (length == 4);
    let is_is = (kind == 2) & (1 <= length) & (length <= 13);
    none | ospf | is_is
}

// An area's length is one that its kind may have, and its bytes past that are zero.
fn area_fits(kind: u8, used: u8, area: &[u8]) -> bool
    requires { length area.now ≡ 13 }
    ensures { result ≡ area_length_fits kind used && all_zero (drop used area.now) }
{
    area_length_fits(kind, used) && all_zero(&area[used as usize..])
}

// Kind unknown, length not the kind's, an area byte after the length or the last byte not zero, an AS that is nobody's.
fn domain_malformed(s: &[u8], i: usize) -> bool
    requires { domain_start i + 20 ≤ length s.now }
    ensures { result ≡ domain_malformed s.now i }
{
    let at = 12 + 20 * i;
    let d = domain_at(s, i);
    let fits = area_fits(d.kind, d.length, &s[at + 6..at + 19]);
    let last = s[at + 19];
    let nobodys = as_nobodys(d.asn);
    !fits | (last != 0) | nobodys
}

// Not above the record before it, compared as bytes; or the record before it is of kind 0 and of the same AS.
fn domain_misordered(s: &[u8], i: usize) -> bool
    requires { domain_start i + 20 ≤ length s.now }
    ensures { result ≡ domain_misordered s.now i }
{
    if i == 0 {
        return false;
    }
    let ascends = record_below(s, 12 + 20 * (i - 1), 12 + 20 * i, 5);
    let before = domain_at(s, i - 1);
    let this = domain_at(s, i);
    !ascends | ((before.kind == 0) & (before.asn == this.asn))
}

fn domain_verdict(s: &[u8], i: usize) -> Verdict
    requires { (i < 65536) × (domain_start i + 20 ≤ length s.now) }
    ensures { result ≡ domain_verdict s.now i }
{
    refuse_if(domain_malformed(s, i), Reason::MalformedDomain, i as u32)?;
    refuse_if(domain_misordered(s, i), Reason::MisorderedDomain, i as u32)?;
    let d = domain_at(s, i);
    refuse_if(
        as_misplaced(class_of(s), d.asn),
        Reason::Misplaced,
        i as u32,
    )
}

// Every domain record in turn.
pub fn domains_verdict(s: &[u8]) -> Verdict
    requires { domain_start (domain_count s.now) ≤ length s.now }
    ensures { result ≡ in_turn (domain_verdict s.now) 0 (domain_count s.now) }
{
    let domains = domain_count(s) as usize;
    for i in 0..domains {
        domain_verdict(s, i)?;
    }
    Ok(())
}
