// Domain records read by value.
ghost use Rattle.std.specs.Prelude.{◌≡◌, ◌+◌, ◌≤◌, ◌<◌, length};
ghost use Rattle.model.specs.Bytes.{part};
ghost use Rattle.model.specs.Profile.{domain_start, domain_at};

use model::Domain;
use wire::u32_at;

fn area_at(s: &[u8], at: usize) -> [u8; 13]
    requires { at + 13 ≤ length s.now }
    ensures { result ≡ part s.now at 13 }
{
    let mut area = [0; 13];
    area.copy_from_slice(&s[at..at + 13]);
    area
}

// Domain record i.
pub fn domain_at(s: &[u8], i: usize) -> Domain
    requires { domain_start i + 20 ≤ length s.now }
    ensures { result ≡ domain_at s.now i }
{
    let at = 12 + 20 * i;
    let asn = u32_at(s, at);
    let kind = s[at + 4];
    let length = s[at + 5];
    let area = area_at(s, at + 6);
    Domain {
        asn,
        kind,
        length,
        area,
    }
}
