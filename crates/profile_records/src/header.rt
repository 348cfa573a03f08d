// The header of a profile: class and the two counts.
ghost use Rattle.std.specs.Prelude.{◌≡◌, ◌≤◌, length};
ghost use Rattle.model.specs.Profile.{class_of, domain_count, hop_count};

use wire::u16_at;

pub fn class_of(s: &[u8]) -> u8
    requires { 12 ≤ length s.now }
    ensures { result ≡ class_of s.now }
{
    s[5]
}

pub fn domain_count(s: &[u8]) -> u16
    requires { 12 ≤ length s.now }
    ensures { result ≡ domain_count s.now }
{
    u16_at(s, 6)
}

pub fn hop_count(s: &[u8]) -> u16
    requires { 12 ≤ length s.now }
    ensures { result ≡ hop_count s.now }
{
    u16_at(s, 8)
}
