// Big-endian numbers read from a byte slice at a place, and written to one; parts of a slice compared by them.
#![tactic(auto)]

ghost use Rattle.std.specs.Prelude.{◌≡◌, ℕ, ◌++◌, ◌+◌, ◌≤◌, ◌<◌, length, take, drop, eqb};
ghost use Rattle.std.specs.List.{list_all};
ghost use Rattle.model.specs.Bytes.{number, bytes_of};

pub mod order;

// A byte as a number of the widest kind.
pub fn wide(x: u8) -> usize
    ensures { (result ≡ x) × (result < 256) }
{
    x as usize
}

// Whether every byte is zero.
pub fn all_zero(bytes: &[u8]) -> bool
    ensures { result ≡ list_all (λ (x : ℕ). eqb x 0) bytes.now }
{
    bytes.iter().all(|byte| *byte == 0)
}

// The two bytes from `at` on.
pub fn u16_at(s: &[u8], at: usize) -> u16
    requires { at + 2 ≤ length s.now }
    ensures { result ≡ number 2 s.now at }
{
    u16::from_be_bytes([s[at], s[at + 1]])
}

// The four bytes from `at` on.
pub fn u32_at(s: &[u8], at: usize) -> u32
    requires { at + 4 ≤ length s.now }
    ensures { result ≡ number 4 s.now at }
{
    u32::from_be_bytes([s[at], s[at + 1], s[at + 2], s[at + 3]])
}

// `x` into the two bytes from `at` on; the other bytes stay.
pub fn put_u16(s: &mut [u8], at: usize, x: u16)
    requires { at + 2 ≤ length s.old }
    ensures { s.new ≡ take at s.old ++ bytes_of 2 x ++ drop (at + 2) s.old }
{
    s[at..at + 2].copy_from_slice(&x.to_be_bytes());
}

// `x` into the four bytes from `at` on; the other bytes stay.
pub fn put_u32(s: &mut [u8], at: usize, x: u32)
    requires { at + 4 ≤ length s.old }
    ensures { s.new ≡ take at s.old ++ bytes_of 4 x ++ drop (at + 4) s.old }
{
    s[at..at + 4].copy_from_slice(&x.to_be_bytes());
}
