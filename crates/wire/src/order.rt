// Records compared as bytes, a word of four bytes at a time.
ghost use Rattle.std.specs.Prelude.{◌≡◌, ◌+◌, ◌*◌, ◌≤◌, length};
ghost use Rattle.model.specs.Lists.{below};
ghost use Rattle.model.specs.Bytes.{part};

use crate::u32_at;

// Whether the bytes from `a` on are less than those from `b` on, `words` times four of each.
pub fn record_below(s: &[u8], a: usize, b: usize, words: usize) -> bool
    requires { (a + 4 * words ≤ length s.now) × (b + 4 * words ≤ length s.now) }
    ensures { result ≡ below (part s.now a (4 * words)) (part s.now b (4 * words)) }
{
    for i in 0..words {
        let x = u32_at(s, a + 4 * i);
        let y = u32_at(s, b + 4 * i);
        if x != y {
            return x < y;
        }
    }
    false
}
