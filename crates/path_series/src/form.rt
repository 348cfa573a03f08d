// Whether the arguments of a series fit together.
ghost use Rattle.std.specs.Prelude.{◌≡◌, eqb};
ghost use Rattle.model.specs.Lists.{any, sum};
ghost use Rattle.path_series.specs.Calls.{unknown, malformed as malformed_by};

// A kind that is neither 0 nor 1.
fn unknown_kind(kinds: &[u8]) -> bool
    ensures { result ≡ any unknown kinds.now }
{
    kinds.iter().any(|kind| 1 < *kind)
}

// The sizes add up to the whole. Counted down from it, since their sum may be any number.
fn adds_up(sizes: &[u32], whole: usize) -> bool
    ensures { result ≡ eqb (sum sizes.now) whole }
{
    let mut left = whole;
    for size in sizes {
        let Some(rest) = left.checked_sub(*size as usize) else {
            return false;
        };
        left = rest;
    }
    left == 0
}

pub fn malformed(kinds: &[u8], sizes: &[u32], buffers: usize, numbers: usize) -> bool
    ensures { result ≡ malformed_by kinds.now sizes.now buffers numbers }
{
    if unknown_kind(kinds) || kinds.len() != sizes.len() {
        return true;
    }
    !adds_up(sizes, buffers) || numbers / 5 < kinds.len()
}
