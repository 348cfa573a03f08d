// Lent buffers: the capacity of several that belong together, and bytes or numbers put into one from a place on. What lies beside them stays.
#![tactic(auto)]

ghost use Rattle.std.specs.Prelude.{◌≡◌, min, ◌+◌, ◌≤◌, length, take};
ghost use Rattle.std.proofs.Math.Seq.{paste};
ghost use Rattle.model.specs.Lists.{over};
ghost use Rattle.buffers.specs.Placed.{Put};

// The lesser of two counts: of buffers that belong together the shortest is their capacity.
pub fn lesser(a: usize, b: usize) -> usize
    ensures { result ≡ min a b }
{
    a.min(b)
}

// The first `n` of some bytes, into a buffer from a place on; the answer is the place after them. Byte by byte: copied as a slice, the library would need `memmove` from outside.
pub fn put_bytes(out: &mut [u8], at: usize, bytes: &[u8], n: usize) -> usize
    requires { (at + n ≤ length out.old) × (n ≤ length bytes.now) }
    ensures { Put at (take n bytes.now) out.old out.new result }
{
    for j in 0..n {
        out[at + j] = bytes[j];
    }
    at + n
}

// The first `n` of some numbers, into a buffer from a place on.
pub fn put_numbers(out: &mut [u32], at: usize, values: &[u32], n: usize)
    requires { (at + n ≤ length out.old) × (n ≤ length values.now) }
    ensures { out.new ≡ paste out.old at values.now n }
{
    out[at..at + n].copy_from_slice(&values[..n]);
}

// The first `n` of some numbers over the start of a buffer.
pub fn put_first(values: &[u32], n: usize, out: &mut [u32])
    requires { (n ≤ length values.now) × (n ≤ length out.old) }
    ensures { out.new ≡ over (take n values.now) out.old }
{
    put_numbers(out, 0, values, n);
}
