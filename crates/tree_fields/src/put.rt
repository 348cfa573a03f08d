// The tree that was worked out, field by field over the start of buffers: levels, addresses, marks and costs.
ghost use Rattle.std.specs.Prelude.{◌≡◌, map, ◌≤◌, ◌-◌, length, take, replicate};
ghost use Rattle.std.proofs.Math.Seq.{paste};
ghost use Rattle.model.specs.Lists.{over};
ghost use Rattle.tree_fields.specs.Fields.{mark_of, cost_of, levels_of, Places};

use buffers::put_first;
use tree_reaches::UNREACHABLE;

// One place's number for each of its entries.
fn put_place(level: &mut [u32], place: u32, from: usize, to: usize)
    requires { (from ≤ to) × (to ≤ length level.old) }
    ensures { level.new ≡ paste level.old from (replicate (to - from) place) (to - from) }
{
    level[from..to].fill(place);
}

// The levels of all entries, from where each place starts.
pub fn put_levels(starts: &[usize; 18], places: usize, level: &mut [u32])
    requires { Places places starts.now (length level.old) }
    ensures { level.new ≡ over (levels_of places starts.now) level.old }
{
    for i in 0..places {
        put_place(level, i as u32, starts[i], starts[i + 1]);
    }
}

// The addresses of all entries.
pub fn put_addresses(addresses: &[u32; 242], n: usize, out: &mut [u32])
    requires { (n ≤ 241) × (n ≤ length addresses.now) × (n ≤ length out.old) }
    ensures { out.new ≡ over (take n addresses.now) out.old }
{
    put_first(addresses, n, out);
}

// 1 where the destination is reached, else 0.
fn mark_of(code: u32) -> u8
    ensures { result ≡ mark_of code }
{
    if code == UNREACHABLE {
        return 0;
    }
    1
}

// The least cost, 0 where the destination isn't reached.
fn cost_of(reach: u32) -> u32
    ensures { result ≡ cost_of reach }
{
    if reach == UNREACHABLE {
        return 0;
    }
    reach
}

pub fn put_marks(codes: &[u32; 242], n: usize, out: &mut [u8])
    requires { (n ≤ 241) × (n ≤ length codes.now) × (n ≤ length out.old) }
    ensures { out.new ≡ over (map mark_of (take n codes.now)) out.old }
{
    for i in 0..n {
        out[i] = mark_of(codes[i]);
    }
}

pub fn put_costs(codes: &[u32; 242], n: usize, out: &mut [u32])
    requires { (n ≤ 241) × (n ≤ length codes.now) × (n ≤ length out.old) }
    ensures { out.new ≡ over (map cost_of (take n codes.now)) out.old }
{
    for i in 0..n {
        out[i] = cost_of(codes[i]);
    }
}
