// The EXRS that stand in a part of an include list of right form, and those of a whole sequence: how many bytes they have, and the bytes in a lent buffer.
ghost use Rattle.std.specs.Prelude.{◌≡◌, ◌+◌, ◌-◌, ◌≤◌, ◌<◌, length};
ghost use Rattle.model.specs.Subobject.{after_subobject};
ghost use Rattle.model.specs.Calls.{all_exrs};
ghost use Rattle.laws.specs.Exrs.{exrs_in, Stretch};
ghost use Rattle.list_include.specs.Reading.{state_stops, SoundState, Placed};
ghost use Rattle.buffers.specs.Placed.{Put};
ghost use Rattle.list_reader.specs.ReadInclude.{ExrsAt, ExrsIn};

use buffers::put_bytes;
use list_include::state::State;
use list_subobject::types::is_exrs;
use list_subobject::walk::next_after;

// How many bytes of the subobject at an offset are those of an EXRS: all up to the next one, or none where its type is another.
fn bytes_at(list: &[u8], at: usize, next: usize) -> usize
    requires { (at < next) × (next ≤ length list.now) × (next ≡ after_subobject list.now at) }
    ensures { ExrsAt list.now at next result }
{
    if !is_exrs(list[at]) {
        return 0;
    }
    next - at
}

// How many bytes the EXRS of a stretch have.
fn exrs_size(list: &[u8], from: usize, to: usize) -> usize
    requires { Stretch list.now from to }
    ensures { (result ≡ length (exrs_in list.now from to)) × (result ≤ to - from) }
{
    let mut size: usize = 0;
    let mut at = from;
    while at < to {
        let next = next_after(list, at);
        size += bytes_at(list, at, next);
        at = next;
    }
    size
}

// The EXRS of a stretch, into a buffer from a place on; the answer is the place after them.
fn put_exrs(list: &[u8], from: usize, to: usize, out: &mut [u8], at: usize) -> usize
    requires { Stretch list.now from to × (at + length (exrs_in list.now from to) ≤ length out.old) }
    ensures { Put at (exrs_in list.now from to) out.old out.new result }
{
    let mut end = at;
    let mut o = from;
    while o < to {
        let next = next_after(list, o);
        let n = bytes_at(list, o, next);
        end = put_bytes(out, end, &list[o..next], n);
        o = next;
    }
    end
}

// How many bytes all EXRS of a sequence have: they stand before the subobject that named the last domain.
pub fn all_size(list: &[u8], st: State) -> usize
    requires { SoundState st × Placed list.now st × (length list.now ≤ 1024) }
    ensures { (result ≡ length (all_exrs (state_stops list.now st))) × (result ≤ 1024) }
{
    let last = st.stops[st.count - 1].named as usize;
    exrs_size(list, 0, last)
}

// All EXRS of a sequence at the start of a lent buffer, and how many bytes of them each domain has.
pub fn copy_exrs(list: &[u8], st: State, counts: &mut [u32], exrs: &mut [u8])
    requires sound_state { SoundState st × Placed list.now st × (length list.now ≤ 1024) }
    requires count_in_bounds { (st.count ≤ length counts.old) × (length (all_exrs (state_stops list.now st)) ≤ length exrs.old) }
    ensures { ExrsIn (state_stops list.now st) counts.old exrs.old counts.new exrs.new }
{
    let mut at: usize = 0;
    let mut from: usize = 0;
    for i in 0..st.count {
        let to = st.stops[i].named as usize;
        let next = put_exrs(list, from, to, exrs, at);
        counts[i] = (next - at) as u32;
        at = next;
        from = to;
    }
}
