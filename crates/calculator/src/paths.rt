// First, next and the series under C names.
ghost use Rattle.std.specs.Prelude.{length};
ghost use Rattle.model.specs.Calls as Calls;
ghost use Rattle.request.specs.Bits.{limits_of_bits};
ghost use Rattle.request.specs.CheckedRequest.{request_of};
ghost use Rattle.calculator.specs.Exports.{PathExport, SeriesExport};

use path_answers::numbers::tell;
use path_calls::{first, next};
use path_series::{MalformedSeries, run};
use request::limits::asked_of;

// numbers: place, total, bits of the total's float, round
#[unsafe(no_mangle)]
pub extern "C" fn yq_first(
    profile: &[u8],
    ingress: u16,
    source: u32,
    destination: u32,
    include: &[u8],
    exclude: &[u8],
    bandwidth_bits: u32,
    bound_counts: bool,
    bound_bits: u32,
    path: &mut [u32],
    numbers: &mut [u32; 4],
) -> u32
    ensures { PathExport (Calls.first (request_of profile.now ingress source destination include.now exclude.now (limits_of_bits bandwidth_bits bound_counts bound_bits)) (length path.old)) path.old result numbers.new path.new }
{
    let asked = asked_of(
        ingress,
        source,
        destination,
        bandwidth_bits,
        bound_counts,
        bound_bits,
    );
    let answer = first(profile, asked, include, exclude, path);
    tell(answer, numbers)
}

// numbers: as for yq_first
#[unsafe(no_mangle)]
pub extern "C" fn yq_next(
    profile: &[u8],
    ingress: u16,
    source: u32,
    destination: u32,
    include: &[u8],
    exclude: &[u8],
    bandwidth_bits: u32,
    bound_counts: bool,
    bound_bits: u32,
    given: &[u32],
    path: &mut [u32],
    numbers: &mut [u32; 4],
) -> u32
    ensures { PathExport (Calls.next (request_of profile.now ingress source destination include.now exclude.now (limits_of_bits bandwidth_bits bound_counts bound_bits)) given.now (length path.old)) path.old result numbers.new path.new }
{
    let asked = asked_of(
        ingress,
        source,
        destination,
        bandwidth_bits,
        bound_counts,
        bound_bits,
    );
    let answer = next(profile, asked, include, exclude, given, path);
    tell(answer, numbers)
}

// five numbers for each call: its answer, place, total, bits of the total's float, round
#[unsafe(no_mangle)]
pub extern "C" fn yq_series(
    profile: &[u8],
    ingress: u16,
    source: u32,
    destination: u32,
    include: &[u8],
    exclude: &[u8],
    bandwidth_bits: u32,
    bound_counts: bool,
    bound_bits: u32,
    kinds: &[u8],
    sizes: &[u32],
    buffers: &mut [u32],
    numbers: &mut [u32],
) -> u32
    ensures { SeriesExport (request_of profile.now ingress source destination include.now exclude.now (limits_of_bits bandwidth_bits bound_counts bound_bits)) kinds.now sizes.now buffers.old numbers.old result buffers.new numbers.new }
{
    let asked = asked_of(
        ingress,
        source,
        destination,
        bandwidth_bits,
        bound_counts,
        bound_bits,
    );
    let answer = run(
        profile, asked, include, exclude, kinds, sizes, buffers, numbers,
    );
    match answer {
        Ok(()) => 0,
        Err(MalformedSeries) => 100,
    }
}
