// A series of calls for first and next on one request, each next given a copy of the path last handed out.
#![tactic(auto)]

ghost use Rattle.request.specs.CheckedRequest.{request_for};
ghost use Rattle.path_series.specs.Runs.{RunIs};

use crate::calls::make_calls;
use crate::form::malformed;
use request::Asked;

pub mod calls;
pub mod form;

// The arguments of a series don't fit together; nothing is written.
#[derive(Clone, Copy, Debug, PartialEq, Eq)]
pub struct MalformedSeries;

// Makes the calls: kinds[j] is 0 for a first and 1 for a next; the buffers lie back to back, of sizes[j] addresses; five numbers for each call.
pub fn run(
    profile: &[u8],
    asked: Asked,
    include: &[u8],
    exclude: &[u8],
    kinds: &[u8],
    sizes: &[u32],
    buffers: &mut [u32],
    numbers: &mut [u32],
) -> Result<(), MalformedSeries>
    ensures { RunIs (request_for profile.now asked include.now exclude.now) kinds.now sizes.now buffers.old numbers.old result buffers.new numbers.new }
{
    if malformed(kinds, sizes, buffers.len(), numbers.len()) {
        return Err(MalformedSeries);
    }
    make_calls(
        profile, asked, include, exclude, kinds, sizes, buffers, numbers,
    );
    Ok(())
}
