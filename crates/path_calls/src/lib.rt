// The public calls first and next: the shortest paths of a request, one at a time, into a lent list of addresses.
#![tactic(auto)]

ghost use Rattle.std.specs.Prelude.{◌≡◌, ◌≤◌, length, take};
ghost use Rattle.model.specs.Lists.{over};
ghost use Rattle.model.specs.Answers.{numbers_of_path};
ghost use Rattle.model.specs.Calls as Calls;
ghost use Rattle.request.specs.CheckedRequest.{request_for};
ghost use Rattle.path_answers.specs.Numbers.{Real};

use crate::routes::{first_route, next_route};
use buffers::put_first;
use model::{PathAnswer, Refusal};
use path_answers::PathReply;
use request::Asked;

pub mod routes;

// The answer of a reply, with its path over the start of the lent list.
fn hand_out(reply: PathReply, path: &mut [u32]) -> PathAnswer
    requires { (reply.count ≤ length reply.path) × (reply.count ≤ length path.old) }
    ensures { (result ≡ reply.answer) × (path.new ≡ over (take reply.count reply.path) path.old) }
{
    put_first(&reply.path, reply.count, path);
    reply.answer
}

// The first of the shortest paths, or why there is none.
pub fn first(
    profile: &[u8],
    asked: Asked,
    include: &[u8],
    exclude: &[u8],
    path: &mut [u32],
) -> Result<PathAnswer, Refusal>
    ensures real { Real result }
    ensures result_value { numbers_of_path result ≡ (Calls.first (request_for profile.now asked include.now exclude.now) (length path.old)).numbers }
    ensures path_after { path.new ≡ over (Calls.first (request_for profile.now asked include.now exclude.now) (length path.old)).written path.old }
{
    let reply = first_route(profile, asked, include, exclude, path.len())?;
    Ok(hand_out(reply, path))
}

// The next of the shortest paths after a given list, which need not be a path.
pub fn next(
    profile: &[u8],
    asked: Asked,
    include: &[u8],
    exclude: &[u8],
    given: &[u32],
    path: &mut [u32],
) -> Result<PathAnswer, Refusal>
    ensures real { Real result }
    ensures result_value { numbers_of_path result ≡ (Calls.next (request_for profile.now asked include.now exclude.now) given.now (length path.old)).numbers }
    ensures path_after { path.new ≡ over (Calls.next (request_for profile.now asked include.now exclude.now) given.now (length path.old)).written path.old }
{
    let reply = next_route(profile, asked, include, exclude, given, path.len())?;
    Ok(hand_out(reply, path))
}
