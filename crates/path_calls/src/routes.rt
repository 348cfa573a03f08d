// First and next by value: the checks in document 01's order, then the search.
ghost use Rattle.std.specs.Prelude.{◌≡◌, ℕ, suc, ◌≤◌, length, Ok};
ghost use Rattle.model.specs.Path.{shortest_paths};
ghost use Rattle.model.specs.Profile.{layout_in};
ghost use Rattle.model.specs.Calls.{first_of, greater_than, first, next};
ghost use Rattle.laws.specs.Lists.{lists_of};
ghost use Rattle.request.specs.CheckedRequest.{request_for};
ghost use Rattle.request.specs.Query.{search_for, in_round, round_for, Ready};
ghost use Rattle.path_answers.specs.PathReply.{none_number, ReplyIs};

use model::Refusal;
use path_answers::lent::{given_verdict, room_verdict};
use path_answers::{PathReply, answered};
use path_search::search;
use profile_records::layout::layout_in;
use request::{Asked, Query, check_request};

// The answer for a request that passed its checks: the first of the shortest paths above the given list, in the round that applies.
fn sought_route(
    profile: &[u8],
    include: &[u8],
    exclude: &[u8],
    q: Query,
    given: &[u32],
    again: bool,
) -> PathReply
    requires { Ready (layout_in profile.now) profile.now (lists_of include.now exclude.now) q × (1 ≤ length given.now → length given.now ≡ suc q.count) }
    ensures { (room : ℕ) → suc q.count ≤ room → ReplyIs (first_of (round_for (layout_in profile.now) profile.now (lists_of include.now exclude.now) q) (none_number again) (greater_than given.now (shortest_paths (search_for (layout_in profile.now) profile.now (lists_of include.now exclude.now) (in_round (round_for (layout_in profile.now) profile.now (lists_of include.now exclude.now) q) q))))) room (Ok result) }
{
    let layout = layout_in(profile);
    let sought = search(profile, layout, include, exclude, q, given);
    answered(sought, q.count, again)
}

// The first of the shortest paths, with room for so many addresses.
pub fn first_route(
    profile: &[u8],
    asked: Asked,
    include: &[u8],
    exclude: &[u8],
    room: usize,
) -> Result<PathReply, Refusal>
    ensures { ReplyIs (first (request_for profile.now asked include.now exclude.now) room) room result }
{
    let q = check_request(profile, asked, include, exclude)?;
    room_verdict(q.count, room)?;
    Ok(sought_route(profile, include, exclude, q, &[], false))
}

// The next of the shortest paths after a given list of addresses, whether or not that is itself a path.
pub fn next_route(
    profile: &[u8],
    asked: Asked,
    include: &[u8],
    exclude: &[u8],
    given: &[u32],
    room: usize,
) -> Result<PathReply, Refusal>
    ensures { ReplyIs (next (request_for profile.now asked include.now exclude.now) given.now room) room result }
{
    let q = check_request(profile, asked, include, exclude)?;
    given_verdict(given.len(), q.count, room)?;
    Ok(sought_route(profile, include, exclude, q, given, true))
}
