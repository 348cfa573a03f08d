// The calls of a series, one after the other.
ghost use Rattle.std.specs.Prelude.{◌≡◌, false, [], ◌+◌, ◌*◌, ◌≤◌, eqb, length};
ghost use Rattle.model.specs.Series.{call_outcome, run};
ghost use Rattle.request.specs.CheckedRequest.{request_for};
ghost use Rattle.path_answers.specs.Numbers.{Real};
ghost use Rattle.path_answers.specs.PathReply.{ReplyIs};
ghost use Rattle.path_series.specs.Calls.{kind_of, calls_of, malformed};
ghost use Rattle.path_series.specs.Turns.{answer_of, handed_out, last_of, last_path_after, ReplyPut};
ghost use Rattle.path_series.specs.Runs.{Left};

use buffers::put_numbers;
use model::{PathAnswer, Refusal};
use path_answers::PathReply;
use path_answers::numbers::five_of;
use path_calls::routes::{first_route, next_route};
use request::Asked;

// A path handed out: the first `count` addresses of `path`; `count` is 0 where there is none.
#[derive(Clone, Copy)]
struct LastPath {
    path: [u32; 17],
    count: usize,
}

const NO_PATH: LastPath = LastPath {
    path: [0; 17],
    count: 0,
};

// One call: a first, or a next after the path last handed out.
fn call(
    profile: &[u8],
    asked: Asked,
    include: &[u8],
    exclude: &[u8],
    kind: u8,
    last: LastPath,
    room: usize,
) -> Result<PathReply, Refusal>
    requires { last.count ≤ 17 }
    ensures { ReplyIs (call_outcome (request_for profile.now asked include.now exclude.now) (last_of last) (kind_of kind) room) room result }
{
    if kind == 0 {
        return first_route(profile, asked, include, exclude, room);
    }
    let path = last.path;
    let count = last.count;
    next_route(profile, asked, include, exclude, &path[..count], room)
}

// What a reply answers, without its path.
fn answer_of(reply: Result<PathReply, Refusal>) -> Result<PathAnswer, Refusal>
    ensures { result ≡ answer_of reply }
{
    Ok(reply?.answer)
}

// The path that a reply hands out.
fn handed_out(reply: Result<PathReply, Refusal>) -> LastPath
    ensures { result ≡ handed_out reply }
{
    match reply {
        Ok(found) => {
            let path = found.path;
            LastPath {
                path,
                count: found.count,
            }
        }
        Err(_) => NO_PATH,
    }
}

// A reply's path over the start of its call's buffer, at `at`, and its five numbers at the place of call `j`; the answer is its number.
fn put_reply(
    reply: Result<PathReply, Refusal>,
    buffers: &mut [u32],
    at: usize,
    numbers: &mut [u32],
    j: usize,
) -> u32
    requires { Real (answer_of reply) × ((handed_out reply).count ≤ 17) × (at + (handed_out reply).count ≤ length buffers.old) × (5 * j + 5 ≤ length numbers.old) }
    ensures { ReplyPut reply buffers.old at numbers.old j result buffers.new numbers.new }
{
    let handed = handed_out(reply);
    let five = five_of(answer_of(reply));
    put_numbers(buffers, at, &handed.path, handed.count);
    put_numbers(numbers, 5 * j, &five, 5);
    five[0]
}

// The path last handed out after a call that answers with this number: the reply's where it is 0, else the one before.
fn last_path_after(reply: Result<PathReply, Refusal>, number: u32, before: LastPath) -> LastPath
    ensures { result ≡ last_path_after (eqb number 0) reply before }
{
    if number == 0 {
        return handed_out(reply);
    }
    before
}

// All calls in turn: each is made, its reply put, and the path last handed out kept.
pub fn make_calls(
    profile: &[u8],
    asked: Asked,
    include: &[u8],
    exclude: &[u8],
    kinds: &[u8],
    sizes: &[u32],
    buffers: &mut [u32],
    numbers: &mut [u32],
)
    requires { malformed kinds.now sizes.now (length buffers.old) (length numbers.old) ≡ false }
    ensures { Left (run (request_for profile.now asked include.now exclude.now) [] (calls_of kinds.now sizes.now buffers.old)) numbers.old buffers.new numbers.new }
{
    let mut last = NO_PATH;
    let mut at: usize = 0;
    for j in 0..kinds.len() {
        let room = sizes[j] as usize;
        let reply = call(profile, asked, include, exclude, kinds[j], last, room);
        let number = put_reply(reply, buffers, at, numbers, j);
        last = last_path_after(reply, number, last);
        at += room;
    }
}
