// What a call for a path answers, by value, where it doesn't refuse: no path, or a path with its total both ways and its round.
#![tactic(auto)]

ghost use Rattle.std.specs.Prelude.{◌≡◌, List, ℕ, suc, ◌≤◌, ◌<◌, Ok};
ghost use Rattle.model.specs.Request.{Search};
ghost use Rattle.model.specs.Path.{shortest_paths};
ghost use Rattle.model.specs.Calls.{first_of, greater_than};
ghost use Rattle.path_answers.specs.SearchResult.{nothing_in, found_in, ResultIs};
ghost use Rattle.path_answers.specs.PathReply.{none_answer, none_number, ReplyIs};

use bound::total_float;
use model::{PathAnswer, Round};

pub mod lent;
pub mod numbers;

// A path's total, and its addresses at the start of `addresses`.
#[derive(Clone, Copy, Debug, PartialEq, Eq)]
pub struct FoundPath {
    pub total: u32,
    pub addresses: [u32; 17],
}

// What a search finds, whatever the engine: the round that applies, and a path in it.
#[derive(Clone, Copy, Debug, PartialEq, Eq)]
pub struct SearchResult {
    pub round: Round,
    pub found: Option<FoundPath>,
}

// Nothing is found in a round.
pub fn nothing_in(round: Round) -> SearchResult
    ensures { result ≡ nothing_in round }
{
    SearchResult { round, found: None }
}

// A path is found in a round: the least total, and addresses that start with its own.
pub fn found_in(round: Round, least: u32, addresses: [u32; 17]) -> SearchResult
    ensures { result ≡ found_in round least addresses }
{
    let path = FoundPath {
        total: least,
        addresses,
    };
    SearchResult {
        round,
        found: Some(path),
    }
}

// What a call for a path answers, and the path: the first `count` addresses of `path`.
#[derive(Clone, Copy)]
pub struct PathReply {
    pub answer: PathAnswer,
    pub count: usize,
    pub path: [u32; 17],
}

// There is no path: for first none at all, for next none that is greater.
fn none_answer(again: bool) -> PathAnswer
    ensures { result ≡ none_answer again }
{
    if again {
        PathAnswer::End
    } else {
        PathAnswer::NoPath
    }
}

// The path found, or the answer that there is none.
pub fn answered(sought: SearchResult, count: usize, again: bool) -> PathReply
    requires { count < 17 }
    ensures { (S : Search) (given : List ℕ) (room : ℕ) → ResultIs S given (suc count) sought → suc count ≤ room → ReplyIs (first_of sought.round (none_number again) (greater_than given (shortest_paths S))) room (Ok result) }
{
    let Some(found) = sought.found else {
        return PathReply {
            answer: none_answer(again),
            count: 0,
            path: [0; 17],
        };
    };
    let path = found.addresses;
    let answer = PathAnswer::Found {
        total: found.total,
        float: total_float(found.total),
        round: sought.round,
    };
    PathReply {
        answer,
        count: count + 1,
        path,
    }
}
