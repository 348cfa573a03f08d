// The checks of a whole request, in document 01's order, and what passes them.
#![tactic(auto)]

ghost use Rattle.std.specs.Prelude.{◌≡◌};
ghost use Rattle.model.specs.Verdict.{Pass};
ghost use Rattle.model.specs.Request.{request_verdict};
ghost use Rattle.request.specs.CheckedRequest.{request_for, RequestIs};
ghost use Rattle.request.specs.Query.{in_round};

use crate::checks::request_verdict;
use list_include::read_list;
use model::{DomainIndex, Limits, NamedStop, NodeAddress, Refusal, Round};

pub mod checks;
pub mod floats;
pub mod limits;

// What is asked beside the profile and the lists: the domain that a path starts in, both its ends, and its limits.
#[derive(Clone, Copy)]
pub struct Asked {
    pub ingress: DomainIndex,
    pub source: NodeAddress,
    pub destination: NodeAddress,
    pub limits: Limits,
}

// What a search needs of an accepted request beside the profile and the two lists: the sequence of `count` domains (the EXRS of a domain are those in the include
// list between the subobject that named the domain before and its own), where a path starts and ends, the limits, and the round in which it is looked for.
#[derive(Clone, Copy)]
pub struct Query {
    pub count: usize,
    pub stops: [NamedStop; 16],
    pub source: NodeAddress,
    pub destination: NodeAddress,
    pub limits: Limits,
    pub round: Round,
}

// The meaning of the include list of a request that passes the checks before it. Of the exclude list only the contract speaks.
pub fn read_query(
    profile: &[u8],
    asked: Asked,
    include: &[u8],
    exclude: &[u8],
) -> Result<Query, Refusal>
    requires { request_verdict (request_for profile.now asked include.now exclude.now) ≡ Pass }
    ensures { RequestIs profile.now asked include.now exclude.now result }
{
    let st = read_list(profile, asked.ingress, include)?;
    let stops = st.stops;
    Ok(Query {
        count: st.count,
        stops,
        source: asked.source,
        destination: asked.destination,
        limits: asked.limits,
        round: Round::First,
    })
}

// All checks before 33, the meaning of the include list last. For every byte slice and every float.
pub fn check_request(
    profile: &[u8],
    asked: Asked,
    include: &[u8],
    exclude: &[u8],
) -> Result<Query, Refusal>
    ensures { RequestIs profile.now asked include.now exclude.now result }
{
    request_verdict(profile, asked.ingress, include, exclude, asked.limits)?;
    read_query(profile, asked, include, exclude)
}

// The same query in a round.
pub fn in_round(q: Query, round: Round) -> Query
    ensures { result ≡ in_round round q }
{
    let mut next = q;
    next.round = round;
    next
}
