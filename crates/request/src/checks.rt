// The checks before the meaning of the include list, in document 01's order: profile, 20, 21, 22, the form of each list.
ghost use Rattle.std.specs.Prelude.{◌≡◌, ℕ};
ghost use Rattle.model.specs.Verdict.{Pass};
ghost use Rattle.model.specs.Request.{sizes_verdict, forms_verdict, request_verdict};
ghost use Rattle.request.specs.CheckedRequest.{request_of, start_verdict};

use crate::floats::limits_verdict;
use list_form::form;
use model::{DomainIndex, Limits, ListKind, Reason, Verdict};
use profile_check::verdict_on;
use profile_records::header::domain_count;
use refusal::refuse_if;

// The profile, and the ingress domain in it.
pub fn start_verdict(profile: &[u8], ingress: DomainIndex) -> Verdict
    ensures { result ≡ start_verdict profile.now ingress.0 }
{
    verdict_on(profile)?;
    refuse_if(
        domain_count(profile) <= ingress.0,
        Reason::UnknownIngress,
        0,
    )
}

// The sizes of both lists.
pub fn sizes_verdict(include: &[u8], exclude: &[u8]) -> Verdict
    ensures { result ≡ sizes_verdict include.now exclude.now }
{
    refuse_if(1024 < include.len(), Reason::LongList, 0)?;
    refuse_if(1024 < exclude.len(), Reason::LongList, 1)
}

// The form of both lists.
pub fn forms_verdict(include: &[u8], exclude: &[u8]) -> Verdict
    requires { sizes_verdict include.now exclude.now ≡ Pass }
    ensures { result ≡ forms_verdict include.now exclude.now }
{
    form(ListKind::Include, include)?;
    form(ListKind::Exclude, exclude)
}

// All of them. Any source and destination will do.
pub fn request_verdict(
    profile: &[u8],
    ingress: DomainIndex,
    include: &[u8],
    exclude: &[u8],
    limits: Limits,
) -> Verdict
    ensures { (source destination : ℕ) → result ≡ request_verdict (request_of profile.now ingress.0 source destination include.now exclude.now limits) }
{
    start_verdict(profile, ingress)?;
    limits_verdict(limits)?;
    sizes_verdict(include, exclude)?;
    forms_verdict(include, exclude)
}
