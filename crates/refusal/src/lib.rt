// Refusals: by a reason and a place, where a test holds, and at an offset of a list.
#![tactic(auto)]

ghost use Rattle.std.specs.Prelude.{◌≡◌, true, ◌≤◌};
ghost use Rattle.model.specs.Verdict.{refuse_if, number_of};
ghost use Rattle.refusal.specs.Refused.{refusal};

use model::{Reason, Refusal, Verdict};

// Refused for this reason at this place.
pub fn refuse(reason: Reason, place: u32) -> Verdict
    ensures { result ≡ refuse_if true (number_of reason) place }
{
    Err(Refusal::new(reason, place))
}

// Refused at an offset of a list.
pub fn refuse_at(reason: Reason, at: usize) -> Verdict
    requires { at ≤ 1024 }
    ensures { result ≡ refusal (number_of reason) at }
{
    refuse(reason, at as u32)
}

// Refused where a test says that something is wrong.
pub fn refuse_if(wrong: bool, reason: Reason, place: u32) -> Verdict
    ensures { result ≡ refuse_if wrong (number_of reason) place }
{
    if wrong {
        return refuse(reason, place);
    }
    Ok(())
}
