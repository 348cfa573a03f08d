// The check of a whole profile, numbers 10 to 19.
#![tactic(auto)]

ghost use Rattle.std.specs.Prelude.{◌≡◌};
ghost use Rattle.model.specs.Answers.{numbers_of_profile};
ghost use Rattle.model.specs.Calls.{check_profile};
ghost use Rattle.model.specs.Profile.{profile_verdict, verdict_on};
ghost use Rattle.profile_records.specs.Layout.{layout_of, SoundLayout};

use crate::crowd::crowded_verdict;
use model::Verdict;
use profile_record_checks::domain::domains_verdict;
use profile_record_checks::header::header_verdict;
use profile_record_checks::hop::hops_verdict;
use profile_records::layout::{Layout, layout_in};

pub mod crowd;

// The verdict on a profile of any layout. A function that asks for an accepted profile asks that this verdict is `Pass`.
pub fn profile_verdict(s: &[u8], layout: Layout) -> Verdict
    requires { SoundLayout (layout_of layout) }
    ensures { result ≡ profile_verdict (layout_of layout) s.now }
{
    header_verdict(s, layout)?;
    domains_verdict(s)?;
    hops_verdict(s, layout)?;
    crowded_verdict(s, layout)
}

// The verdict on a profile of the layout that its own bytes say, for every byte slice.
pub fn verdict_on(profile: &[u8]) -> Verdict
    ensures { result ≡ verdict_on profile.now }
{
    profile_verdict(profile, layout_in(profile))
}

// Whether the calculator takes a profile, and by which number and at which place it refuses it. For every byte slice.
pub fn check_profile(profile: &[u8]) -> Verdict
    ensures { numbers_of_profile result ≡ check_profile profile.now }
{
    verdict_on(profile)
}
