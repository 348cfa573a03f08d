// What the EXRS of a stretch of an include list carry, and where the first of them stands. The stretch is of right form, from an offset of the list up to another.
ghost use Rattle.std.specs.Prelude.{◌≡◌, length};
ghost use Rattle.model.specs.Verdict.{Pass};
ghost use Rattle.model.specs.declared.ListKind.TheVariants.{Include, Exclude};
ghost use Rattle.model.specs.Subobject.{subobject_verdict, named_at, after_subobject, inside_of, form_verdict};
ghost use Rattle.laws.specs.Exrs.{Stretch, carried_in};
ghost use Rattle.list_exclusion.specs.Tests.{Test, IsFound, some_passes};

use list_subobject::types::is_exrs;
use list_subobject::walk::next_after;

// The subobject at an offset is an EXRS in which one is found that is looked for. What it carries stands behind its four bytes, up to the next subobject.
fn found_at<F: Fn(&[u8]) -> bool>(list: &[u8], at: usize, next: usize, found: &F) -> bool
    requires right { (subobject_verdict Include list.now (length list.now) at ≡ Pass) × (next ≡ after_subobject list.now at) }
    requires callable { (inside : _) → form_verdict Exclude inside.now ≡ Pass → F.pre found.now inside }
    ensures { (q : Test) → IsFound (F.post found.now) q → result ≡ some_passes q (inside_of (named_at list.now at)) }
{
    is_exrs(list[at]) && found(&list[at + 4..next])
}

// In an EXRS of the stretch one is found that is looked for.
pub fn exrs_have<F: Fn(&[u8]) -> bool>(list: &[u8], from: usize, to: usize, found: F) -> bool
    requires stretch { Stretch list.now from to }
    requires callable { (inside : _) → form_verdict Exclude inside.now ≡ Pass → F.pre found inside }
    ensures { (q : Test) → IsFound (F.post found) q → result ≡ some_passes q (carried_in list.now from to) }
{
    let mut at = from;
    while at < to {
        let next = next_after(list, at);
        if found_at(list, at, next, &found) {
            return true;
        }
        at = next;
    }
    false
}

// Where the first EXRS of the stretch stands, or its end: from there on it has the same, so what has none is told without another look.
pub fn first_exrs(list: &[u8], from: usize, to: usize) -> usize
    requires { Stretch list.now from to }
    ensures { Stretch list.now result to × (carried_in list.now result to ≡ carried_in list.now from to) }
{
    let mut at = from;
    while at < to {
        if is_exrs(list[at]) {
            return at;
        }
        at = next_after(list, at);
    }
    to
}
