// When a sequence can't be written.
ghost use Rattle.std.specs.Prelude.{◌≡◌, not, ◌||◌, ℕ, ◌≤◌, ◌<◌, length, leb, ltb};
ghost use Rattle.model.specs.Verdict.{Pass};
ghost use Rattle.model.specs.declared.ListKind.TheVariants.{Include};
ghost use Rattle.model.specs.Lists.{all, any, all_different, sum};
ghost use Rattle.model.specs.Profile.{domains, verdict_on};
ghost use Rattle.model.specs.Subobject.{Subobject, form_verdict, subobjects};
ghost use Rattle.model.specs.WrittenList.{first_marked, is_exrs, whole_exrs, unfit, unwritable};
ghost use Rattle.list_writer.specs.Writing.{no_sequence, some_part_broken};

use crate::Lent;
use crate::sizes::list_size;
use list_form::form;
use list_subobject::types::SubobjectType;
use list_subobject::walk::next_after;
use model::ListKind;
use wire::u16_at;

// Some index comes again.
fn some_twice(indexes: &[u16]) -> bool
    ensures { result ≡ not (all_different indexes.now) }
{
    for i in 0..indexes.len() {
        if indexes[i + 1..].contains(&indexes[i]) {
            return true;
        }
    }
    false
}

// Some index isn't below the domain count.
fn some_outside(indexes: &[u16], count: u16) -> bool
    ensures { result ≡ any (λ (d : ℕ). leb count d) indexes.now }
{
    indexes.iter().any(|d| count <= *d)
}

// Some mark is neither 0 nor 1.
fn some_no_mark(marks: &[u8]) -> bool
    ensures { result ≡ any (λ (m : ℕ). ltb 1 m) marks.now }
{
    marks.iter().any(|m| 1 < *m)
}

// An index that isn't below the domain count, a domain twice, or a mark that is neither 0 nor 1.
fn stop_wrong(indexes: &[u16], marks: &[u8], count: u16) -> bool
    ensures { result ≡ (any (λ (d : ℕ). leb count d) indexes.now || not (all_different indexes.now) || any (λ (m : ℕ). ltb 1 m) marks.now) }
{
    some_outside(indexes, count) || some_twice(indexes) || some_no_mark(marks)
}

// All the counts together. There are few enough that the sum fits.
fn sum_of(counts: &[u32]) -> usize
    requires { length counts.now ≤ 16 }
    ensures { result ≡ sum counts.now }
{
    counts.iter().map(|count| *count as usize).sum()
}

// The lists don't fit together: not one of each for every domain, or counts that don't come to all the EXRS' bytes.
#[tactic(auto, unfolding(model::specs::WrittenList::unfit))]
fn unfit(lent: Lent) -> bool
    requires { length lent.indexes.now ≤ 16 }
    ensures { result ≡ unfit lent.entry.indexes.now lent.entry.marks.now lent.entry.nodes.now lent.entry.counts.now lent.entry.exrs.now }
{
    let n = lent.indexes.len();
    lent.marks.len() != n
        || lent.nodes.len() != n
        || lent.counts.len() != n
        || sum_of(lent.counts) != lent.exrs.len()
}

// Every subobject of a list of right form is an EXRS.
fn only_exrs(bytes: &[u8]) -> bool
    requires { form_verdict Include bytes.now ≡ Pass }
    ensures { result ≡ all (λ (s : Subobject). is_exrs s.names) (subobjects bytes.now) }
{
    let mut at = 0;
    while at < bytes.len() {
        if bytes[at] % 128 != SubobjectType::Exrs as u8 {
            return false;
        }
        at = next_after(bytes, at);
    }
    true
}

// Bytes that are whole EXRS of right form, back to back.
#[tactic(auto, unfolding(model::specs::WrittenList::whole_exrs))]
fn whole_exrs(bytes: &[u8]) -> bool
    requires { length bytes.now ≤ 1024 }
    ensures { result ≡ whole_exrs bytes.now }
{
    form(ListKind::Include, bytes).is_ok() && only_exrs(bytes)
}

// The bytes of some domain aren't whole EXRS.
fn some_part_broken(counts: &[u32], exrs: &[u8]) -> bool
    requires { (sum counts.now ≡ length exrs.now) × (length exrs.now ≤ 1024) }
    ensures { result ≡ some_part_broken counts.now exrs.now }
{
    let mut from = 0;
    for count in counts {
        let to = from + *count as usize;
        if !whole_exrs(&exrs[from..to]) {
            return true;
        }
        from = to;
    }
    false
}

// The first domain has an entry constraint or EXRS, which only later ones can have.
fn first_marked(marks: &[u8], counts: &[u32]) -> bool
    requires { (0 < length marks.now) × (0 < length counts.now) }
    ensures { result ≡ (first_marked marks.now || first_marked counts.now) }
{
    marks[0] != 0 || counts[0] != 0
}

// The lists, of which the profile has so many domains, stand for no sequence of domains.
fn no_sequence(domains: u16, lent: Lent) -> bool
    ensures { result ≡ no_sequence domains lent.entry.indexes.now lent.entry.marks.now lent.entry.nodes.now lent.entry.counts.now lent.entry.exrs.now }
{
    if lent.indexes.is_empty() || 16 < lent.indexes.len() || unfit(lent) {
        return true;
    }
    stop_wrong(lent.indexes, lent.marks, domains) || first_marked(lent.marks, lent.counts)
}

// A sequence, as the lent lists give it, can't be written.
pub fn unwritable(profile: &[u8], lent: Lent) -> bool
    requires { verdict_on profile.now ≡ Pass }
    ensures { result ≡ unwritable (domains profile.now) lent.entry.indexes.now lent.entry.marks.now lent.entry.nodes.now lent.entry.counts.now lent.entry.exrs.now }
{
    let domains = u16_at(profile, 6);
    // A list is at least as long as its EXRS, so the form of longer ones is never asked.
    if no_sequence(domains, lent) || 1024 < lent.exrs.len() {
        return true;
    }
    some_part_broken(lent.counts, lent.exrs) || 1024 < list_size(profile, lent)
}
